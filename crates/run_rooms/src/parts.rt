// The words of one function.

ghost use Rattle.std.specs.Prelude.{◌≡◌, ◌+◌, ◌^◌, ◌<◌, ◌≤◌, ℕ, length, IfOk, IfErr, slice_index};
ghost use Rattle.call_layout.specs.declared.faults.Fault.TheVariants.{TooLarge};
ghost use Rattle.run_rooms.specs.Widths.{in_word};
ghost use Rattle.run_rooms.specs.Layout.{part_in, lead, summed, IsFilled, IsTable, HasFarSum, AreParts};

use call_layout::Fault;
use std::alloc::{AllocError, Global};

/// Where the words of a function stand: its variables, then the two words of its call, then the values that it computes. The
/// built-in values stand before the variables that are outside of functions.
#[derive(Clone, Copy)]
pub struct Part {
    pub begin: u32,
    pub rooms: u32,
    pub rooms_count: u32,
    pub frame: u32,
    pub end: u32,
}

/// The words of the four built-in values.
const INPUT_WORDS: u32 = 10;

/// The words before the variables of a function.
fn front_of(function: usize) -> u32
    ensures { result ≡ lead function }
{
    if function == 0 { INPUT_WORDS } else { 0 }
}

/// A part that begins at a place, with so many words before its variables, of variables, and of values.
fn laid_out(begin: u32, front: u32, rooms_count: u32, slots: u32) -> Part
    requires { begin + (front + rooms_count + 2 + slots) < 2 ^ 32 }
    ensures begin { result.begin ≡ begin }
    ensures filled { IsFilled front rooms_count slots result }
{
    let rooms = begin + front;
    let frame = rooms + rooms_count;
    Part {
        begin,
        rooms,
        rooms_count,
        frame,
        end: frame + 2 + slots,
    }
}

/// The part of a function; all 0 where there is none.
pub fn part_at(parts: &[Part], function: usize) -> Part
    ensures { result ≡ part_in parts.now function }
{
    match parts.get(function) {
        Some(part) => *part,
        None => Part {
            begin: 0,
            rooms: 0,
            rooms_count: 0,
            frame: 0,
            end: 0,
        },
    }
}

/// One of these numbers, counted from 0; 0 where there is none.
pub fn number_at(numbers: &[u32], at: usize) -> u32
    ensures { result ≡ slice_index numbers.now at }
{
    numbers.get(at).copied().unwrap_or(0)
}

/// The words of a function with so many before its variables, of variables, and of values, if 32 bits tell it.
fn sum_of(front: u32, rooms_count: u32, slots: u32) -> Option<u32>
    ensures { result ≡ in_word (front + rooms_count + 2 + slots) }
{
    let sum = u64::from(front) + u64::from(rooms_count) + 2 + u64::from(slots);
    u32::try_from(sum).ok()
}

/// The words of each function, by those of its variables and of its values.
pub fn function_words(
    alloc: Global,
    room_sums: &[u32],
    slot_sums: &[u32],
) -> Result<Vec<u32>, Fault>
    ensures words { IfOk result (λ words. IsTable (summed room_sums.now slot_sums.now) (length room_sums.now) words.items) }
    ensures too_large { IfErr result (λ fault. fault ≡ TooLarge → HasFarSum (length room_sums.now) (summed room_sums.now slot_sums.now)) }
{
    let mut words = Vec::new(alloc);
    for (function, rooms_count) in room_sums.iter().enumerate() {
        let slots = number_at(slot_sums, function);
        match sum_of(front_of(function), *rooms_count, slots) {
            Some(sum) => words.push(sum)?,
            None => return Err(Fault::TooLarge),
        }
    }
    Ok(words)
}

/// The parts of all functions with so many words of variables and of values, where they are to begin.
pub fn parts(
    alloc: Global,
    begins: &[u32],
    room_sums: &[u32],
    slot_sums: &[u32],
) -> Result<Vec<Part>, AllocError>
    requires { (f : ℕ) → f < length room_sums.now → slice_index begins.now f + summed room_sums.now slot_sums.now f < 2 ^ 32 }
    ensures { IfOk result (λ parts. AreParts begins.now room_sums.now slot_sums.now parts.items) }
{
    let mut parts = Vec::new(alloc);
    for (function, rooms_count) in room_sums.iter().enumerate() {
        let begin = number_at(begins, function);
        let slots = number_at(slot_sums, function);
        parts.push(laid_out(begin, front_of(function), *rooms_count, slots))?;
    }
    Ok(parts)
}

/// The greatest end of all parts.
pub fn total(parts: &[Part]) -> u32
    ensures { (function : ℕ) → (part_in parts.now function).end ≤ result }
{
    let mut total = 0;
    for part in parts {
        total = part.end.max(total);
    }
    total
}
