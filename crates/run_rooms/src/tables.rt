// Tables of the places of all values.

ghost use Rattle.std.specs.Prelude.{◌≡◌, ◌+◌, ◌^◌, ◌<◌, ℕ, suc, length, IfOk, IfErr, slice_index};
ghost use Rattle.call_layout.specs.declared.faults.Fault.TheVariants.{TooLarge};
ghost use Rattle.image_facts.specs.Operands.{globals_of};
ghost use Rattle.image_places.specs.Places.{function_of};
ghost use Rattle.run_rooms.specs.Widths.{Tells};
ghost use Rattle.run_rooms.specs.Sums.{before};
ghost use Rattle.run_rooms.specs.Layout.{IsTable, IsLayout, part_in, room_words_at, slot_words_at};
ghost use Rattle.run_rooms.specs.Needs.{words_of, HasLongChain};
ghost use Rattle.run_rooms.specs.Calls.{KeepsCalls};
ghost use Rattle.run_rooms.specs.Tables.{layout_of, ArePlaced, AreLaid, AreStarts};

use crate::calls::edges;
use crate::offsets::offsets_of;
use crate::parts::{Part, function_words, number_at, part_at, parts, total};
use crate::widths::Widths;
use crate::words::{homes, room_table, slot_table};
use call_graph::order;
use call_layout::Fault;
use image_lookup::Definitions;
use std::alloc::{AllocError, Global};

/// By the number of an instruction, where its result stands and where the variable's words do; by the number of a function,
/// its part; and how many words there are.
#[derive(Drop)]
pub struct Tables {
    pub slots: Vec<u32>,
    pub rooms: Vec<u32>,
    pub parts: Vec<Part>,
    pub total: u32,
}

/// Where the result of each instruction stands.
fn slots(
    alloc: Global,
    homes: &[usize],
    offsets: &[u32],
    parts: &[Part],
) -> Result<Vec<u32>, AllocError>
    requires { (k : ℕ) → k < length homes.now → (part_in parts.now (slice_index homes.now k)).frame + 2 + slice_index offsets.now k < 2 ^ 32 }
    ensures { IfOk result (λ slots. IsTable (λ k. (part_in parts.now (slice_index homes.now k)).frame + 2 + slice_index offsets.now k) (length homes.now) slots.items) }
{
    let mut slots = Vec::new(alloc);
    for (number, home) in homes.iter().enumerate() {
        slots.push(part_at(parts, *home).frame + 2 + number_at(offsets, number))?;
    }
    Ok(slots)
}

/// Where the words of each variable stand.
fn rooms(
    alloc: Global,
    homes: &[usize],
    offsets: &[u32],
    parts: &[Part],
) -> Result<Vec<u32>, AllocError>
    requires { (k : ℕ) → k < length homes.now → (part_in parts.now (slice_index homes.now k)).rooms + slice_index offsets.now k < 2 ^ 32 }
    ensures { IfOk result (λ rooms. IsTable (λ k. (part_in parts.now (slice_index homes.now k)).rooms + slice_index offsets.now k) (length homes.now) rooms.items) }
{
    let mut rooms = Vec::new(alloc);
    for (number, home) in homes.iter().enumerate() {
        rooms.push(part_at(parts, *home).rooms + number_at(offsets, number))?;
    }
    Ok(rooms)
}

/// The places of instructions, by those of their functions.
fn placed(
    alloc: Global,
    homes: &[usize],
    room_offsets: &[u32],
    slot_offsets: &[u32],
    parts: Vec<Part>,
) -> Result<Tables, AllocError>
    requires slots_within { (k : ℕ) → k < length homes.now
        → (part_in parts.items (slice_index homes.now k)).frame + 2 + slice_index slot_offsets.now k < 2 ^ 32 }
    requires rooms_within { (k : ℕ) → k < length homes.now
        → (part_in parts.items (slice_index homes.now k)).rooms + slice_index room_offsets.now k < 2 ^ 32 }
    ensures { IfOk result (ArePlaced homes.now room_offsets.now slot_offsets.now parts.items) }
{
    let slots = slots(alloc, homes, slot_offsets, parts.as_slice())?;
    let rooms = rooms(alloc, homes, room_offsets, parts.as_slice())?;
    let total = total(parts.as_slice());
    Ok(Tables {
        slots,
        rooms,
        parts,
        total,
    })
}

/// Where functions with so many words begin. No call of a valid image leads back, so there is an order of its functions.
fn begins(
    alloc: Global,
    definitions: &Definitions,
    homes: &[usize],
    words: &[u32],
) -> Result<Vec<u32>, Fault>
    requires few { length definitions.now < 2 ^ 32 }
    requires keeps { KeepsCalls definitions.now }
    requires homes { IsTable (function_of definitions.now) (length definitions.now) homes.now }
    requires words { IsTable (words_of definitions.now) (suc (length definitions.now)) words.now }
    ensures starts { IfOk result (λ begins. AreStarts definitions.now begins.items) }
    ensures too_large { IfErr result (λ fault. fault ≡ TooLarge → HasLongChain definitions.now) }
{
    let edges = edges(alloc, definitions, homes)?;
    match order(alloc, edges.as_slice())? {
        Some(order) => call_layout::begins(alloc, words, edges.as_slice(), order.as_slice()),
        None => unreachable!(),
    }
}

/// The parts of functions with so many words of variables and of values.
fn laid(
    alloc: Global,
    definitions: &Definitions,
    homes: &[usize],
    room_sums: &[u32],
    slot_sums: &[u32],
) -> Result<Vec<Part>, Fault>
    requires few { length definitions.now < 2 ^ 32 }
    requires keeps { KeepsCalls definitions.now }
    requires homes { IsTable (function_of definitions.now) (length definitions.now) homes.now }
    requires rooms { IsTable (λ f. before (function_of definitions.now) (room_words_at definitions.now) f (length definitions.now)) (suc (length definitions.now)) room_sums.now }
    requires slots { IsTable (λ f. before (function_of definitions.now) (slot_words_at definitions.now) f (length definitions.now)) (suc (length definitions.now)) slot_sums.now }
    ensures laid { IfOk result (λ parts. AreLaid definitions.now parts.items) }
    ensures too_large { IfErr result (λ fault. fault ≡ TooLarge → HasLongChain definitions.now) }
{
    let words = function_words(alloc, room_sums, slot_sums)?;
    let begins = begins(alloc, definitions, homes, words.as_slice())?;
    let parts = parts(alloc, begins.as_slice(), room_sums, slot_sums)?;
    Ok(parts)
}

/// The tables, by the functions of instructions and their words.
fn counted(
    alloc: Global,
    definitions: &Definitions,
    homes: &[usize],
    room_words: &[u32],
    slot_words: &[u32],
) -> Result<Tables, Fault>
    requires few { length definitions.now < 2 ^ 32 }
    requires keeps { KeepsCalls definitions.now }
    requires homes { IsTable (function_of definitions.now) (length definitions.now) homes.now }
    requires rooms { IsTable (room_words_at definitions.now) (length definitions.now) room_words.now }
    requires slots { IsTable (slot_words_at definitions.now) (length definitions.now) slot_words.now }
    ensures layout { IfOk result (λ tables. IsLayout (layout_of definitions.now tables)) }
    ensures too_large { IfErr result (λ fault. fault ≡ TooLarge → HasLongChain definitions.now) }
{
    let rooms = offsets_of(alloc, homes, room_words)?;
    let slots = offsets_of(alloc, homes, slot_words)?;
    let room_sums = rooms.sums.as_slice();
    let slot_sums = slots.sums.as_slice();
    let parts = laid(alloc, definitions, homes, room_sums, slot_sums)?;
    let room_offsets = rooms.offsets.as_slice();
    let slot_offsets = slots.offsets.as_slice();
    let tables = placed(alloc, homes, room_offsets, slot_offsets, parts)?;
    Ok(tables)
}

/// The tables of an image.
pub fn tables_of(alloc: Global, definitions: &Definitions, widths: &Widths) -> Result<Tables, Fault>
    requires few { length definitions.now < 2 ^ 32 }
    requires keeps { KeepsCalls definitions.now }
    requires widths { Tells widths.now (globals_of definitions.now) }
    ensures layout { IfOk result (λ tables. IsLayout (layout_of definitions.now tables)) }
    ensures too_large { IfErr result (λ fault. fault ≡ TooLarge → HasLongChain definitions.now) }
{
    let homes = homes(alloc, definitions.code())?;
    let room_words = room_table(alloc, definitions, widths)?;
    let slot_words = slot_table(alloc, definitions, widths)?;
    let rooms = room_words.as_slice();
    let slots = slot_words.as_slice();
    counted(alloc, definitions, homes.as_slice(), rooms, slots)
}
