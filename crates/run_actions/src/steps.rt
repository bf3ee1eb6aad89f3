// One step, in place.

ghost use Rattle.std.specs.Prelude.{◌≡◌, true, false, cond, ◌+◌};
ghost use Rattle.run_actions.specs.Ranges.{with_word, Did};
ghost use Rattle.run_actions.specs.Steps.{IsStuck, Goes, two, load, store, read, write, chain, buffer_chain, choose, entered, goes_on, give_back, act, flat_step, Took};

use crate::actions::{Action, Index, Move};
use crate::chains::step_all;
use crate::ranges::{clear, copy, gather, is_inside, is_read_first, one, put, put_both};
use crate::turns::{Followed, Turn};
use flat_values::{Binary, operate_two_each};

/// One step from a place on, where the buffers have so many words by their numbers. It takes no memory.
pub fn step(actions: &[Action], lengths: &[u32], place: usize, words: &mut [u32]) -> Turn
    ensures { Took (flat_step actions.now lengths.now place words.old) result words.old words.new }
{
    if place < actions.len() {
        perform(&actions[place], place + 1, lengths, words)
    } else {
        Turn::Stuck
    }
}

// On to a place, if what was to be done was done.
#[inline]
fn going(done: bool, place: usize) -> Turn
    ensures { result ≡ cond done (Turn.Going place) Turn.Stuck }
{
    if done {
        Turn::Going { place }
    } else {
        Turn::Stuck
    }
}

// The action, where `next` is the place after it.
#[inline]
fn perform(action: &Action, next: usize, lengths: &[u32], words: &mut [u32]) -> Turn
    ensures { Took (act action.now next lengths.now words.old) result words.old words.new }
{
    match action {
        Action::Pass => Turn::Going { place: next },
        Action::Put { to, word } => going(put(words, *to, *word), next),
        Action::One {
            op,
            from,
            to,
            count,
        } => going(one(*op, words, *from, *to, *count), next),
        Action::Two {
            op,
            left,
            right,
            to,
            count,
        } => operate(*op, next, words, *left, *right, *to, *count),
        Action::Copy { part } => going(copy(words, part.from, part.to, part.count), next),
        Action::Gather { parts } => going(gather(words, parts.as_slice()), next),
        Action::Load { pointer, to, count } => load_words(next, words, *pointer, *to, *count),
        Action::Store {
            pointer,
            from,
            count,
        } => store_words(next, words, *pointer, *from, *count),
        Action::Read { pointer, to } => read_word(words, *pointer, *to),
        Action::Write { pointer, from } => write_word(words, *pointer, *from),
        Action::Chain {
            pointer,
            to,
            offset,
            steps,
        } => make_pointer(next, words, *pointer, *to, *offset, steps.as_slice()),
        Action::BufferChain {
            pointer,
            to,
            offset,
            steps,
        } => {
            make_buffer_pointer(
                next,
                lengths,
                words,
                *pointer,
                *to,
                *offset,
                steps.as_slice(),
            )
        }
        Action::Jump { place } => Turn::Going {
            place: *place as usize,
        },
        Action::Choose {
            condition,
            one,
            other,
        } => choose_place(words, *condition, *one, *other),
        Action::Call {
            place,
            parts,
            first,
            count,
            frame,
            back,
            to,
        } => {
            going(
                enter(words, parts.as_slice(), *first, *count, *frame, *back, *to),
                *place as usize,
            )
        }
        Action::Return { frame } => go_back(words, *frame),
        Action::GiveBack { frame, from, count } => give_result(words, *frame, *from, *count),
        Action::End => Turn::Ended,
        Action::Unreachable => Turn::Undefined,
        Action::Never => Turn::Stuck,
    }
}

#[inline]
fn operate(
    op: Binary,
    next: usize,
    words: &mut [u32],
    left: u32,
    right: u32,
    to: u32,
    count: u32,
) -> Turn
    ensures { Took (two op next words.old left right to count) result words.old words.new }
{
    if !is_inside(words, left, count)
        || !is_inside(words, right, count)
        || !is_inside(words, to, count)
    {
        return Turn::Stuck;
    }
    if !is_read_first(left, to, count) || !is_read_first(right, to, count) {
        return Turn::Stuck;
    }
    if operate_two_each(
        op,
        words,
        left as usize,
        right as usize,
        to as usize,
        count as usize,
    ) {
        Turn::Going { place: next }
    } else {
        Turn::Undefined
    }
}

#[inline]
fn load_words(next: usize, words: &mut [u32], pointer: u32, to: u32, count: u32) -> Turn
    ensures { Took (load next words.old pointer to count) result words.old words.new }
{
    if (pointer as usize) < words.len() {
        let from = words[pointer as usize];
        going(copy(words, from, to, count), next)
    } else {
        Turn::Stuck
    }
}

#[inline]
fn store_words(next: usize, words: &mut [u32], pointer: u32, from: u32, count: u32) -> Turn
    ensures { Took (store next words.old pointer from count) result words.old words.new }
{
    if (pointer as usize) < words.len() {
        let to = words[pointer as usize];
        going(copy(words, from, to, count), next)
    } else {
        Turn::Stuck
    }
}

#[inline]
fn read_word(words: &mut [u32], pointer: u32, to: u32) -> Turn
    ensures { Took (read words.old pointer to) result words.old words.new }
{
    if pointer as usize + 1 < words.len() && (to as usize) < words.len() {
        let buffer = words[pointer as usize];
        let index = words[pointer as usize + 1];
        Turn::Reading { buffer, index, to }
    } else {
        Turn::Stuck
    }
}

#[inline]
fn write_word(words: &mut [u32], pointer: u32, from: u32) -> Turn
    ensures { Took (write words.old pointer from) result words.old words.new }
{
    if pointer as usize + 1 < words.len() && (from as usize) < words.len() {
        let buffer = words[pointer as usize];
        let index = words[pointer as usize + 1];
        let word = words[from as usize];
        Turn::Writing {
            buffer,
            index,
            word,
        }
    } else {
        Turn::Stuck
    }
}

fn make_pointer(
    next: usize,
    words: &mut [u32],
    pointer: u32,
    to: u32,
    offset: u32,
    steps: &[Index],
) -> Turn
    ensures { Took (chain next words.old pointer to offset steps.now) result words.old words.new }
{
    if (pointer as usize) >= words.len() {
        return Turn::Stuck;
    }
    let from = words[pointer as usize];
    match step_all(words, 0, steps, from, offset) {
        Followed::To(place) => going(put(words, to, place), next),
        Followed::Beyond => Turn::Undefined,
    }
}

fn make_buffer_pointer(
    next: usize,
    lengths: &[u32],
    words: &mut [u32],
    pointer: u32,
    to: u32,
    offset: u32,
    steps: &[Index],
) -> Turn
    ensures { Took (buffer_chain next lengths.now words.old pointer to offset steps.now) result words.old words.new }
{
    if pointer as usize + 1 >= words.len() {
        return Turn::Stuck;
    }
    let buffer = words[pointer as usize];
    let from = words[pointer as usize + 1];
    if (buffer as usize) >= lengths.len() {
        return Turn::Stuck;
    }
    match step_all(words, lengths[buffer as usize], steps, from, offset) {
        Followed::To(place) => going(put_both(words, to, buffer, place), next),
        Followed::Beyond => Turn::Undefined,
    }
}

#[inline]
fn choose_place(words: &mut [u32], condition: u32, one: u32, other: u32) -> Turn
    ensures { Took (choose words.old condition one other) result words.old words.new }
{
    if (condition as usize) >= words.len() {
        return Turn::Stuck;
    }
    let place = if words[condition as usize] == 0 {
        other
    } else {
        one
    };
    Turn::Going {
        place: place as usize,
    }
}

// What a call does before the function's first block.
fn enter(
    words: &mut [u32],
    parts: &[Move],
    first: u32,
    count: u32,
    frame: u32,
    back: u32,
    to: u32,
) -> bool
    ensures { Did (entered words.old parts.now first count frame back to) result words.new }
{
    if !gather(words, parts) {
        return false;
    }
    if !clear(words, first, count) {
        return false;
    }
    put_both(words, frame, back, to)
}

#[inline]
fn go_back(words: &mut [u32], frame: u32) -> Turn
    ensures { Took (with_word words.old frame IsStuck (λ p. Goes p words.old)) result words.old words.new }
{
    if (frame as usize) < words.len() {
        Turn::Going {
            place: words[frame as usize] as usize,
        }
    } else {
        Turn::Stuck
    }
}

#[inline]
fn give_result(words: &mut [u32], frame: u32, from: u32, count: u32) -> Turn
    ensures { Took (give_back words.old frame from count) result words.old words.new }
{
    if frame as usize + 1 >= words.len() {
        return Turn::Stuck;
    }
    let back = words[frame as usize];
    let to = words[frame as usize + 1];
    going(copy(words, from, to, count), back as usize)
}
