// One step on the words of a run and on a memory.

ghost use Rattle.std.specs.Prelude.{◌≡◌, ℕ, ◌<◌, Some, length, slice_get};
ghost use Rattle.std.specs.List.{AllByRecursion};
ghost use Rattle.run_actions.specs.Steps.{flat_step};
ghost use Rattle.run_buffers.specs.Texts.{IsWord};
ghost use Rattle.run_plans.specs.declared.base.Bound.{Bound};
ghost use Rattle.spirv_run.specs.Shared.{lengths_in, put_word};
ghost use Rattle.spirv_run.specs.Parts.{StandsAt, IsRead, IsMoved};

use crate::access::{read_word, write_word};
use crate::turns::Turn;
use run_actions::put;
use run_buffers::Buffers;
use run_plans::Plan;

/// One step: what a step on words asks of the buffers is done. It takes no memory.
#[inline]
pub fn advance(
    plan: &Plan,
    positions: &[usize],
    counts: &[u32],
    place: &mut usize,
    words: &mut [u32],
    buffers: &mut Buffers,
) -> Turn
    ensures moves { IsMoved plan.now.buffers (flat_step plan.now.actions.items counts.now place.old words.old) place.old words.old buffers.old result place.new words.new buffers.new }
    ensures words { AllByRecursion IsWord words.old }
    ensures counts { AllByRecursion IsWord counts.now }
{
    are_words(words);
    are_words(counts);
    let at = *place;
    if at >= plan.actions.len() {
        return Turn::Undefined;
    }
    match run_actions::step(&plan.actions, counts, at, words) {
        run_actions::Turn::Going { place: next } => {
            *place = next;
            Turn::Going
        }
        run_actions::Turn::Reading { buffer, index, to } => {
            *place = at + 1;
            read(plan, positions, words, buffers, buffer as usize, index, to)
        }
        run_actions::Turn::Writing {
            buffer,
            index,
            word,
        } => {
            *place = at + 1;
            write(plan, positions, buffers, buffer as usize, index, word)
        }
        run_actions::Turn::Ended => Turn::Ended,
        run_actions::Turn::Undefined => Turn::Undefined,
        // no step of a valid image comes here
        run_actions::Turn::Stuck => Turn::Undefined,
    }
}

/// Words are numbers of 32 bits, as a fact for proofs.
#[inline]
fn are_words(words: &[u32])
    ensures { AllByRecursion IsWord words.now }
{}

/// Reads a word of the buffer with a number, and puts it into the words.
#[inline]
fn read(
    plan: &Plan,
    positions: &[usize],
    words: &mut [u32],
    buffers: &Buffers,
    buffer: usize,
    index: u32,
    to: u32,
) -> Turn
    ensures { (b : Bound) (position : ℕ) → slice_get plan.now.buffers buffer ≡ Some b → StandsAt buffers.now b position → index < lengths_in buffers.now b.set b.binding
        → to < length words.old → (result ≡ Turn.Going) × IsRead buffers.now b index to words.old words.new }
{
    let Some(bound) = plan.buffers.get(buffer) else {
        return Turn::Undefined;
    };
    let maybe = positions.get(buffer).copied().unwrap_or(0);
    let word = read_word(buffers, bound, maybe, index);
    put(words, to, word);
    Turn::Going
}

/// Writes a word to the buffer with a number.
#[inline]
fn write(
    plan: &Plan,
    positions: &[usize],
    buffers: &mut Buffers,
    buffer: usize,
    index: u32,
    word: u32,
) -> Turn
    ensures { (b : Bound) (position : ℕ) → slice_get plan.now.buffers buffer ≡ Some b → StandsAt buffers.old b position
        → (result ≡ Turn.Going) × (buffers.new ≡ put_word buffers.old b.set b.binding index word) }
{
    let Some(bound) = plan.buffers.get(buffer) else {
        return Turn::Undefined;
    };
    let maybe = positions.get(buffer).copied().unwrap_or(0);
    write_word(buffers, bound, maybe, index, word);
    Turn::Going
}
