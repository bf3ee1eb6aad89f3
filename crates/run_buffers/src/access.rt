// Words of buffers, found by position and index.

ghost use Rattle.std.specs.Prelude.{◌≡◌, ◌↔◌, ℕ, Some, length, slice_get, IsTrue, IsSome, IfSome};
ghost use Rattle.run_buffers.specs.Texts.{IsAscending};
ghost use Rattle.run_buffers.specs.Memory as spec;
ghost use Rattle.run_buffers.specs.Memory.{slots, words_at, with_word};

use crate::buffer::Buffer;

/// The word at an index of the buffer at a position.
#[inline]
pub fn word_at(buffers: &[Buffer], position: usize, index: usize) -> Option<u32>
    ensures { result ≡ spec.word_at buffers.now position index }
{
    match buffers.get(position) {
        Some(buffer) => buffer.words.get(index).copied(),
        None => None,
    }
}

/// How many words the buffer at a position has: 0 where there is none.
#[inline]
pub fn count_at(buffers: &[Buffer], position: usize) -> usize
    ensures { result ≡ length (words_at buffers.now position) }
{
    match buffers.get(position) {
        Some(buffer) => buffer.words.len(),
        None => 0,
    }
}

/// Puts a word at an index of the buffer at a position, if there is one, and tells whether there is.
#[inline]
pub fn set_word(buffers: &mut [Buffer], position: usize, index: usize, word: u32) -> bool
    ensures set { buffers.new ≡ with_word buffers.old position index word }
    ensures is_there { IsTrue result ↔ IsSome (spec.word_at buffers.old position index) }
{
    if position < buffers.len() {
        let buffer = &mut buffers[position];
        if index < buffer.words.len() {
            buffer.words.set(index, word);
            return true;
        }
    }
    false
}

fn is_before(buffer: &Buffer, set: u32, binding: u32) -> bool
    ensures { result ≡ spec.is_before set binding buffer.now }
{
    buffer.set < set || (buffer.set == set && buffer.binding < binding)
}

/// The position of the buffer with a set and a binding.
pub fn find(buffers: &[Buffer], set: u32, binding: u32) -> Option<usize>
    requires { IsAscending buffers.now }
    ensures found { IfSome result (λ position. slice_get (slots buffers.now) position ≡ Some (set, binding)) }
    ensures first { (position : ℕ) → slice_get (slots buffers.now) position ≡ Some (set, binding) → result ≡ Some position }
{
    let position = buffers.partition_point(|buffer| is_before(buffer, set, binding));
    match buffers.get(position) {
        Some(buffer) if buffer.set == set && buffer.binding == binding => Some(position),
        _ => None,
    }
}
