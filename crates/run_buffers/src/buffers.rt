// The buffers of a run, which contracts see as a list by set and binding.

ghost use Rattle.std.specs.Prelude.{◌≡◌, ◌↔◌, ℕ, List, [], length, take, slice_get, IsTrue, IfOk, Ok, Err, Some, IsSome, IfSome, MatchOption};
ghost use Rattle.slang_names.specs.declared.faults.RunCause.TheVariants.{BufferText};
ghost use Rattle.run_buffers.specs.declared.buffer.Buffer.{Buffer};
ghost use Rattle.run_buffers.specs.declared.faults.RunFault.TheVariants.{Refused};
ghost use Rattle.run_buffers.specs.Texts.{text_of, Fits, IsTextOf, RefusedAt};
ghost use Rattle.run_buffers.specs.Memory.{slots, words_at, words_of, word_at, with_word};
ghost use Rattle.run_buffers.specs.Refusals.{IfTextRefused, UnlessMemory};

use crate::access;
use crate::buffer::Buffer;
use crate::faults::RunFault;
use crate::lines::Stop;
use crate::reading::text;
use crate::writing::write_text;
use slang_names::RunCause;
use slang_names::limits::BUFFERS_BYTES;
use std::alloc::{AllocError, Global};
use std::marker::Model;

/// The buffers of a run, ascending by set and binding, with at most 1,048,576 words in all.
#[derive(Drop)]
pub struct Buffers {
    buffers: Vec<Buffer>,
}

impl Model for Buffers {
    ghost use Rattle.std.specs.Prelude.{List};
    ghost use Rattle.run_buffers.specs.declared.buffer.Buffer.{Buffer};
    ghost use Rattle.run_buffers.specs.Texts.{Fits};

    ghost Value = { List Buffer };

    ghost view = { λ b. b.buffers.items };

    ghost invariant = { λ b. Fits b.buffers.items };
}

impl Buffers {
    /// The buffers of a text. It has a line for each buffer, ascending by set and binding: the set, the binding, how many
    /// words the buffer has, and the words, all in decimal without leading zeros, one space between two numbers, and a
    /// line feed at the end. A text has at most 1,048,576 words in all and at most 16,777,216 bytes. Other bytes are
    /// refused at the first byte with which no text goes on, or at their end where some text does.
    pub fn read(alloc: Global, bytes: &[u8]) -> Result<Buffers, RunFault>
        ensures text { IfOk result (λ bs. IsTextOf bytes.now bs) }
        ensures refused { IfTextRefused result (λ place. RefusedAt bytes.now place) }
        ensures if_text { (bs : List Buffer) → IsTextOf bytes.now bs → UnlessMemory result (result ≡ Ok bs) }
        ensures if_refused { (place : ℕ) → RefusedAt bytes.now place → UnlessMemory result (result ≡ Err (Refused (BufferText place))) }
    {
        read_within(alloc, bytes)
    }

    /// The one text of the buffers, as `read` takes it.
    pub fn write(&self, alloc: Global) -> Result<Vec<u8>, AllocError>
        ensures { IfOk result (λ text. text.items ≡ text_of self.now) }
    {
        write_text(alloc, &self.buffers)
    }

    /// The buffers, ascending by set and binding.
    pub fn as_slice(&self) -> &[Buffer]
        ensures buffers { result.now ≡ self.now }
        ensures fits { Fits self.now }
    {
        &self.buffers
    }

    /// How many buffers there are.
    #[inline]
    pub fn len(&self) -> usize
        ensures { result ≡ length self.now }
    {
        self.buffers.len()
    }

    #[inline]
    pub fn is_empty(&self) -> bool
        ensures { IsTrue result ↔ (self.now ≡ []) }
    {
        self.buffers.is_empty()
    }

    /// The position of the buffer with a set and a binding, if there is one. It takes a number of steps that grows with
    /// the logarithm of the number of buffers, and no memory.
    pub fn find(&self, set: u32, binding: u32) -> Option<usize>
        ensures found { IfSome result (λ position. slice_get (slots self.now) position ≡ Some (set, binding)) }
        ensures only { (position : ℕ) → slice_get (slots self.now) position ≡ Some (set, binding) → result ≡ Some position }
        ensures words { MatchOption result (words_of self.now set binding ≡ []) (λ position. words_of self.now set binding ≡ words_at self.now position) }
    {
        access::find(&self.buffers, set, binding)
    }

    /// How many words the buffer at a position has: 0 where there is no buffer.
    #[inline]
    pub fn count(&self, position: usize) -> usize
        ensures { result ≡ length (words_at self.now position) }
    {
        access::count_at(&self.buffers, position)
    }

    /// The word at an index of the buffer at a position, if there is one.
    #[inline]
    pub fn get(&self, position: usize, index: usize) -> Option<u32>
        ensures { result ≡ word_at self.now position index }
    {
        access::word_at(&self.buffers, position, index)
    }

    /// Puts a word at an index of the buffer at a position, and tells whether there is a word there; where there is none,
    /// nothing changes. Sets, bindings and numbers of words stay.
    #[inline]
    pub fn set(&mut self, position: usize, index: usize, word: u32) -> bool
        ensures set { self.new ≡ with_word self.old position index word }
        ensures is_there { IsTrue result ↔ IsSome (word_at self.old position index) }
        ensures slots { slots self.new ≡ slots self.old }
        ensures counts { (p : ℕ) → length (words_at self.new p) ≡ length (words_at self.old p) }
    {
        access::set_word(&mut self.buffers, position, index, word)
    }
}

/// The first bytes, as many as a text may have.
fn within_limit(bytes: &[u8]) -> &[u8]
    ensures { result.now ≡ take 16777216 bytes.now }
{
    if bytes.len() > BUFFERS_BYTES {
        &bytes[..BUFFERS_BYTES]
    } else {
        bytes
    }
}

fn refused(place: usize) -> RunFault
    ensures { result ≡ Refused (BufferText place) }
{
    RunFault::Refused(RunCause::BufferText {
        place: place as u64,
    })
}

fn read_within(alloc: Global, bytes: &[u8]) -> Result<Buffers, RunFault>
    ensures text { IfOk result (λ bs. IsTextOf bytes.now bs) }
    ensures refused { IfTextRefused result (λ place. RefusedAt bytes.now place) }
{
    let front = within_limit(bytes);
    match text(alloc, front) {
        Err(Stop::Memory(fault)) => Err(RunFault::Memory(fault)),
        Err(Stop::At(left)) => Err(refused(front.len() - left)),
        Ok(buffers) => {
            if front.len() < bytes.len() {
                Err(refused(front.len()))
            } else {
                Ok(Buffers { buffers })
            }
        }
    }
}
