// Where the indices of an access chain lead.

ghost use Rattle.std.specs.Prelude.{◌≡◌, cond};
ghost use Rattle.run_actions.specs.Chains.{whole, extent_of, to_word, is_chosen, far, moved_on};

use crate::actions::{Extent, Index};
use crate::turns::Followed;

// How many elements an index may choose from, in a buffer of so many words.
#[inline]
fn extent(of: Extent, words: u32, stride: u32) -> u32
    ensures { result ≡ extent_of of words stride }
{
    match of {
        Extent::Fixed(n) => n,
        Extent::Whole => { if stride == 0 { 0 } else { words / stride } }
    }
}

// A place, as far as a word tells.
#[inline]
fn place_at(place: u64) -> Followed
    ensures { result ≡ to_word place }
{
    if place <= u32::MAX as u64 {
        Followed::To(place as u32)
    } else {
        Followed::To(u32::MAX)
    }
}

// How far an index leads, if it is in its range.
#[inline]
fn choose_far(words: &[u32], length: u32, index: &Index) -> Option<u64>
    ensures { result ≡ cond (is_chosen words.now length index.now) (Some (far words.now index.now)) None }
{
    if (index.slot as usize) >= words.len() {
        return None;
    }
    let chosen = words[index.slot as usize];
    let negative = index.signed && chosen >= 0x8000_0000;
    if !negative && chosen < extent(index.extent, length, index.stride) {
        Some(chosen as u64 * index.stride as u64)
    } else {
        None
    }
}

/// Where indices lead from a place on, with a fixed offset, in a buffer of so many words.
pub fn step_all(words: &[u32], length: u32, steps: &[Index], from: u32, offset: u32) -> Followed
    ensures { result ≡ moved_on words.now length steps.now from offset }
{
    let mut place = from as u64 + offset as u64;
    for index in steps {
        match choose_far(words, length, index) {
            Some(more) => place = place.saturating_add(more),
            None => return Followed::Beyond,
        }
    }
    place_at(place)
}
