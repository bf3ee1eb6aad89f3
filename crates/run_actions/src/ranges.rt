// What actions do to the words, where their ranges are inside of them.

ghost use Rattle.std.specs.Prelude.{◌≡◌, true, false, ◌+◌};
ghost use Rattle.run_actions.specs.Ranges.{has, is_apart, put_at, put_both_at, clear_at, copy_at, gather_at, one_at, Did};

use crate::actions::Move;
use flat_values::{Unary, clear_words, copy_words, operate_one_each};

/// Whether so many words stand from a place on.
#[inline]
pub fn is_inside(words: &[u32], place: u32, count: u32) -> bool
    ensures { result ≡ has words.now place count }
{
    place as usize + count as usize <= words.len()
}

/// Whether no word of a range is overwritten before it is read, where as many words are written to another place.
#[inline]
pub fn is_read_first(from: u32, to: u32, count: u32) -> bool
    ensures { result ≡ is_apart from to count }
{
    to <= from || from as usize + count as usize <= to as usize
}

/// Writes a word.
#[inline]
pub fn put(words: &mut [u32], to: u32, word: u32) -> bool
    ensures { Did (put_at words.old to word) result words.new }
{
    if (to as usize) < words.len() {
        words[to as usize] = word;
        true
    } else {
        false
    }
}

/// Writes zeros.
pub fn clear(words: &mut [u32], place: u32, count: u32) -> bool
    ensures { Did (clear_at words.old place count) result words.new }
{
    if !is_inside(words, place, count) {
        return false;
    }
    clear_words(words, place as usize, count as usize);
    true
}

/// Copies words.
#[inline]
pub fn copy(words: &mut [u32], from: u32, to: u32, count: u32) -> bool
    ensures { Did (copy_at words.old from to count) result words.new }
{
    if !is_inside(words, from, count) || !is_inside(words, to, count) {
        return false;
    }
    copy_words(words, from as usize, to as usize, count as usize);
    true
}

/// Copies the words of several ranges, one after another.
pub fn gather(words: &mut [u32], parts: &[Move]) -> bool
    ensures { Did (gather_at parts.now words.old) result words.new }
{
    for part in parts {
        if !copy(words, part.from, part.to, part.count) {
            return false;
        }
    }
    true
}

/// Operates on each of so many words.
#[inline]
pub fn one(op: Unary, words: &mut [u32], from: u32, to: u32, count: u32) -> bool
    ensures { Did (one_at op words.old from to count) result words.new }
{
    if !is_inside(words, from, count)
        || !is_inside(words, to, count)
        || !is_read_first(from, to, count)
    {
        return false;
    }
    operate_one_each(op, words, from as usize, to as usize, count as usize);
    true
}

/// Writes two words, one behind the other.
#[inline]
pub fn put_both(words: &mut [u32], to: u32, first: u32, second: u32) -> bool
    ensures { Did (put_both_at words.old to first second) result words.new }
{
    if to as usize + 1 < words.len() {
        words[to as usize] = first;
        words[to as usize + 1] = second;
        true
    } else {
        false
    }
}
