// Ranges of words, copied, cleared and operated on in place.

ghost use Rattle.std.specs.Prelude.{◌≡◌, ◌+◌, ◌<◌, ◌≤◌, true, false, length, map, MatchOption};
ghost use Rattle.flat_values.specs.Ranges.{range_at, written, copied, cleared};
ghost use Rattle.flat_values.specs.Operators.{unary_of, binary_of};
ghost use Rattle.flat_values.specs.Lanes.{both_of};

use crate::operators::{Binary, Unary, operate_one, operate_two};

/// Copies so many words from one place to another; the ranges may overlap.
#[inline]
pub fn copy_words(words: &mut [u32], from: usize, to: usize, count: usize)
    requires from_inside { from + count ≤ length words.old }
    requires to_inside { to + count ≤ length words.old }
    ensures { words.new ≡ copied words.old from to count }
{
    if count == 1 {
        words[to] = words[from];
    } else if to <= from {
        copy_from_first(words, from, to, count);
    } else {
        copy_from_last(words, from, to, count);
    }
}

// From the first word on, where none is overwritten before it is read.
fn copy_from_first(words: &mut [u32], from: usize, to: usize, count: usize)
    requires from_inside { from + count ≤ length words.old }
    requires to_inside { to + count ≤ length words.old }
    requires down { to ≤ from }
    ensures { words.new ≡ copied words.old from to count }
{
    for k in 0..count {
        words[to + k] = words[from + k];
    }
}

fn copy_from_last(words: &mut [u32], from: usize, to: usize, count: usize)
    requires from_inside { from + count ≤ length words.old }
    requires to_inside { to + count ≤ length words.old }
    requires up { from ≤ to }
    ensures { words.new ≡ copied words.old from to count }
{
    let mut k = count;
    while 0 < k {
        k -= 1;
        words[to + k] = words[from + k];
    }
}

/// Writes so many zeros from a place on.
pub fn clear_words(words: &mut [u32], place: usize, count: usize)
    requires { place + count ≤ length words.old }
    ensures { words.new ≡ cleared words.old place count }
{
    words[place..place + count].fill(0);
}

/// Writes what the operator makes of each of so many words. No word is overwritten before it is read.
#[inline]
pub fn operate_one_each(op: Unary, words: &mut [u32], from: usize, to: usize, count: usize)
    requires from_inside { from + count ≤ length words.old }
    requires to_inside { to + count ≤ length words.old }
    requires apart { from < to → from + count ≤ to }
    ensures { words.new ≡ written words.old to (map (unary_of op) (range_at words.old from count)) }
{
    if count == 1 {
        words[to] = operate_one(op, words[from]);
    } else {
        operate_one_all(op, words, from, to, count);
    }
}

fn operate_one_all(op: Unary, words: &mut [u32], from: usize, to: usize, count: usize)
    requires from_inside { from + count ≤ length words.old }
    requires to_inside { to + count ≤ length words.old }
    requires apart { from < to → from + count ≤ to }
    ensures { words.new ≡ written words.old to (map (unary_of op) (range_at words.old from count)) }
{
    for k in 0..count {
        words[to + k] = operate_one(op, words[from + k]);
    }
}

/// Writes what the operator makes of the words of two ranges, one by one, and says whether that is defined for all. No
/// word is overwritten before it is read.
#[inline]
pub fn operate_two_each(
    op: Binary,
    words: &mut [u32],
    left: usize,
    right: usize,
    to: usize,
    count: usize,
) -> bool
    requires left_inside { left + count ≤ length words.old }
    requires right_inside { right + count ≤ length words.old }
    requires to_inside { to + count ≤ length words.old }
    requires left_apart { left < to → left + count ≤ to }
    requires right_apart { right < to → right + count ≤ to }
    ensures { MatchOption (both_of (binary_of op) (range_at words.old left count) (range_at words.old right count)) (result ≡ false)
        (λ xs. (result ≡ true) × (words.new ≡ written words.old to xs)) }
{
    if count == 1 {
        operate_two_single(op, words, left, right, to)
    } else {
        operate_two_all(op, words, left, right, to, count)
    }
}

#[inline]
fn operate_two_single(op: Binary, words: &mut [u32], left: usize, right: usize, to: usize) -> bool
    requires left_inside { left < length words.old }
    requires right_inside { right < length words.old }
    requires to_inside { to < length words.old }
    ensures { MatchOption (both_of (binary_of op) (range_at words.old left 1) (range_at words.old right 1)) (result ≡ false)
        (λ xs. (result ≡ true) × (words.new ≡ written words.old to xs)) }
{
    match operate_two(op, words[left], words[right]) {
        Some(x) => {
            words[to] = x;
            true
        }
        None => false,
    }
}

fn operate_two_all(
    op: Binary,
    words: &mut [u32],
    left: usize,
    right: usize,
    to: usize,
    count: usize,
) -> bool
    requires left_inside { left + count ≤ length words.old }
    requires right_inside { right + count ≤ length words.old }
    requires to_inside { to + count ≤ length words.old }
    requires left_apart { left < to → left + count ≤ to }
    requires right_apart { right < to → right + count ≤ to }
    ensures { MatchOption (both_of (binary_of op) (range_at words.old left count) (range_at words.old right count)) (result ≡ false)
        (λ xs. (result ≡ true) × (words.new ≡ written words.old to xs)) }
{
    for k in 0..count {
        match operate_two(op, words[left + k], words[right + k]) {
            Some(x) => words[to + k] = x,
            None => return false,
        }
    }
    true
}
