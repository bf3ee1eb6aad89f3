// Where the words of functions begin.

ghost use Rattle.std.specs.Prelude.{◌≡◌, ◌+◌, ◌^◌, ◌<◌, ℕ, List, [], ◌∷◌, ◌++◌, true, nat_eq, length, slice_index, IfOk, OnOk, IfErr};
ghost use Rattle.std.specs.List.{list_any};
ghost use Rattle.call_graph.specs.Order.{IsOrder};
ghost use Rattle.call_layout.specs.declared.faults.Fault.TheVariants.{TooLarge};
ghost use Rattle.call_layout.specs.Chains.{AreNumbered, AreBegins, TooLong};
ghost use Rattle.call_layout.specs.Moves.{AreBegun, IsLatest, IsNext};

use crate::faults::Fault;
use call_graph::{callees_of, callers};
use std::alloc::Global;

/// All functions begin behind what is outside of functions, if 32 bits tell where each one then ends.
fn started(alloc: Global, words: &[u32]) -> Result<Vec<u32>, Fault>
    requires { 0 < length words.now }
    ensures begun { IfOk result (λ begins. (es : List (ℕ × ℕ)) → AreBegun words.now es [] begins.items) }
    ensures too_large { IfErr result (λ fault. fault ≡ TooLarge → (es : List (ℕ × ℕ)) → TooLong words.now es) }
{
    let mut begins = vec![in alloc; 0]?;
    for function in 1..words.len() {
        match words[0].checked_add(words[function]) {
            Some(_) => begins.push(words[0])?,
            None => return Err(Fault::TooLarge),
        }
    }
    Ok(begins)
}

/// The greatest of a place and of the ends of these functions.
fn latest(begins: &[u32], words: &[u32], callers: &[u32], place: u32) -> u32
    requires as_many { length begins.now ≡ length words.now }
    requires known { (caller : ℕ) → list_any (nat_eq caller) callers.now ≡ true → caller < length words.now }
    requires within { (f : ℕ) → f < length words.now → slice_index begins.now f + slice_index words.now f < 2 ^ 32 }
    ensures { IsLatest words.now begins.now callers.now place result }
{
    let mut latest = place;
    for caller in callers {
        let at = *caller as usize;
        latest = latest.max(begins[at] + words[at]);
    }
    latest
}

/// A function begins behind all that call it, where these have their places.
fn move_behind(
    begins: &mut Vec<u32>,
    words: &[u32],
    callers: &[u32],
    function: u32,
) -> Result<(), Fault>
    requires as_many { length begins.old.items ≡ length words.now }
    requires known { (caller : ℕ) → list_any (nat_eq caller) callers.now ≡ true → caller < length words.now }
    requires within { (f : ℕ) → f < length words.now → slice_index begins.old.items f + slice_index words.now f < 2 ^ 32 }
    ensures moved { (es : List (ℕ × ℕ)) (done : List ℕ) → IsNext words.now es done callers.now function
        → AreBegun words.now es done begins.old.items → OnOk result (AreBegun words.now es (done ++ function ∷ []) begins.new.items) }
    ensures too_large { (es : List (ℕ × ℕ)) (done : List ℕ) → IsNext words.now es done callers.now function
        → AreBegun words.now es done begins.old.items → IfErr result (λ fault. fault ≡ TooLarge → TooLong words.now es) }
{
    let at = function as usize;
    if begins.len() <= at {
        return Ok(());
    }
    let begin = latest(begins.as_slice(), words, callers, begins[at]);
    match begin.checked_add(words[at]) {
        Some(_) => {
            begins[at] = begin;
            Ok(())
        }
        None => Err(Fault::TooLarge),
    }
}

/// Where each function begins, by its number, so that it stands behind all that call it, and no further than it must. The words
/// of each are given, those that are outside of functions first; and an order of functions in which each one that is called
/// stands behind all that call it. It errs where the words of a chain of calls are more than 32 bits tell.
pub fn begins(
    alloc: Global,
    words: &[u32],
    edges: &[(u32, u32)],
    order: &[u32],
) -> Result<Vec<u32>, Fault>
    requires some { 0 < length words.now }
    requires known { AreNumbered words.now edges.now }
    requires order { IsOrder edges.now order.now }
    ensures begins { IfOk result (λ begins. AreBegins words.now edges.now begins.items) }
    ensures too_large { IfErr result (λ fault. fault ≡ TooLarge → TooLong words.now edges.now) }
{
    let map = callers(alloc, edges)?;
    let mut begins = started(alloc, words)?;
    for function in order {
        move_behind(&mut begins, words, callees_of(&map, *function), *function)?;
    }
    Ok(begins)
}
