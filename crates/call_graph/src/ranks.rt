// Numbers of functions that show most calls to lead nowhere back.

ghost use Rattle.std.specs.Prelude.{◌≡◌, ◌≤◌, ◌<◌, ℕ, true, IsTrue, unwrap_or, nat_eq};
ghost use Rattle.std.specs.HashMap.{get};
ghost use Rattle.call_graph.specs.Edges.{calls_it, rank};

use crate::edges::callees;
use crate::reach::callees_of;
use std::alloc::{AllocError, Global};
use std::collections::HashMap;

/// The number of a function; all that have none stand above those that have one.
pub fn rank_of(ranks: &HashMap<u32, usize>, function: u32) -> usize
    ensures { result ≡ rank ranks.now function }
{
    match ranks.get(&function) {
        Some(number) => *number,
        None => usize::MAX,
    }
}

/// Whether no call is to a function of a higher number.
pub fn descend(ranks: &HashMap<u32, usize>, edges: &[(u32, u32)]) -> bool
    ensures { IsTrue result → (from to : ℕ) → calls_it edges.now from to ≡ true → rank ranks.now to ≤ rank ranks.now from }
{
    for (caller, callee) in edges {
        if rank_of(ranks, *caller) < rank_of(ranks, *callee) {
            return false;
        }
    }
    true
}

/// How many calls each function makes.
fn counts(alloc: Global, edges: &[(u32, u32)]) -> Result<HashMap<u32, usize>, AllocError> {
    let mut counts = HashMap::new(alloc);
    for (caller, _) in edges {
        let count = counts.get(caller).copied().unwrap_or(0usize);
        counts.insert(*caller, count.saturating_add(1))?;
    }
    Ok(counts)
}

/// The functions that are called and call none, each at least once.
fn leaves(
    alloc: Global,
    edges: &[(u32, u32)],
    counts: &HashMap<u32, usize>,
) -> Result<Vec<u32>, AllocError> {
    let mut leaves = Vec::new(alloc);
    for (_, callee) in edges {
        if !counts.contains_key(callee) {
            leaves.push(*callee)?;
        }
    }
    Ok(leaves)
}

/// Takes one call away from each of these functions, and puts those that have none left onto a stack.
fn settle(
    callers: &[u32],
    counts: &mut HashMap<u32, usize>,
    stack: &mut Vec<u32>,
) -> Result<(), AllocError> {
    for caller in callers {
        let count = counts.get(caller).copied().unwrap_or(0);
        counts.insert(*caller, count.saturating_sub(1))?;
        if count == 1 {
            stack.push(*caller)?;
        }
    }
    Ok(())
}

/// Numbers of functions, by which most calls are to a function of a lower one: those that call none come first, and then
/// each one whose calls are all to functions that came before. What lies on a cycle, or leads to one, gets none.
pub fn ranks(alloc: Global, edges: &[(u32, u32)]) -> Result<HashMap<u32, usize>, AllocError> {
    let callers = callees(alloc, turned(alloc, edges)?.as_slice())?;
    let mut counts = counts(alloc, edges)?;
    let mut stack = leaves(alloc, edges, &counts)?;
    let mut ranks = HashMap::new(alloc);
    for number in 0..edges.len().saturating_mul(2) {
        let Some(function) = stack.pop() else {
            break;
        };
        if !ranks.contains_key(&function) {
            ranks.insert(function, number)?;
            settle(callees_of(&callers, function), &mut counts, &mut stack)?;
        }
    }
    Ok(ranks)
}

/// The calls, the other way round.
fn turned(alloc: Global, edges: &[(u32, u32)]) -> Result<Vec<(u32, u32)>, AllocError> {
    let mut turned = Vec::new(alloc);
    for (caller, callee) in edges {
        turned.push((*callee, *caller))?;
    }
    Ok(turned)
}
