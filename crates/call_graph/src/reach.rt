// Which functions one leads to by calls.

ghost use Rattle.std.specs.Prelude.{◌≡◌, ◌↔◌, ◌+◌, ◌≤◌, ◌||◌, ◌&&◌, ℕ, List, IsTrue, IfOk, OnOk, not, true, nat_eq, vec_len};
ghost use Rattle.std.specs.List.{list_any};
ghost use Rattle.std.specs.HashSet.{contains};
ghost use Rattle.call_graph.specs.Edges.{callees, listed, calls_it, Leads};
ghost use Rattle.call_graph.specs.Unseen.{unseen};

use std::alloc::{AllocError, Global};
use std::collections::{HashMap, HashSet};

/// The functions that a map lists for one.
pub fn callees_of(map: &HashMap<u32, Vec<u32>>, id: u32) -> &[u32]
    ensures { result.now ≡ listed map.now id }
{
    match map.get(&id) {
        Some(list) => list.as_slice(),
        None => &[],
    }
}

/// Adds functions to those that were seen, and those that are new to a stack.
fn visit(functions: &[u32], seen: &mut HashSet<u32>, stack: &mut Vec<u32>) -> Result<(), AllocError>
    ensures seen { OnOk result ((q : ℕ) → contains nat_eq seen.new q ≡ (list_any (nat_eq q) functions.now || contains nat_eq seen.old q)) }
    ensures stack { OnOk result ((q : ℕ) → list_any (nat_eq q) stack.new.items
        ≡ (list_any (nat_eq q) stack.old.items || (list_any (nat_eq q) functions.now && not (contains nat_eq seen.old q)))) }
    ensures fewer { OnOk result ((es : List (ℕ × ℕ)) (x : ℕ) → ((q : ℕ) → list_any (nat_eq q) functions.now ≡ true → calls_it es x q ≡ true)
        → unseen es (contains nat_eq seen.new) + vec_len stack.new ≤ unseen es (contains nat_eq seen.old) + vec_len stack.old) }
{
    for function in functions {
        if seen.insert(*function)? {
            stack.push(*function)?;
        }
    }
    Ok(())
}

/// Whether one function leads to another, where the functions that each one calls are listed.
pub fn leads(
    alloc: Global,
    map: &HashMap<u32, Vec<u32>>,
    edges: &[(u32, u32)],
    from: u32,
    to: u32,
) -> Result<bool, AllocError>
    requires { (id : ℕ) → listed map.now id ≡ callees edges.now id }
    ensures { IfOk result (λ found. IsTrue found ↔ Leads edges.now from to) }
{
    let mut seen = HashSet::new(alloc);
    let mut stack = Vec::new(alloc);
    seen.insert(from)?;
    stack.push(from)?;
    while let Some(function) = stack.pop() {
        visit(callees_of(map, function), &mut seen, &mut stack)?;
    }
    Ok(seen.contains(&to))
}
