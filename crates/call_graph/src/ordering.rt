// An order of functions in which each one stands behind those that call it, if no call leads back.

ghost use Rattle.std.specs.Prelude.{◌≡◌, ◌++◌, ◌∷◌, ◌+◌, ◌≤◌, [], ℕ, List, true, IfOk, OnOk, cond, nat_eq};
ghost use Rattle.std.specs.HashSet.{contains};
ghost use Rattle.call_graph.specs.Edges.{listed};
ghost use Rattle.call_graph.specs.Order.{IsOrderIf, IsSearched, IsTurned, called, callers, entering, grown, turned, turns};
ghost use Rattle.call_graph.specs.declared.ordering.Visit.TheVariants.{Leave};

use crate::edges::callees;
use crate::reach::callees_of;
use std::alloc::{AllocError, Global};
use std::collections::{HashMap, HashSet};

/// A function is come to, or it is left when all that call it are in the order.
#[derive(Clone, Copy)]
pub enum Visit {
    Enter(u32),
    Leave(u32),
}

/// The functions that were come to, those that are done, in their order, and what is still to be visited, the next at the end.
#[derive(Drop)]
pub struct Search {
    pub seen: HashSet<u32>,
    pub done: HashSet<u32>,
    pub order: Vec<u32>,
    pub stack: Vec<Visit>,
}

/// The calls, the other way round.
fn turned(alloc: Global, edges: &[(u32, u32)]) -> Result<Vec<(u32, u32)>, AllocError>
    ensures { IfOk result (λ list. list.items ≡ turned edges.now) }
{
    let mut turned = Vec::new(alloc);
    for (caller, callee) in edges {
        turned.push((*callee, *caller))?;
    }
    Ok(turned)
}

/// The functions that call each one.
pub fn callers(alloc: Global, edges: &[(u32, u32)]) -> Result<HashMap<u32, Vec<u32>>, AllocError>
    ensures { IfOk result (λ map. (id : ℕ) → listed map id ≡ callers edges.now id) }
{
    let turned = turned(alloc, edges)?;
    callees(alloc, turned.as_slice())
}

/// Functions are still to be come to.
fn wait(functions: &[u32], stack: &mut Vec<Visit>) -> Result<(), AllocError>
    ensures { OnOk result (stack.new.items ≡ stack.old.items ++ entering functions.now) }
{
    for function in functions {
        stack.push(Visit::Enter(*function))?;
    }
    Ok(())
}

/// The functions that are called.
fn called(alloc: Global, edges: &[(u32, u32)]) -> Result<Vec<u32>, AllocError>
    ensures { IfOk result (λ list. list.items ≡ called edges.now) }
{
    let mut called = Vec::new(alloc);
    for (_, callee) in edges {
        called.push(*callee)?;
    }
    Ok(called)
}

/// All functions that are called are still to be come to.
fn begun(alloc: Global, edges: &[(u32, u32)]) -> Result<Search, AllocError>
    ensures { IfOk result (λ s. IsSearched edges.now (contains nat_eq s.seen) (contains nat_eq s.done) s.order.items s.stack.items) }
{
    let called = called(alloc, edges)?;
    let mut stack = Vec::new(alloc);
    wait(called.as_slice(), &mut stack)?;
    Ok(Search {
        seen: HashSet::new(alloc),
        done: HashSet::new(alloc),
        order: Vec::new(alloc),
        stack,
    })
}

/// A function whose callers are all done is done, and stands next in the order, if it was not yet.
fn leave(search: &mut Search, function: u32) -> Result<(), AllocError>
    ensures seen { OnOk result (search.new.seen ≡ search.old.seen) }
    ensures stack { OnOk result (search.new.stack.items ≡ search.old.stack.items) }
    ensures done { OnOk result ((q : ℕ) → contains nat_eq search.new.done q ≡ cond (nat_eq function q) true (contains nat_eq search.old.done q)) }
    ensures order { OnOk result (search.new.order.items ≡ grown (contains nat_eq search.old.done) function search.old.order.items) }
{
    if search.done.insert(function)? {
        search.order.push(function)?;
    }
    Ok(())
}

/// A function is come to for the first time: it is left behind all that call it.
fn enter(search: &mut Search, function: u32, callers: &[u32]) -> Result<(), AllocError>
    ensures seen { OnOk result (search.new.seen ≡ search.old.seen) }
    ensures done { OnOk result (search.new.done ≡ search.old.done) }
    ensures order { OnOk result (search.new.order ≡ search.old.order) }
    ensures stack { OnOk result (search.new.stack.items ≡ search.old.stack.items ++ Leave function ∷ entering callers.now) }
{
    search.stack.push(Visit::Leave(function))?;
    wait(callers, &mut search.stack)
}

/// One turn: what was visited last, taken off the stack, is left or come to. It tells false where a function was come to that is
/// neither new nor done, so that it calls itself.
fn turn(map: &HashMap<u32, Vec<u32>>, search: &mut Search, visit: Visit) -> Result<bool, AllocError>
    ensures turned { (es : List (ℕ × ℕ)) → ((id : ℕ) → listed map.now id ≡ callers es id)
        → IsSearched es (contains nat_eq search.old.seen) (contains nat_eq search.old.done) search.old.order.items (search.old.stack.items ++ visit ∷ [])
        → IfOk result (λ fine. IsTurned fine es (contains nat_eq search.new.seen) (contains nat_eq search.new.done) search.new.order.items search.new.stack.items) }
    ensures fewer { (es : List (ℕ × ℕ)) → ((id : ℕ) → listed map.now id ≡ callers es id)
        → IfOk result (λ fine. turns es (contains nat_eq search.new.seen) search.new.stack.items + 1
        ≤ turns es (contains nat_eq search.old.seen) (search.old.stack.items ++ visit ∷ [])) }
{
    match visit {
        Visit::Leave(function) => {
            leave(search, function)?;
            Ok(true)
        }
        Visit::Enter(function) => {
            if search.seen.insert(function)? {
                enter(search, function, callees_of(map, function))?;
                return Ok(true);
            }
            Ok(search.done.contains(&function))
        }
    }
}

/// An order of functions in which each one that is called stands behind all that call it, if no call leads back to the function
/// that makes it.
pub fn order(alloc: Global, edges: &[(u32, u32)]) -> Result<Option<Vec<u32>>, AllocError>
    ensures { IfOk result (IsOrderIf edges.now) }
{
    let map = callers(alloc, edges)?;
    let mut search = begun(alloc, edges)?;
    while let Some(visit) = search.stack.pop() {
        if !turn(&map, &mut search, visit)? {
            return Ok(None);
        }
    }
    Ok(Some(search.order))
}
