// Whether a call is on a cycle.

ghost use Rattle.std.specs.Prelude.{◌≡◌, ◌↔◌, ◌≤◌, ℕ, true, IsTrue, IfOk};
ghost use Rattle.call_graph.specs.Edges.{callees, calls_it, listed, rank, Leads};

use crate::ranks::{descend, rank_of, ranks};
use crate::reach::leads;
use std::alloc::{AllocError, Global};
use std::collections::HashMap;

/// Whether the function that is called leads back to the one that calls, where the functions that each one calls are listed. It
/// does not where numbers descend over all calls, and over this one truly; only else a search is made.
pub fn leads_back(
    alloc: Global,
    map: &HashMap<u32, Vec<u32>>,
    edges: &[(u32, u32)],
    ranks: &HashMap<u32, usize>,
    caller: u32,
    callee: u32,
) -> Result<bool, AllocError>
    requires listed { (id : ℕ) → listed map.now id ≡ callees edges.now id }
    requires ranked { (from to : ℕ) → calls_it edges.now from to ≡ true → rank ranks.now to ≤ rank ranks.now from }
    ensures { IfOk result (λ back. IsTrue back ↔ Leads edges.now callee caller) }
{
    if rank_of(ranks, callee) < rank_of(ranks, caller) {
        return Ok(false);
    }
    leads(alloc, map, edges, callee, caller)
}

/// Numbers of functions that descend over all calls; none where a few turns do not find them.
pub fn descending(alloc: Global, edges: &[(u32, u32)]) -> Result<HashMap<u32, usize>, AllocError>
    ensures { IfOk result (λ ranks. (from to : ℕ) → calls_it edges.now from to ≡ true → rank ranks to ≤ rank ranks from) }
{
    let found = ranks(alloc, edges)?;
    if descend(&found, edges) {
        Ok(found)
    } else {
        Ok(HashMap::new(alloc))
    }
}
