// The functions that each function calls, listed by a map.

ghost use Rattle.std.specs.Prelude.{◌≡◌, ◌++◌, ◌∷◌, [], ℕ, IfOk, OnOk, cond, nat_eq};
ghost use Rattle.call_graph.specs.Edges.{callees, listed};

use std::alloc::{AllocError, Global};
use std::collections::HashMap;

/// The functions that each function calls.
pub fn callees(alloc: Global, edges: &[(u32, u32)]) -> Result<HashMap<u32, Vec<u32>>, AllocError>
    ensures { IfOk result (λ map. (id : ℕ) → listed map id ≡ callees edges.now id) }
{
    let mut map = HashMap::new(alloc);
    for (caller, callee) in edges {
        add_callee(alloc, &mut map, *caller, *callee)?;
    }
    Ok(map)
}

fn add_callee(
    alloc: Global,
    map: &mut HashMap<u32, Vec<u32>>,
    caller: u32,
    callee: u32,
) -> Result<(), AllocError>
    ensures { OnOk result ((id : ℕ) → listed map.new id ≡ cond (nat_eq caller id) (listed map.old id ++ callee ∷ []) (listed map.old id)) }
{
    match map.get_mut(&caller) {
        Some(list) => list.push(callee)?,
        None => {
            let list = vec![in alloc; callee]?;
            map.insert(caller, list)?;
        }
    }
    Ok(())
}
