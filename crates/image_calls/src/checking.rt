// The first call that is wrong.

ghost use Rattle.std.specs.Prelude.{◌≡◌, ◌↔◌, ◌<◌, ◌≤◌, ◌^◌, ◌⊎◌, ℕ, None, true, IsTrue, IfOk, length};
ghost use Rattle.spirv_words.specs.Words.{image_words};
ghost use Rattle.spirv_words.specs.Runs.{entry_of};
ghost use Rattle.image_places.specs.Places.{IsFirst};
ghost use Rattle.call_graph.specs.Edges.{callees, calls_it, listed, rank};
ghost use Rattle.image_calls.specs.Edges.{calls};
ghost use Rattle.image_calls.specs.Calls.{LeadsBack, IsWrongCall, HasWrongCall, IsFirstBad, BadCall, inside_at};

use crate::arguments::is_bad;
use crate::edges::{calls, edge_of, open_after};
use call_graph::{callees, descending};
use image_lookup::{Definitions, entry_of, word_of};
use image_places::places_grow;
use spirv_words::{Image, Instruction};
use std::alloc::{AllocError, Global};
use std::collections::HashMap;

/// Whether what is called leads back to the function that calls, if an instruction is a call.
fn leads_back(
    alloc: Global,
    map: &HashMap<u32, Vec<u32>>,
    edges: &[(u32, u32)],
    ranks: &HashMap<u32, usize>,
    edge: Option<(u32, u32)>,
) -> Result<bool, AllocError>
    requires listed { (id : ℕ) → listed map.now id ≡ callees edges.now id }
    requires ranked { (from to : ℕ) → calls_it edges.now from to ≡ true → rank ranks.now to ≤ rank ranks.now from }
    ensures { IfOk result (λ back. IsTrue back ↔ LeadsBack edges.now edge) }
{
    match edge {
        Some((caller, callee)) => {
            call_graph::leads_back(alloc, map, edges, ranks, caller, callee)
        }
        None => Ok(false),
    }
}

/// The number of the first instruction that is a wrong call, counted from 0.
fn first_wrong(
    alloc: Global,
    definitions: &Definitions,
    code: &[Instruction],
) -> Result<Option<usize>, AllocError>
    requires { definitions.now ≡ code.now }
    ensures { IfOk result (IsFirstBad (HasWrongCall code.now) (length code.now)) }
{
    let entry = entry_of(code);
    let edges = calls(alloc, code)?;
    let map = callees(alloc, edges.as_slice())?;
    let ranks = descending(alloc, edges.as_slice())?;
    let mut inside = None;
    for (number, instruction) in code.iter().enumerate() {
        let edge = edge_of(instruction, inside);
        if is_bad(definitions, entry, instruction)
            || leads_back(alloc, &map, edges.as_slice(), &ranks, edge)?
        {
            return Ok(Some(number));
        }
        inside = open_after(instruction, inside);
    }
    Ok(None)
}

/// The word at which the first instruction begins that is a wrong call, if there is one: a call with other arguments than
/// its function has parameters, a call of the entry, or one whose function leads back to the function that calls.
pub fn first_call_fault(alloc: Global, image: &Image) -> Result<Option<usize>, AllocError>
    requires { length (image_words image.now) < 2 ^ 64 }
    ensures { IfOk result (IsFirst (BadCall image.now.instructions)) }
{
    places_grow();
    let code = image.instructions.as_slice();
    let definitions = Definitions::new(alloc, code)?;
    match first_wrong(alloc, &definitions, code)? {
        Some(number) => Ok(Some(word_of(code, number))),
        None => Ok(None),
    }
}
