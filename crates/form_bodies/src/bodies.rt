// Bodies of functions.

ghost use Rattle.std.specs.Prelude.{◌≡◌, ◌++◌, OnOk, map};
ghost use Rattle.form_grammar.specs.Trees.{spelling, chain, list_of};
ghost use Rattle.form_grammar.specs.Grammar as form;
ghost use Rattle.form_grammar.specs.Numbers.{after};
ghost use Rattle.form_grammar.specs.Reading.{Gives, form_at, nested_at, items_at};
ghost use Rattle.slang_core.specs.BodyTrees.{body_tree};

use crate::stats::stats_of;
use crate::writing::put_stats;
use form_decls::{list_at, put_list};
use form_grammar::{Level, ReadFault, count_at, put_count};
use slang_core::Body;
use sqlite_items::Items;
use std::alloc::AllocError;

/// A body at the front.
#[tactic(auto, unfolding(form_grammar::specs::Reading::form_at, form_grammar::specs::Numbers::after))]
pub fn body_of(level: Level, bytes: &[u8]) -> Result<(Body, &[u8]), ReadFault>
    ensures { Gives (λ x. (body_tree x.0, x.1.now)) result (form_at (nested_at level.depth) form.body bytes.now) }
{
    let (locals, rest) = list_at(level, bytes)?;
    let (statements, rest) = stats_of(level, rest)?;
    Ok((Body { locals, statements }, rest))
}

fn body_items(level: Level, count: u32, bytes: &[u8]) -> Result<(Items<Body>, &[u8]), ReadFault>
    ensures { Gives (λ x. (chain (map body_tree x.0), x.1.now)) result (items_at (form_at (nested_at level.depth) form.body) count bytes.now) }
{
    let mut items = Items::new(level.alloc);
    let mut rest = bytes;
    for _ in 0..count {
        let (item, after) = body_of(level, rest)?;
        items.push(item)?;
        rest = after;
    }
    Ok((items, rest))
}

/// A list of bodies at the front.
#[tactic(auto, unfolding(form_grammar::specs::Reading::form_at, form_grammar::specs::Numbers::after))]
pub fn bodies_of(level: Level, bytes: &[u8]) -> Result<(Items<Body>, &[u8]), ReadFault>
    ensures { Gives (λ x. (list_of body_tree x.0, x.1.now)) result (form_at (nested_at level.depth) (form.list form.body) bytes.now) }
{
    let (count, rest) = count_at(bytes)?;
    body_items(level, count, rest)
}

/// Appends a body.
#[tactic(auto, using(std::proofs::lemmas::List::append_assoc))]
pub fn put_body(out: &mut Vec<u8>, body: &Body) -> Result<(), AllocError>
    ensures { OnOk result (out.new.items ≡ out.old.items ++ spelling (body_tree body.now)) }
{
    put_list(out, body.locals.as_slice())?;
    put_stats(out, body.statements.as_slice())?;
    Ok(())
}

fn put_body_items(out: &mut Vec<u8>, items: &[Body]) -> Result<(), AllocError>
    ensures { OnOk result (out.new.items ≡ out.old.items ++ spelling (chain (map body_tree items.now))) }
{
    for item in items {
        put_body(out, item)?;
    }
    Ok(())
}

/// Appends a list of bodies.
#[tactic(auto, using(std::proofs::lemmas::List::append_assoc, form_grammar::proofs::Chains::size_chain))]
pub fn put_bodies(out: &mut Vec<u8>, items: &[Body]) -> Result<(), AllocError>
    ensures { OnOk result (out.new.items ≡ out.old.items ++ spelling (list_of body_tree items.now)) }
{
    put_count(out, items.len())?;
    put_body_items(out, items)?;
    Ok(())
}
