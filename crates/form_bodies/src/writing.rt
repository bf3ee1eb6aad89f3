// Statements as bytes.

ghost use Rattle.std.specs.Prelude.{◌≡◌, ◌++◌, OnOk, map};
ghost use Rattle.form_grammar.specs.Trees.{◌▸◌, number, tagged, nested, spelling, chain, list_of};
ghost use Rattle.slang_core.specs.BodyTrees.{expr_tree, place_tree, binary_tree, bool_tree, stat_tree};

use form_exprs::{binary_byte, bool_byte, put_call, put_expr, put_place};
use form_grammar::{put_count, put_num};
use slang_core::{BinaryOp, Conversions, Expr, PlaceTerm, Stat};
use std::alloc::AllocError;

/// Appends an expression behind a tag.
#[tactic(auto, using(std::proofs::lemmas::List::append_assoc))]
fn put_value(out: &mut Vec<u8>, tag: u8, value: &Expr) -> Result<(), AllocError>
    ensures { OnOk result (out.new.items ≡ out.old.items ++ spelling (tagged tag (nested (expr_tree value.now)))) }
{
    out.push(tag)?;
    put_expr(out, value)?;
    Ok(())
}

/// Appends the first value of a local.
#[tactic(auto, using(std::proofs::lemmas::List::append_assoc))]
fn put_local(out: &mut Vec<u8>, local: u32, value: &Expr) -> Result<(), AllocError>
    ensures { OnOk result (out.new.items ≡ out.old.items ++ spelling (tagged 1 (number local ▸ nested (expr_tree value.now)))) }
{
    out.push(1)?;
    put_num(out, local)?;
    put_expr(out, value)?;
    Ok(())
}

/// Appends a place, and the value that is stored there.
#[tactic(auto, using(std::proofs::lemmas::List::append_assoc))]
fn put_stored(out: &mut Vec<u8>, place: &PlaceTerm, value: &Expr) -> Result<(), AllocError>
    ensures { OnOk result (out.new.items ≡ out.old.items ++ spelling (nested (place_tree place.now) ▸ nested (expr_tree value.now))) }
{
    put_place(out, place)?;
    put_expr(out, value)?;
    Ok(())
}

/// Appends how a change is made, behind its tag.
#[tactic(auto, using(std::proofs::lemmas::List::append_assoc))]
fn put_change(out: &mut Vec<u8>, op: BinaryOp, conversions: Conversions) -> Result<(), AllocError>
    ensures { OnOk result (out.new.items ≡ out.old.items ++ spelling (tagged 3 (binary_tree op ▸ bool_tree conversions.read ▸ bool_tree conversions.result))) }
{
    out.push(3)?;
    out.push(binary_byte(op))?;
    out.push(bool_byte(conversions.read))?;
    out.push(bool_byte(conversions.result))?;
    Ok(())
}

#[cycle(put_stat)]
fn put_stat_items(out: &mut Vec<u8>, items: &[Stat]) -> Result<(), AllocError>
    ensures { OnOk result (out.new.items ≡ out.old.items ++ spelling (chain (map (λ s. nested (stat_tree s)) items.now))) }
{
    for item in items {
        put_stat(out, item)?;
    }
    Ok(())
}

/// Appends a list of statements.
#[cycle(put_stat)]
#[tactic(auto, using(std::proofs::lemmas::List::append_assoc, form_grammar::proofs::Chains::size_chain))]
pub fn put_stats(out: &mut Vec<u8>, items: &[Stat]) -> Result<(), AllocError>
    ensures { OnOk result (out.new.items ≡ out.old.items ++ spelling (list_of (λ s. nested (stat_tree s)) items.now)) }
{
    put_count(out, items.len())?;
    put_stat_items(out, items)?;
    Ok(())
}

/// Appends a statement.
#[cycle(put_stat)]
#[tactic(auto, using(std::proofs::lemmas::List::append_assoc))]
pub fn put_stat(out: &mut Vec<u8>, stat: &Stat) -> Result<(), AllocError>
    ensures { OnOk result (out.new.items ≡ out.old.items ++ spelling (stat_tree stat.now)) }
{
    match stat {
        Stat::Block(statements) => {
            out.push(0)?;
            put_stats(out, statements.as_slice())?;
        }
        Stat::Local(local, value) => put_local(out, *local, value)?,
        Stat::Assign(place, value) => {
            out.push(2)?;
            put_stored(out, place, value)?;
        }
        Stat::Change(op, conversions, place, value) => {
            put_change(out, *op, *conversions)?;
            put_stored(out, place, value)?;
        }
        Stat::If(condition, yes, other) => {
            put_value(out, 4, condition)?;
            put_stat(out, yes.get())?;
            put_stat(out, other.get())?;
        }
        Stat::Loop(condition, step, body) => {
            put_value(out, 5, condition)?;
            put_stat(out, step.get())?;
            put_stat(out, body.get())?;
        }
        Stat::Return => out.push(6)?,
        Stat::ReturnValue(value) => put_value(out, 7, value)?,
        Stat::Break => out.push(8)?,
        Stat::Continue => out.push(9)?,
        Stat::Run(call) => {
            out.push(10)?;
            put_call(out, call)?;
        }
    }
    Ok(())
}
