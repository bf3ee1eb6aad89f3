// Expressions, places and calls as bytes.

ghost use Rattle.std.specs.Prelude.{◌≡◌, ◌++◌, ◌∷◌, OnOk, map};
ghost use Rattle.form_grammar.specs.Trees.{◌▸◌, number, tagged, nested, spelling, chain, list_of};
ghost use Rattle.slang_core.specs.DeclarationTrees.{term_tree};
ghost use Rattle.slang_core.specs.BodyTrees.{expr_tree, place_tree, call_tree, given_tree};

use crate::marks::{binary_byte, put_bytes, unary_byte};
use form_grammar::{put_count, put_num};
use form_types::{put_args, put_evidence, put_evidences, put_name, put_ref, put_term, put_value};
use slang_core::{Call, Expr, Given, PlaceTerm, TypeTerm};
use std::alloc::AllocError;

/// Appends a number behind a tag.
#[tactic(auto, using(std::proofs::lemmas::List::append_assoc))]
fn put_number(out: &mut Vec<u8>, tag: u8, bits: u32) -> Result<(), AllocError>
    ensures { OnOk result (out.new.items ≡ out.old.items ++ spelling (tagged tag (number bits))) }
{
    out.push(tag)?;
    put_num(out, bits)?;
    Ok(())
}

/// Appends a type behind a tag.
#[tactic(auto, using(std::proofs::lemmas::List::append_assoc))]
fn put_typed(out: &mut Vec<u8>, tag: u8, of: &TypeTerm) -> Result<(), AllocError>
    ensures { OnOk result (out.new.items ≡ out.old.items ++ spelling (tagged tag (term_tree of.now))) }
{
    out.push(tag)?;
    put_term(out, of)?;
    Ok(())
}

#[cycle(put_expr)]
fn put_expr_items(out: &mut Vec<u8>, items: &[Expr]) -> Result<(), AllocError>
    ensures { OnOk result (out.new.items ≡ out.old.items ++ spelling (chain (map (λ x. nested (expr_tree x)) items.now))) }
{
    for item in items {
        put_expr(out, item)?;
    }
    Ok(())
}

/// Appends a list of expressions.
#[cycle(put_expr)]
#[tactic(auto, using(std::proofs::lemmas::List::append_assoc, form_grammar::proofs::Chains::size_chain))]
fn put_exprs(out: &mut Vec<u8>, items: &[Expr]) -> Result<(), AllocError>
    ensures { OnOk result (out.new.items ≡ out.old.items ++ spelling (list_of (λ x. nested (expr_tree x)) items.now)) }
{
    put_count(out, items.len())?;
    put_expr_items(out, items)?;
    Ok(())
}

#[cycle(put_expr)]
fn put_given_items(out: &mut Vec<u8>, items: &[Given]) -> Result<(), AllocError>
    ensures { OnOk result (out.new.items ≡ out.old.items ++ spelling (chain (map given_tree items.now))) }
{
    for item in items {
        put_given(out, item)?;
    }
    Ok(())
}

#[cycle(put_expr)]
#[tactic(auto, using(std::proofs::lemmas::List::append_assoc, form_grammar::proofs::Chains::size_chain))]
fn put_givens(out: &mut Vec<u8>, items: &[Given]) -> Result<(), AllocError>
    ensures { OnOk result (out.new.items ≡ out.old.items ++ spelling (list_of given_tree items.now)) }
{
    put_count(out, items.len())?;
    put_given_items(out, items)?;
    Ok(())
}

/// Appends what a parameter is given.
#[cycle(put_expr)]
#[tactic(auto, using(std::proofs::lemmas::List::append_assoc))]
fn put_given(out: &mut Vec<u8>, given: &Given) -> Result<(), AllocError>
    ensures { OnOk result (out.new.items ≡ out.old.items ++ spelling (given_tree given.now)) }
{
    match given {
        Given::Expr(expr) => {
            out.push(0)?;
            put_expr(out, expr)?;
        }
        Given::Place(place) => {
            out.push(1)?;
            put_place(out, place)?;
        }
    }
    Ok(())
}

/// Appends a call.
#[cycle(put_expr)]
#[tactic(auto, using(std::proofs::lemmas::List::append_assoc))]
pub fn put_call(out: &mut Vec<u8>, call: &Call) -> Result<(), AllocError>
    ensures { OnOk result (out.new.items ≡ out.old.items ++ spelling (call_tree call.now)) }
{
    match call {
        Call::Direct(function, args, bounds, given) => {
            out.push(0)?;
            put_ref(out, function)?;
            put_args(out, args.as_slice())?;
            put_evidences(out, bounds.as_slice())?;
            put_givens(out, given.as_slice())?;
        }
        Call::Required(evidence, interface, name, given) => {
            out.push(1)?;
            put_evidence(out, evidence)?;
            put_ref(out, interface)?;
            put_name(out, name)?;
            put_givens(out, given.as_slice())?;
        }
    }
    Ok(())
}

/// Appends a place.
#[cycle(put_expr)]
#[tactic(auto, using(std::proofs::lemmas::List::append_assoc))]
pub fn put_place(out: &mut Vec<u8>, place: &PlaceTerm) -> Result<(), AllocError>
    ensures { OnOk result (out.new.items ≡ out.old.items ++ spelling (place_tree place.now)) }
{
    match place {
        PlaceTerm::Local(number) => put_number(out, 0, *number)?,
        PlaceTerm::This => out.push(1)?,
        PlaceTerm::Global(name) => {
            out.push(2)?;
            put_ref(out, name)?;
        }
        PlaceTerm::FieldOf(field, of) => {
            put_number(out, 3, *field)?;
            put_place(out, of.get())?;
        }
        PlaceTerm::Component(lane, of) => {
            out.push(4)?;
            out.push(*lane)?;
            put_place(out, of.get())?;
        }
        PlaceTerm::ElementOf(of, index) => {
            out.push(5)?;
            put_place(out, of.get())?;
            put_expr(out, index.get())?;
        }
    }
    Ok(())
}

/// Appends an expression behind these bytes.
#[cycle(put_expr)]
#[tactic(auto, using(std::proofs::lemmas::List::append_assoc))]
fn put_one(out: &mut Vec<u8>, front: &[u8], operand: &Expr) -> Result<(), AllocError>
    ensures { OnOk result (out.new.items ≡ out.old.items ++ (front.now ++ spelling (expr_tree operand.now))) }
{
    out.extend_from_slice(front)?;
    put_expr(out, operand)?;
    Ok(())
}

/// Appends an expression.
#[cycle(put_expr)]
#[tactic(auto, using(std::proofs::lemmas::List::append_assoc))]
pub fn put_expr(out: &mut Vec<u8>, expr: &Expr) -> Result<(), AllocError>
    ensures { OnOk result (out.new.items ≡ out.old.items ++ spelling (expr_tree expr.now)) }
{
    match expr {
        Expr::Int(bits) => put_number(out, 0, *bits)?,
        Expr::Uint(bits) => put_number(out, 1, *bits)?,
        Expr::False => out.push(2)?,
        Expr::True => out.push(3)?,
        Expr::Read(place) => {
            out.push(4)?;
            put_place(out, place.get())?;
        }
        Expr::Unary(op, x) => put_one(out, &[5, unary_byte(*op)], x.get())?,
        Expr::Binary(op, x, y) => {
            put_one(out, &[6, binary_byte(*op)], x.get())?;
            put_expr(out, y.get())?;
        }
        Expr::And(x, y) => {
            put_one(out, &[7], x.get())?;
            put_expr(out, y.get())?;
        }
        Expr::Or(x, y) => {
            put_one(out, &[8], x.get())?;
            put_expr(out, y.get())?;
        }
        Expr::Choose(test, x, y) => {
            put_one(out, &[9], test.get())?;
            put_expr(out, x.get())?;
            put_expr(out, y.get())?;
        }
        Expr::Convert(x) => put_one(out, &[10], x.get())?,
        Expr::Vector(of, items) => {
            put_typed(out, 11, of)?;
            put_exprs(out, items.as_slice())?;
        }
        Expr::Repeat(lanes, x) => put_one(out, &[12, *lanes], x.get())?,
        Expr::Swizzle(lanes, x) => {
            out.push(13)?;
            put_bytes(out, lanes.as_slice())?;
            put_expr(out, x.get())?;
        }
        Expr::Field(field, x) => {
            put_number(out, 14, *field)?;
            put_expr(out, x.get())?;
        }
        Expr::Element(x, index) => {
            put_one(out, &[15], x.get())?;
            put_expr(out, index.get())?;
        }
        Expr::Call(call) => {
            out.push(16)?;
            put_call(out, call.get())?;
        }
        Expr::List(of, items) => {
            put_typed(out, 17, of)?;
            put_exprs(out, items.as_slice())?;
        }
        Expr::Zero(of) => put_typed(out, 18, of)?,
        Expr::Fixed(value) => {
            out.push(19)?;
            put_value(out, *value)?;
        }
    }
    Ok(())
}
