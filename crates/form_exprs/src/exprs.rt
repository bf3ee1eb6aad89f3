// Expressions, places and calls, from their bytes.

ghost use Rattle.std.specs.Prelude.{◌≡◌, map};
ghost use Rattle.form_grammar.specs.Trees.{◌▸◌, nested, chain, list_of};
ghost use Rattle.form_grammar.specs.Grammar as form;
ghost use Rattle.form_grammar.specs.Grammar.{◌▹◌};
ghost use Rattle.form_grammar.specs.Numbers.{after};
ghost use Rattle.form_grammar.specs.Reading.{Gives, form_at, nested_at, items_at};
ghost use Rattle.slang_core.specs.BodyTrees.{expr_tree, place_tree, call_tree, given_tree};
ghost use Rattle.form_exprs.specs.Groups as group;

use crate::leaves::{array, fixed_of, global_of, int_of, local_of, uint_of, vector, zero_of};
use crate::marks::{binary_of, bytes_of, unary_of};
use form_grammar::{Level, ReadFault, count_at, number_at, refused, short};
use form_types::{args_of, byte_of, evidence_of, evidences_of, name_of, ref_of, term_of};
use slang_core::{Call, Expr, Given, PlaceTerm};
use slang_names::FormCode;
use sqlite_items::{Boxed, Items};

/// An expression at the front, nested in what stands around it.
#[cycle(expr)]
#[tactic(auto, unfolding(form_grammar::specs::Reading::form_at, form_grammar::specs::Numbers::after))]
pub fn expr_at(level: Level, bytes: &[u8]) -> Result<(Expr, &[u8]), ReadFault>
    ensures { Gives (λ x. (nested (expr_tree x.0), x.1.now)) result (form_at (nested_at level.depth) (form.part form.Expr) bytes.now) }
{
    expr_of(level, bytes)
}

#[cycle(expr)]
fn boxed_expr(level: Level, bytes: &[u8]) -> Result<(Boxed<Expr>, &[u8]), ReadFault>
    ensures { Gives (λ x. (nested (expr_tree x.0), x.1.now)) result (form_at (nested_at level.depth) (form.part form.Expr) bytes.now) }
{
    let (expr, rest) = expr_at(level, bytes)?;
    Ok((Boxed::new(level.alloc, expr)?, rest))
}

#[cycle(expr)]
#[tactic(auto, unfolding(form_grammar::specs::Reading::form_at, form_grammar::specs::Numbers::after))]
fn boxed_place(level: Level, bytes: &[u8]) -> Result<(Boxed<PlaceTerm>, &[u8]), ReadFault>
    ensures { Gives (λ x. (nested (place_tree x.0), x.1.now)) result (form_at (nested_at level.depth) (form.part form.Place) bytes.now) }
{
    let (place, rest) = place_of(level, bytes)?;
    Ok((Boxed::new(level.alloc, place)?, rest))
}

#[cycle(expr)]
fn expr_items(level: Level, count: u32, bytes: &[u8]) -> Result<(Items<Expr>, &[u8]), ReadFault>
    ensures { Gives (λ x. (chain (map (λ y. nested (expr_tree y)) x.0), x.1.now)) result (items_at (form_at (nested_at level.depth) (form.part form.Expr)) count bytes.now) }
{
    let mut items = Items::new(level.alloc);
    let mut rest = bytes;
    for _ in 0..count {
        let (item, after) = expr_at(level, rest)?;
        items.push(item)?;
        rest = after;
    }
    Ok((items, rest))
}

#[cycle(expr)]
#[tactic(auto, unfolding(form_grammar::specs::Reading::form_at, form_grammar::specs::Numbers::after))]
fn exprs_of(level: Level, bytes: &[u8]) -> Result<(Items<Expr>, &[u8]), ReadFault>
    ensures { Gives (λ x. (list_of (λ y. nested (expr_tree y)) x.0, x.1.now)) result (form_at (nested_at level.depth) (form.list (form.part form.Expr)) bytes.now) }
{
    let (count, rest) = count_at(bytes)?;
    expr_items(level, count, rest)
}

#[cycle(expr)]
#[tactic(auto, unfolding(form_grammar::specs::Reading::form_at, form_grammar::specs::Numbers::after))]
fn given_of(level: Level, bytes: &[u8]) -> Result<(Given, &[u8]), ReadFault>
    ensures { Gives (λ x. (given_tree x.0, x.1.now)) result (form_at (nested_at level.depth) form.given bytes.now) }
{
    match bytes {
        [] => Err(short()),
        [0, rest @ ..] => {
            let (expr, rest) = expr_of(level, rest)?;
            Ok((Given::Expr(expr), rest))
        }
        [1, rest @ ..] => {
            let (place, rest) = place_of(level, rest)?;
            Ok((Given::Place(place), rest))
        }
        _ => Err(refused(FormCode::NotCanonical, bytes)),
    }
}

#[cycle(expr)]
fn given_items(level: Level, count: u32, bytes: &[u8]) -> Result<(Items<Given>, &[u8]), ReadFault>
    ensures { Gives (λ x. (chain (map given_tree x.0), x.1.now)) result (items_at (form_at (nested_at level.depth) form.given) count bytes.now) }
{
    let mut items = Items::new(level.alloc);
    let mut rest = bytes;
    for _ in 0..count {
        let (item, after) = given_of(level, rest)?;
        items.push(item)?;
        rest = after;
    }
    Ok((items, rest))
}

#[cycle(expr)]
#[tactic(auto, unfolding(form_grammar::specs::Reading::form_at, form_grammar::specs::Numbers::after))]
fn givens_of(level: Level, bytes: &[u8]) -> Result<(Items<Given>, &[u8]), ReadFault>
    ensures { Gives (λ x. (list_of given_tree x.0, x.1.now)) result (form_at (nested_at level.depth) (form.list form.given) bytes.now) }
{
    let (count, rest) = count_at(bytes)?;
    given_items(level, count, rest)
}

/// A call at the front.
#[cycle(expr)]
#[tactic(auto, unfolding(form_grammar::specs::Reading::form_at, form_grammar::specs::Numbers::after))]
pub fn call_of(level: Level, bytes: &[u8]) -> Result<(Call, &[u8]), ReadFault>
    ensures { Gives (λ x. (call_tree x.0, x.1.now)) result (form_at (nested_at level.depth) form.call bytes.now) }
{
    match bytes {
        [] => Err(short()),
        [0, rest @ ..] => {
            let (function, rest) = ref_of(level, rest)?;
            let (args, rest) = args_of(level, rest)?;
            let (bounds, rest) = evidences_of(level, rest)?;
            let (given, rest) = givens_of(level, rest)?;
            Ok((Call::Direct(function, args, bounds, given), rest))
        }
        [1, rest @ ..] => {
            let (evidence, rest) = evidence_of(level, rest)?;
            let (interface, rest) = ref_of(level, rest)?;
            let (name, rest) = name_of(level, rest)?;
            let (given, rest) = givens_of(level, rest)?;
            Ok((Call::Required(evidence, interface, name, given), rest))
        }
        _ => Err(refused(FormCode::NotCanonical, bytes)),
    }
}

#[cycle(expr)]
#[tactic(auto, unfolding(form_grammar::specs::Reading::form_at, form_grammar::specs::Numbers::after))]
fn one_operand(level: Level, bytes: &[u8]) -> Result<(Expr, &[u8]), ReadFault>
    ensures { Gives (λ x. (expr_tree x.0, x.1.now)) result (form_at (nested_at level.depth) group.one_operand bytes.now) }
{
    match bytes {
        [] => Err(short()),
        [5, rest @ ..] => {
            let (op, rest) = unary_of(level, rest)?;
            let (operand, rest) = boxed_expr(level, rest)?;
            Ok((Expr::Unary(op, operand), rest))
        }
        [10, rest @ ..] => {
            let (operand, rest) = boxed_expr(level, rest)?;
            Ok((Expr::Convert(operand), rest))
        }
        [12, rest @ ..] => {
            let (lanes, rest) = byte_of(level, 0, 255, rest)?;
            let (operand, rest) = boxed_expr(level, rest)?;
            Ok((Expr::Repeat(lanes, operand), rest))
        }
        [13, rest @ ..] => {
            let (lanes, rest) = bytes_of(level, rest)?;
            let (operand, rest) = boxed_expr(level, rest)?;
            Ok((Expr::Swizzle(lanes, operand), rest))
        }
        [14, rest @ ..] => {
            let (field, rest) = number_at(rest)?;
            let (operand, rest) = boxed_expr(level, rest)?;
            Ok((Expr::Field(field, operand), rest))
        }
        _ => Err(refused(FormCode::NotCanonical, bytes)),
    }
}

#[cycle(expr)]
#[tactic(auto, unfolding(form_grammar::specs::Reading::form_at, form_grammar::specs::Numbers::after))]
fn pair_of(level: Level, bytes: &[u8]) -> Result<((Boxed<Expr>, Boxed<Expr>), &[u8]), ReadFault>
    ensures { Gives (λ x. (nested (expr_tree x.0.0) ▸ nested (expr_tree x.0.1), x.1.now)) result (form_at (nested_at level.depth) (form.part form.Expr ▹ form.part form.Expr) bytes.now) }
{
    let (left, rest) = boxed_expr(level, bytes)?;
    let (right, rest) = boxed_expr(level, rest)?;
    Ok(((left, right), rest))
}

#[cycle(expr)]
#[tactic(auto, unfolding(form_grammar::specs::Reading::form_at, form_grammar::specs::Numbers::after))]
fn two_operands(level: Level, bytes: &[u8]) -> Result<(Expr, &[u8]), ReadFault>
    ensures { Gives (λ x. (expr_tree x.0, x.1.now)) result (form_at (nested_at level.depth) group.two_operands bytes.now) }
{
    match bytes {
        [] => Err(short()),
        [6, rest @ ..] => {
            let (op, rest) = binary_of(level, rest)?;
            let ((left, right), rest) = pair_of(level, rest)?;
            Ok((Expr::Binary(op, left, right), rest))
        }
        [7, rest @ ..] => {
            let ((left, right), rest) = pair_of(level, rest)?;
            Ok((Expr::And(left, right), rest))
        }
        [8, rest @ ..] => {
            let ((left, right), rest) = pair_of(level, rest)?;
            Ok((Expr::Or(left, right), rest))
        }
        [15, rest @ ..] => {
            let ((operand, index), rest) = pair_of(level, rest)?;
            Ok((Expr::Element(operand, index), rest))
        }
        _ => Err(refused(FormCode::NotCanonical, bytes)),
    }
}

#[cycle(expr)]
#[tactic(auto, unfolding(form_grammar::specs::Reading::form_at, form_grammar::specs::Numbers::after))]
fn many_operands(level: Level, bytes: &[u8]) -> Result<(Expr, &[u8]), ReadFault>
    ensures { Gives (λ x. (expr_tree x.0, x.1.now)) result (form_at (nested_at level.depth) group.many_operands bytes.now) }
{
    match bytes {
        [] => Err(short()),
        [11, rest @ ..] => {
            let (of, rest) = term_of(level, rest)?;
            let (items, rest) = exprs_of(level, rest)?;
            Ok((vector(of, items), rest))
        }
        [17, rest @ ..] => {
            let (of, rest) = term_of(level, rest)?;
            let (items, rest) = exprs_of(level, rest)?;
            Ok((array(of, items), rest))
        }
        _ => Err(refused(FormCode::NotCanonical, bytes)),
    }
}

#[cycle(expr)]
#[tactic(auto, unfolding(form_grammar::specs::Reading::form_at, form_grammar::specs::Numbers::after))]
fn expr_body(level: Level, bytes: &[u8]) -> Result<(Expr, &[u8]), ReadFault>
    ensures { Gives (λ x. (expr_tree x.0, x.1.now)) result (form_at (nested_at level.depth) form.expr_form bytes.now) }
{
    let [tag, rest @ ..] = bytes else {
        return Err(short());
    };
    match *tag {
        0 => int_of(level, rest),
        1 => uint_of(level, rest),
        2 => Ok((Expr::False, rest)),
        3 => Ok((Expr::True, rest)),
        4 => {
            let (place, rest) = boxed_place(level, rest)?;
            Ok((Expr::Read(place), rest))
        }
        5 | 10 | 12 | 13 | 14 => one_operand(level, bytes),
        6 | 7 | 8 | 15 => two_operands(level, bytes),
        9 => {
            let (test, rest) = boxed_expr(level, rest)?;
            let ((left, right), rest) = pair_of(level, rest)?;
            Ok((Expr::Choose(test, left, right), rest))
        }
        11 | 17 => many_operands(level, bytes),
        16 => {
            let (call, rest) = call_of(level, rest)?;
            Ok((Expr::Call(Boxed::new(level.alloc, call)?), rest))
        }
        18 => zero_of(level, rest),
        19 => fixed_of(level, rest),
        _ => Err(refused(FormCode::NotCanonical, bytes)),
    }
}

/// An expression at the front.
#[cycle(expr)]
pub fn expr_of(level: Level, bytes: &[u8]) -> Result<(Expr, &[u8]), ReadFault>
    ensures { Gives (λ x. (expr_tree x.0, x.1.now)) result (nested_at level.depth form.Expr bytes.now) }
{
    if bytes.len() == 0 {
        return Err(short());
    }
    if level.depth == 0 {
        return Err(refused(FormCode::FormLimit, bytes));
    }
    expr_body(
        Level {
            alloc: level.alloc,
            depth: level.depth - 1,
        },
        bytes,
    )
}

#[cycle(expr)]
#[tactic(auto, unfolding(form_grammar::specs::Reading::form_at, form_grammar::specs::Numbers::after))]
fn place_body(level: Level, bytes: &[u8]) -> Result<(PlaceTerm, &[u8]), ReadFault>
    ensures { Gives (λ x. (place_tree x.0, x.1.now)) result (form_at (nested_at level.depth) form.place_form bytes.now) }
{
    let [tag, rest @ ..] = bytes else {
        return Err(short());
    };
    match *tag {
        0 => local_of(level, rest),
        1 => Ok((PlaceTerm::This, rest)),
        2 => global_of(level, rest),
        3 => {
            let (field, rest) = number_at(rest)?;
            let (place, rest) = boxed_place(level, rest)?;
            Ok((PlaceTerm::FieldOf(field, place), rest))
        }
        4 => {
            let (lane, rest) = byte_of(level, 0, 255, rest)?;
            let (place, rest) = boxed_place(level, rest)?;
            Ok((PlaceTerm::Component(lane, place), rest))
        }
        5 => {
            let (place, rest) = boxed_place(level, rest)?;
            let (index, rest) = boxed_expr(level, rest)?;
            Ok((PlaceTerm::ElementOf(place, index), rest))
        }
        _ => Err(refused(FormCode::NotCanonical, bytes)),
    }
}

/// A place at the front.
#[cycle(expr)]
pub fn place_of(level: Level, bytes: &[u8]) -> Result<(PlaceTerm, &[u8]), ReadFault>
    ensures { Gives (λ x. (place_tree x.0, x.1.now)) result (nested_at level.depth form.Place bytes.now) }
{
    if bytes.len() == 0 {
        return Err(short());
    }
    if level.depth == 0 {
        return Err(refused(FormCode::FormLimit, bytes));
    }
    place_body(
        Level {
            alloc: level.alloc,
            depth: level.depth - 1,
        },
        bytes,
    )
}

/// A place at the front, nested in what stands around it.
#[tactic(auto, unfolding(form_grammar::specs::Reading::form_at, form_grammar::specs::Numbers::after))]
pub fn place_at(level: Level, bytes: &[u8]) -> Result<(PlaceTerm, &[u8]), ReadFault>
    ensures { Gives (λ x. (nested (place_tree x.0), x.1.now)) result (form_at (nested_at level.depth) (form.part form.Place) bytes.now) }
{
    place_of(level, bytes)
}
