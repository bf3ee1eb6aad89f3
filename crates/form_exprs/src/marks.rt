// Operators, flags and component numbers.

ghost use Rattle.std.specs.Prelude.{◌≡◌, ◌++◌, ◌∷◌, [], OnOk, map};
ghost use Rattle.form_grammar.specs.Trees.{byte, spelling, chain, list_of};
ghost use Rattle.form_grammar.specs.Grammar as form;
ghost use Rattle.form_grammar.specs.Numbers.{after};
ghost use Rattle.form_grammar.specs.Reading.{Gives, form_at, nested_at, items_at};
ghost use Rattle.slang_core.specs.BodyTrees.{unary_tree, binary_tree, bool_tree};

use form_grammar::{Level, ReadFault, count_at, put_count, refused, short};
use form_types::byte_of;
use slang_core::{BinaryOp, UnaryOp};
use slang_names::FormCode;
use sqlite_items::Items;
use std::alloc::AllocError;

/// An operator of one operand at the front.
#[tactic(auto, unfolding(form_grammar::specs::Reading::form_at, form_grammar::specs::Numbers::after))]
pub fn unary_of(level: Level, bytes: &[u8]) -> Result<(UnaryOp, &[u8]), ReadFault>
    ensures { Gives (λ x. (unary_tree x.0, x.1.now)) result (form_at (nested_at level.depth) form.unary bytes.now) }
{
    match bytes {
        [] => Err(short()),
        [0, rest @ ..] => Ok((UnaryOp::Negate, rest)),
        [1, rest @ ..] => Ok((UnaryOp::Complement, rest)),
        [2, rest @ ..] => Ok((UnaryOp::Not, rest)),
        _ => Err(refused(FormCode::NotCanonical, bytes)),
    }
}

/// The byte of an operator of one operand.
pub fn unary_byte(op: UnaryOp) -> u8
    ensures { spelling (unary_tree op) ≡ result ∷ [] }
{
    match op {
        UnaryOp::Negate => 0,
        UnaryOp::Complement => 1,
        UnaryOp::Not => 2,
    }
}

/// An operator of two operands at the front.
#[tactic(auto, unfolding(form_grammar::specs::Reading::form_at, form_grammar::specs::Numbers::after))]
pub fn binary_of(level: Level, bytes: &[u8]) -> Result<(BinaryOp, &[u8]), ReadFault>
    ensures { Gives (λ x. (binary_tree x.0, x.1.now)) result (form_at (nested_at level.depth) form.binary bytes.now) }
{
    match bytes {
        [] => Err(short()),
        [0, rest @ ..] => Ok((BinaryOp::Add, rest)),
        [1, rest @ ..] => Ok((BinaryOp::Subtract, rest)),
        [2, rest @ ..] => Ok((BinaryOp::Multiply, rest)),
        [3, rest @ ..] => Ok((BinaryOp::Divide, rest)),
        [4, rest @ ..] => Ok((BinaryOp::Remainder, rest)),
        [5, rest @ ..] => Ok((BinaryOp::BitAnd, rest)),
        [6, rest @ ..] => Ok((BinaryOp::BitOr, rest)),
        [7, rest @ ..] => Ok((BinaryOp::BitXor, rest)),
        [8, rest @ ..] => Ok((BinaryOp::ShiftLeft, rest)),
        [9, rest @ ..] => Ok((BinaryOp::ShiftRight, rest)),
        [10, rest @ ..] => Ok((BinaryOp::Equal, rest)),
        [11, rest @ ..] => Ok((BinaryOp::NotEqual, rest)),
        [12, rest @ ..] => Ok((BinaryOp::Less, rest)),
        [13, rest @ ..] => Ok((BinaryOp::LessEqual, rest)),
        [14, rest @ ..] => Ok((BinaryOp::Greater, rest)),
        [15, rest @ ..] => Ok((BinaryOp::GreaterEqual, rest)),
        _ => Err(refused(FormCode::NotCanonical, bytes)),
    }
}

/// The byte of an operator of two operands.
pub fn binary_byte(op: BinaryOp) -> u8
    ensures { spelling (binary_tree op) ≡ result ∷ [] }
{
    match op {
        BinaryOp::Add => 0,
        BinaryOp::Subtract => 1,
        BinaryOp::Multiply => 2,
        BinaryOp::Divide => 3,
        BinaryOp::Remainder => 4,
        BinaryOp::BitAnd => 5,
        BinaryOp::BitOr => 6,
        BinaryOp::BitXor => 7,
        BinaryOp::ShiftLeft => 8,
        BinaryOp::ShiftRight => 9,
        BinaryOp::Equal => 10,
        BinaryOp::NotEqual => 11,
        BinaryOp::Less => 12,
        BinaryOp::LessEqual => 13,
        BinaryOp::Greater => 14,
        BinaryOp::GreaterEqual => 15,
    }
}

/// A flag at the front: 0, or 1 where it is set.
#[tactic(auto, unfolding(form_grammar::specs::Reading::form_at, form_grammar::specs::Numbers::after))]
pub fn bool_of(level: Level, bytes: &[u8]) -> Result<(bool, &[u8]), ReadFault>
    ensures { Gives (λ x. (bool_tree x.0, x.1.now)) result (form_at (nested_at level.depth) form.conv bytes.now) }
{
    match bytes {
        [] => Err(short()),
        [0, rest @ ..] => Ok((false, rest)),
        [1, rest @ ..] => Ok((true, rest)),
        _ => Err(refused(FormCode::NotCanonical, bytes)),
    }
}

/// The byte of a flag.
pub fn bool_byte(flag: bool) -> u8
    ensures { spelling (bool_tree flag) ≡ result ∷ [] }
{
    if flag { 1 } else { 0 }
}

fn byte_items(level: Level, count: u32, bytes: &[u8]) -> Result<(Items<u8>, &[u8]), ReadFault>
    ensures { Gives (λ x. (chain (map (λ n. byte n) x.0), x.1.now)) result (items_at (form_at (nested_at level.depth) (form.range 0 255)) count bytes.now) }
{
    let mut items = Items::new(level.alloc);
    let mut rest = bytes;
    for _ in 0..count {
        let (item, after) = byte_of(level, 0, 255, rest)?;
        items.push(item)?;
        rest = after;
    }
    Ok((items, rest))
}

/// A list of bytes at the front.
#[tactic(auto, unfolding(form_grammar::specs::Reading::form_at, form_grammar::specs::Numbers::after))]
pub fn bytes_of(level: Level, bytes: &[u8]) -> Result<(Items<u8>, &[u8]), ReadFault>
    ensures { Gives (λ x. (list_of (λ n. byte n) x.0, x.1.now)) result (form_at (nested_at level.depth) (form.list (form.range 0 255)) bytes.now) }
{
    let (count, rest) = count_at(bytes)?;
    byte_items(level, count, rest)
}

/// Appends a list of bytes.
#[tactic(auto, using(std::proofs::lemmas::List::append_assoc, form_grammar::proofs::Chains::size_chain, crate::proofs::Bytes::spelled_bytes))]
pub fn put_bytes(out: &mut Vec<u8>, bytes: &[u8]) -> Result<(), AllocError>
    ensures { OnOk result (out.new.items ≡ out.old.items ++ spelling (list_of (λ n. byte n) bytes.now)) }
{
    put_count(out, bytes.len())?;
    out.extend_from_slice(bytes)?;
    Ok(())
}
