// What operators make of values.

ghost use Rattle.std.specs.Prelude.{◌≡◌, ◌++◌, map, cond, nat_lt, nat_le, IfOk};
ghost use Rattle.std.specs.Option.{option_map};
ghost use Rattle.behavior.specs.Operations.{word_negate, word_not, word_slt, word_sle};
ghost use Rattle.slang_core.specs.declared.bodies.BinaryOp.TheVariants.{Divide, Remainder, ShiftRight};
ghost use Rattle.type_terms.specs.Values as values;

use flat_values::{
    add, and, complement, mul, negate, or, sar, sdiv, shl, shr, sle, slt, srem, sub, udiv, umod,
    xor,
};
use slang_core::{BinaryOp, UnaryOp};
use sqlite_items::Items;
use std::alloc::{AllocError, Global};
use type_terms::Worth;

fn quotient(is_unsigned: bool, x: u32, y: u32) -> Option<u32>
    ensures { result ≡ values.word_op Divide is_unsigned x y }
{
    if is_unsigned { udiv(x, y) } else { sdiv(x, y) }
}

fn remainder(is_unsigned: bool, x: u32, y: u32) -> Option<u32>
    ensures { result ≡ values.word_op Remainder is_unsigned x y }
{
    if is_unsigned { umod(x, y) } else { srem(x, y) }
}

fn moved_down(is_unsigned: bool, x: u32, y: u32) -> Option<u32>
    ensures { result ≡ values.word_op ShiftRight is_unsigned x y }
{
    if is_unsigned { shr(x, y) } else { sar(x, y) }
}

/// What an operator makes of two words of that sign, or nothing where it is undefined.
pub fn word_op(op: BinaryOp, is_unsigned: bool, x: u32, y: u32) -> Option<u32>
    ensures { result ≡ values.word_op op is_unsigned x y }
{
    match op {
        BinaryOp::Add => Some(add(x, y)),
        BinaryOp::Subtract => Some(sub(x, y)),
        BinaryOp::Multiply => Some(mul(x, y)),
        BinaryOp::Divide => quotient(is_unsigned, x, y),
        BinaryOp::Remainder => remainder(is_unsigned, x, y),
        BinaryOp::BitAnd => Some(and(x, y)),
        BinaryOp::BitOr => Some(or(x, y)),
        BinaryOp::BitXor => Some(xor(x, y)),
        BinaryOp::ShiftLeft => shl(x, y),
        BinaryOp::ShiftRight => moved_down(is_unsigned, x, y),
        _ => None,
    }
}

fn is_less(is_unsigned: bool, x: u32, y: u32) -> bool
    ensures { result ≡ cond is_unsigned (nat_lt x y) (word_slt x y) }
{
    if is_unsigned { x < y } else { slt(x, y) }
}

fn is_at_most(is_unsigned: bool, x: u32, y: u32) -> bool
    ensures { result ≡ cond is_unsigned (nat_le x y) (word_sle x y) }
{
    if is_unsigned { x <= y } else { sle(x, y) }
}

/// What a comparison says of two words of that sign, or nothing where the operator is none.
pub fn word_test(op: BinaryOp, is_unsigned: bool, x: u32, y: u32) -> Option<bool>
    ensures { result ≡ values.word_test op is_unsigned x y }
{
    match op {
        BinaryOp::Equal => Some(x == y),
        BinaryOp::NotEqual => Some(x != y),
        BinaryOp::Less => Some(is_less(is_unsigned, x, y)),
        BinaryOp::LessEqual => Some(is_at_most(is_unsigned, x, y)),
        BinaryOp::Greater => Some(is_less(is_unsigned, y, x)),
        BinaryOp::GreaterEqual => Some(is_at_most(is_unsigned, y, x)),
        _ => None,
    }
}

fn truth_test(op: BinaryOp, x: bool, y: bool) -> Worth
    ensures { result ≡ values.truth_test op x y }
{
    match op {
        BinaryOp::Equal => Worth::Truth(x == y),
        BinaryOp::NotEqual => Worth::Truth(x != y),
        _ => Worth::Unknown,
    }
}

/// What has been made so far, and what the operator makes of the other words.
#[tactic(auto, using(std::proofs::lemmas::List::append_assoc))]
fn words_behind(
    op: BinaryOp,
    is_unsigned: bool,
    done: Items<u32>,
    xs: &[u32],
    ys: &[u32],
) -> Result<Option<Items<u32>>, AllocError>
    ensures { IfOk result (λ made. made ≡ option_map (λ words. done ++ words) (values.words_op op is_unsigned xs.now ys.now)) }
{
    let [x, xs @ ..] = xs else {
        return Ok(Some(done));
    };
    let [y, ys @ ..] = ys else {
        return Ok(Some(done));
    };
    match word_op(op, is_unsigned, *x, *y) {
        Some(word) => {
            let mut done = done;
            done.push(word)?;
            words_behind(op, is_unsigned, done, xs, ys)
        }
        None => Ok(None),
    }
}

/// The words, or that there are none.
pub fn words_or(is_unsigned: bool, words: Option<Items<u32>>) -> Worth
    ensures { result ≡ values.words_or is_unsigned words }
{
    match words {
        Some(words) => Worth::Words(is_unsigned, words),
        None => Worth::Undefined,
    }
}

fn word_by_word(
    alloc: Global,
    op: BinaryOp,
    is_unsigned: bool,
    xs: &[u32],
    ys: &[u32],
) -> Result<Worth, AllocError>
    ensures { IfOk result (λ made. made ≡ values.words_or is_unsigned (values.words_op op is_unsigned xs.now ys.now)) }
{
    let words = words_behind(op, is_unsigned, Items::new(alloc), xs, ys)?;
    Ok(words_or(is_unsigned, words))
}

fn on_words(
    alloc: Global,
    op: BinaryOp,
    is_unsigned: bool,
    xs: &[u32],
    ys: &[u32],
) -> Result<Worth, AllocError>
    ensures { IfOk result (λ made. made ≡ values.on_words op is_unsigned xs.now ys.now) }
{
    if let ([x], [y]) = (xs, ys) {
        if let Some(truth) = word_test(op, is_unsigned, *x, *y) {
            return Ok(Worth::Truth(truth));
        }
    }
    word_by_word(alloc, op, is_unsigned, xs, ys)
}

/// What an operator makes of two values.
pub fn binary_worth(alloc: Global, op: BinaryOp, x: Worth, y: Worth) -> Result<Worth, AllocError>
    ensures { IfOk result (λ made. made ≡ values.binary_worth op x y) }
{
    match (x, y) {
        (Worth::Words(is_unsigned, xs), Worth::Words(_, ys)) => {
            on_words(alloc, op, is_unsigned, xs.as_slice(), ys.as_slice())
        }
        (Worth::Truth(x), Worth::Truth(y)) => Ok(truth_test(op, x, y)),
        (Worth::Unknown, _) => Ok(Worth::Unknown),
        (_, Worth::Unknown) => Ok(Worth::Unknown),
        (Worth::Undefined, _) => Ok(Worth::Undefined),
        (_, Worth::Undefined) => Ok(Worth::Undefined),
        _ => Ok(Worth::Unknown),
    }
}

#[tactic(auto, using(std::proofs::lemmas::List::append_assoc))]
fn negated(done: Items<u32>, words: &[u32]) -> Result<Items<u32>, AllocError>
    ensures { IfOk result (λ made. made ≡ done ++ map word_negate words.now) }
{
    match words {
        [] => Ok(done),
        [word, others @ ..] => {
            let mut done = done;
            done.push(negate(*word))?;
            negated(done, others)
        }
    }
}

#[tactic(auto, using(std::proofs::lemmas::List::append_assoc))]
fn complemented(done: Items<u32>, words: &[u32]) -> Result<Items<u32>, AllocError>
    ensures { IfOk result (λ made. made ≡ done ++ map word_not words.now) }
{
    match words {
        [] => Ok(done),
        [word, others @ ..] => {
            let mut done = done;
            done.push(complement(*word))?;
            complemented(done, others)
        }
    }
}

/// What an operator makes of a value.
pub fn unary_worth(alloc: Global, op: UnaryOp, x: Worth) -> Result<Worth, AllocError>
    ensures { IfOk result (λ made. made ≡ values.unary_worth op x) }
{
    match (op, x) {
        (UnaryOp::Negate, Worth::Words(is_unsigned, words)) => Ok(Worth::Words(
            is_unsigned,
            negated(Items::new(alloc), words.as_slice())?,
        )),
        (UnaryOp::Complement, Worth::Words(is_unsigned, words)) => Ok(Worth::Words(
            is_unsigned,
            complemented(Items::new(alloc), words.as_slice())?,
        )),
        (UnaryOp::Not, Worth::Truth(truth)) => Ok(Worth::Truth(!truth)),
        (_, Worth::Undefined) => Ok(Worth::Undefined),
        _ => Ok(Worth::Unknown),
    }
}
