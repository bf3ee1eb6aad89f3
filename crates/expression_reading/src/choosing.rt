// Which operator stands between two operands.

ghost use Rattle.std.specs.Prelude.{◌≤◌, ◌<◌, Ok, drop, length, IfOk, IfSome};
ghost use Rattle.slang_tokens.specs.declared.tokens.Kind.TheVariants as k;
ghost use Rattle.slang_tokens.specs.declared.tokens.Mark.TheVariants as m;
ghost use Rattle.slang_reading.specs.Reading.{attempt, chosen, first};
ghost use Rattle.slang_reading.specs.Kinds.{is_mark};
ghost use Rattle.slang_grammar.specs.Tables.{binary_of};
ghost use Rattle.slang_grammar.specs.ExpressionsDescent as spec;
ghost use Rattle.type_reading.specs.Limited.{limits_of};
ghost use Rattle.expression_reading.specs.Leading.{Leads, with_operator, by_mark};

use crate::ahead::shift_ahead;
use crate::starts::sees_joined;
use slang_grammar::{binary_of, level_of};
use slang_names::{ModuleCode, Place};
use slang_reading::{Fault, Tokens, is_mark};
use slang_tokens::{Kind, Mark};
use slang_tree::{BinaryOperator, ExprTree};
use type_reading::Limits;

/// `>` or `>=`, behind its first mark at that place.
#[tactic(auto, unfolding(slang_grammar::specs::ExpressionsDescent::greater, slang_reading::specs::Reading::next))]
fn greater(
    limits: Limits,
    tokens: &mut Tokens<'_>,
    depth: usize,
    rank: u8,
    place: Place,
    x: &(ExprTree, usize),
) -> BinaryOperator
    ensures { Leads (spec.greater (limits_of limits) depth (spec.leveled (limits_of limits) depth) rank place x.now) (λ op. spec.operand (limits_of limits) depth (spec.leveled (limits_of limits) depth) rank op x.now) tokens.old (Ok result) tokens.new }
{
    if sees_joined(tokens, Mark::Equal, place) {
        tokens.bump();
        return BinaryOperator::GreaterEqual;
    }
    BinaryOperator::Greater
}

/// `>>`, or none.
#[tactic(auto, unfolding(slang_reading::specs::Reading::attempt))]
fn shift(
    limits: Limits,
    tokens: &mut Tokens<'_>,
    depth: usize,
    rank: u8,
    x: &(ExprTree, usize),
) -> Result<Option<BinaryOperator>, Fault>
    ensures leads { Leads (attempt spec.shift_ahead (spec.shift_by (limits_of limits) depth (spec.leveled (limits_of limits) depth) rank x.now)) (with_operator (limits_of limits) depth (spec.leveled (limits_of limits) depth) rank x.now) tokens.old result tokens.new }
    ensures fits { IfOk result (λ o. IfSome o (λ op. x.now.1 ≤ depth)) }
{
    let Some(place) = shift_ahead(tokens) else {
        return Ok(None);
    };
    if x.1 > depth {
        return Err(Fault::Past(ModuleCode::TooNested, place));
    }
    Ok(Some(BinaryOperator::ShiftRight))
}

/// The operator of that level that the next token begins, which is that mark, if a node over the operand has room.
#[tactic(auto, unfolding(slang_reading::specs::Reading::next))]
fn marked(
    limits: Limits,
    tokens: &mut Tokens<'_>,
    depth: usize,
    rank: u8,
    mark: Mark,
    x: &(ExprTree, usize),
) -> Result<Option<BinaryOperator>, Fault>
    requires { tokens.old.at < length tokens.old.tokens }
    ensures leads { IfSome (first (drop tokens.old.at tokens.old.tokens)) (λ t. Leads (chosen (Some t) (by_mark (limits_of limits) depth (spec.leveled (limits_of limits) depth) rank x.now t (is_mark m.Greater (k.Mark mark)) (binary_of mark))) (with_operator (limits_of limits) depth (spec.leveled (limits_of limits) depth) rank x.now) tokens.old result tokens.new) }
    ensures fits { IfOk result (λ o. IfSome o (λ op. x.now.1 ≤ depth)) }
{
    let place = tokens.place();
    if is_mark(Mark::Greater, Kind::Mark(mark)) {
        if rank == level_of(BinaryOperator::Greater) {
            if x.1 > depth {
                return Err(Fault::Past(ModuleCode::TooNested, place));
            }
            tokens.bump();
            return Ok(Some(greater(limits, tokens, depth, rank, place, x)));
        }
        if rank == level_of(BinaryOperator::ShiftRight) {
            return shift(limits, tokens, depth, rank, x);
        }
        return Ok(None);
    }
    let Some(op) = binary_of(mark) else {
        return Ok(None);
    };
    if level_of(op) != rank {
        return Ok(None);
    }
    if x.1 > depth {
        return Err(Fault::Past(ModuleCode::TooNested, place));
    }
    tokens.bump();
    Ok(Some(op))
}

/// The operator of that level behind an operand, if one stands here and a node over the operand has room.
#[tactic(auto, using(crate::proofs::Between::operator_by_mark), unfolding(slang_grammar::specs::ExpressionsDescent::operator, slang_reading::specs::Reading::next))]
pub fn next_operator(
    limits: Limits,
    tokens: &mut Tokens<'_>,
    depth: usize,
    rank: u8,
    x: &(ExprTree, usize),
) -> Result<Option<BinaryOperator>, Fault>
    ensures leads { Leads (spec.operator (limits_of limits) depth (spec.leveled (limits_of limits) depth) rank x.now) (with_operator (limits_of limits) depth (spec.leveled (limits_of limits) depth) rank x.now) tokens.old result tokens.new }
    ensures fits { IfOk result (λ o. IfSome o (λ op. x.now.1 ≤ depth)) }
{
    let Some(token) = tokens.peek() else {
        return Ok(None);
    };
    match token.kind {
        Kind::Mark(mark) => marked(limits, tokens, depth, rank, mark, x),
        _ => Ok(None),
    }
}
