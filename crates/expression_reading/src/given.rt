// Names with their generic arguments.

ghost use Rattle.std.specs.Prelude.{◌≡◌, ◌≤◌, ◌<◌, ◌^◌, ◌+◌, drop, IfOk, IfSome};
ghost use Rattle.slang_reading.specs.Cursor.{Runs};
ghost use Rattle.slang_reading.specs.Reading.{first, next};
ghost use Rattle.slang_grammar.specs.Descent as descent;
ghost use Rattle.slang_grammar.specs.ExpressionsDescent as spec;
ghost use Rattle.type_reading.specs.Limited.{limits_of};
ghost use Rattle.ahead_reading.specs.Knowing.{Ready};

use crate::ahead::arguments_stand;
use crate::nodes::{member, plain};
use ahead_reading::Scans;
use slang_names::{ModuleCode, Name, Place};
use slang_reading::{Fault, Tokens, span};
use slang_tokens::{Kind, Mark};
use slang_tree::{ExprNode, ExprTree, GenericArgument, Identifier};
use sqlite_items::Items;
use std::alloc::{AllocError, Global};
use type_reading::{Limits, arguments};

/// The next token as a name of the tree, whatever it is.
pub fn identifier(
    alloc: Global,
    tokens: &Tokens<'_>,
    place: Place,
) -> Result<Identifier, AllocError>
    ensures { IfSome (first (drop tokens.now.at tokens.now.tokens)) (λ t. IfOk result (λ id. id ≡ record { place = place; name = t.bytes })) }
{
    Ok(Identifier {
        place,
        name: Name::from_slice(alloc, tokens.bytes())?,
    })
}

/// Whether the next token is short enough to be a name.
pub fn is_short(limits: Limits, tokens: &Tokens<'_>) -> bool
    ensures { IfSome (first (drop tokens.now.at tokens.now.tokens)) (λ t. result ≡ descent.is_short (limits_of limits) t) }
{
    tokens.bytes().len() <= limits.names
}

/// What stands behind a name at that place: generic arguments, how many nodes stand in them, and the place that ends the
/// whole.
#[tactic(auto, unfolding(slang_grammar::specs::ExpressionsDescent::given, slang_reading::specs::Reading::foresee, slang_reading::specs::Reading::bind, slang_reading::specs::Reading::next))]
fn given(
    alloc: Global,
    limits: Limits,
    scans: &Scans,
    tokens: &mut Tokens<'_>,
    depth: usize,
    place: Place,
) -> Result<(Items<GenericArgument>, usize, Place), Fault>
    requires { Ready limits scans.now tokens.old.tokens }
    ensures reads { Runs (spec.given (limits_of limits) depth place) tokens.old result tokens.new }
    ensures within { IfOk result (λ x. x.1 ≤ depth) }
{
    if !tokens.sees(Mark::Less) {
        return Ok((Items::new(alloc), 0, place));
    }
    if !arguments_stand(alloc, limits, scans, tokens)? {
        return Ok((Items::new(alloc), 0, place));
    }
    let ((args, height), end) = arguments(alloc, limits, tokens, depth)?;
    Ok((args, height, end))
}

/// Behind a name.
#[tactic(auto, unfolding(slang_grammar::specs::ExpressionsDescent::named, slang_reading::specs::Reading::bind))]
pub fn named(
    alloc: Global,
    limits: Limits,
    scans: &Scans,
    tokens: &mut Tokens<'_>,
    depth: usize,
    id: Identifier,
) -> Result<(ExprTree, usize), Fault>
    requires room { depth + 1 < 2 ^ 64 }
    requires ready { Ready limits scans.now tokens.old.tokens }
    ensures reads { Runs (spec.named (limits_of limits) depth (spec.leveled (limits_of limits) depth) id) tokens.old result tokens.new }
    ensures within { IfOk result (λ x. x.1 ≤ depth + 1) }
{
    let begin = id.place;
    let (args, height, end) = given(alloc, limits, scans, tokens, depth, begin)?;
    Ok((
        plain(span(begin, end), ExprNode::Name(id, args)),
        height + 1,
    ))
}

/// Behind a dot and a name.
#[tactic(auto, unfolding(slang_grammar::specs::ExpressionsDescent::member_name, slang_reading::specs::Reading::bind))]
fn member_name(
    alloc: Global,
    limits: Limits,
    scans: &Scans,
    tokens: &mut Tokens<'_>,
    depth: usize,
    x: (ExprTree, usize),
    id: Identifier,
) -> Result<(ExprTree, usize), Fault>
    requires room { depth + 1 < 2 ^ 64 }
    requires fits { x.1 ≤ depth }
    requires ready { Ready limits scans.now tokens.old.tokens }
    ensures reads { Runs (spec.member_name (limits_of limits) depth (spec.leveled (limits_of limits) depth) x id) tokens.old result tokens.new }
    ensures within { IfOk result (λ x. x.1 ≤ depth + 1) }
{
    let (of, tallest) = x;
    let (args, height, end) = given(alloc, limits, scans, tokens, depth, id.place)?;
    let place = span(of.place, end);
    Ok((member(alloc, place, of, id, args)?, tallest.max(height) + 1))
}

/// Behind a dot.
#[tactic(auto, unfolding(slang_reading::specs::Reading::next))]
pub fn member_rest(
    alloc: Global,
    limits: Limits,
    scans: &Scans,
    tokens: &mut Tokens<'_>,
    depth: usize,
    x: (ExprTree, usize),
) -> Result<(ExprTree, usize), Fault>
    requires room { depth + 1 < 2 ^ 64 }
    requires fits { x.1 ≤ depth }
    requires ready { Ready limits scans.now tokens.old.tokens }
    ensures reads { Runs (next (spec.member_at (limits_of limits) depth (spec.leveled (limits_of limits) depth) x)) tokens.old result tokens.new }
    ensures within { IfOk result (λ x. x.1 ≤ depth + 1) }
{
    let Some(token) = tokens.peek() else {
        return Err(Fault::Stopped);
    };
    match token.kind {
        Kind::Name => {
            if !is_short(limits, tokens) {
                return Err(Fault::Past(ModuleCode::TooLong, token.place));
            }
            let id = identifier(alloc, tokens, token.place)?;
            tokens.bump();
            member_name(alloc, limits, scans, tokens, depth, x, id)
        }
        _ => Err(Fault::Stopped),
    }
}
