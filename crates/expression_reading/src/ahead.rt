// What is looked at ahead: generic arguments behind a name, the word of a cast, and `>>`.

ghost use Rattle.std.specs.Prelude.{◌≡◌, ◌||◌, drop, IfOk};
ghost use Rattle.slang_reading.specs.Cursor.{looked};
ghost use Rattle.slang_reading.specs.Reading.{first};
ghost use Rattle.slang_reading.specs.Kinds.{sees};
ghost use Rattle.slang_tokens.specs.declared.tokens.Mark.TheVariants as m;
ghost use Rattle.slang_grammar.specs.Expressions.{follows};
ghost use Rattle.slang_grammar.specs.ExpressionsDescent as spec;
ghost use Rattle.type_reading.specs.Limited.{limits_of};
ghost use Rattle.ahead_reading.specs.Knowing.{Ready, Foresees};
ghost use Rattle.expression_reading.specs.Leading.{Tries};

use crate::starts::sees_joined;
use ahead_reading::{Scans, scan_known};
use slang_grammar::builtin_of;
use slang_names::Place;
use slang_reading::{Fault, Tokens, is_mark};
use slang_tokens::{Kind, Mark};
use slang_tree::Builtin;
use std::alloc::{AllocError, Global};
use type_reading::{Limits, arguments_are_scanned};

/// Whether what stands behind generic arguments in an expression stands here.
fn follows(tokens: &mut Tokens<'_>) -> bool
    ensures is { result ≡ follows (first (drop tokens.old.at tokens.old.tokens)) }
    ensures after { tokens.new ≡ looked tokens.old }
{
    match tokens.peek() {
        Some(token) => is_mark(Mark::OpenParen, token.kind) || is_mark(Mark::Dot, token.kind),
        None => false,
    }
}

/// Whether generic arguments stand here, of any nesting, with `(` or `.` directly behind them; no token is taken.
#[tactic(auto, unfolding(ahead_reading::specs::Knowing::Ready))]
pub fn arguments_stand(
    alloc: Global,
    limits: Limits,
    scans: &Scans,
    tokens: &mut Tokens<'_>,
) -> Result<bool, AllocError>
    requires { Ready limits scans.now tokens.old.tokens }
    ensures foresees { IfOk result (λ b. Foresees (spec.arguments_ahead (limits_of limits)) tokens.old b tokens.new) }
    ensures kept { tokens.new.tokens ≡ tokens.old.tokens }
{
    arguments_are_scanned();
    let back = tokens.at();
    match scan_known(alloc, scans, tokens) {
        Ok(()) => {
            let stand = follows(tokens);
            tokens.back_to(back);
            Ok(stand)
        }
        Err(Fault::Stopped) => {
            tokens.back_to(back);
            Ok(false)
        }
        Err(Fault::Past(_, _)) => unreachable!(),
        Err(Fault::Memory(e)) => Err(e),
    }
}

/// The word of a cast and the parenthesis that closes it, behind the one that opens it.
#[tactic(auto, unfolding(slang_grammar::specs::ExpressionsDescent::cast_ahead, slang_grammar::specs::Descent::expect, slang_reading::specs::Reading::bind, slang_reading::specs::Reading::next))]
pub fn cast_ahead(tokens: &mut Tokens<'_>) -> Option<Builtin>
    ensures { Tries spec.cast_ahead tokens.old result tokens.new }
{
    let back = tokens.at();
    let Some(token) = tokens.peek() else {
        return None;
    };
    let Kind::Word(word) = token.kind else {
        return None;
    };
    let Some(to) = builtin_of(word) else {
        return None;
    };
    tokens.bump();
    if !tokens.sees(Mark::CloseParen) {
        tokens.back_to(back);
        return None;
    }
    tokens.bump();
    Some(to)
}

/// `>>`, and where its first mark lies.
#[tactic(auto, unfolding(slang_grammar::specs::ExpressionsDescent::shift_ahead, slang_grammar::specs::Descent::expect, slang_reading::specs::Reading::bind, slang_reading::specs::Reading::next))]
pub fn shift_ahead(tokens: &mut Tokens<'_>) -> Option<Place>
    ensures { Tries spec.shift_ahead tokens.old result tokens.new }
{
    let back = tokens.at();
    if !tokens.sees(Mark::Greater) {
        return None;
    }
    let place = tokens.place();
    tokens.bump();
    if !sees_joined(tokens, Mark::Greater, place) {
        tokens.back_to(back);
        return None;
    }
    tokens.bump();
    Some(place)
}

/// Whether a member, an index or a call goes on here.
pub fn goes_on(tokens: &mut Tokens<'_>) -> bool
    ensures is { result ≡ (sees m.Dot (first (drop tokens.old.at tokens.old.tokens)) || sees m.OpenBracket (first (drop tokens.old.at tokens.old.tokens)) || sees m.OpenParen (first (drop tokens.old.at tokens.old.tokens))) }
    ensures after { tokens.new ≡ looked tokens.old }
{
    match tokens.peek() {
        Some(token) => {
            is_mark(Mark::Dot, token.kind)
                || is_mark(Mark::OpenBracket, token.kind)
                || is_mark(Mark::OpenParen, token.kind)
        }
        None => false,
    }
}
