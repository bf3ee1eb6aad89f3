// Generic arguments ahead, with what is known of the text.

ghost use Rattle.std.specs.Prelude.{◌≡◌, ◌≤◌, true, drop, length, IfOk};
ghost use Rattle.slang_reading.specs.Reading.{first};
ghost use Rattle.slang_reading.specs.Cursor.{Runs, looked};
ghost use Rattle.slang_grammar.specs.Descent as descent;
ghost use Rattle.slang_grammar.specs.Expressions as expressions;
ghost use Rattle.slang_grammar.specs.ExpressionsDescent as spec;
ghost use Rattle.type_reading.specs.Limited.{limits_of};
ghost use Rattle.type_reading.specs.Scanning.{scanned, arguments_taken};
ghost use Rattle.ahead_reading.specs.Knowing.{Knows, Ready, Foresees};

use crate::scans::{Known, Scans};
use slang_reading::{Fault, Tokens, is_mark};
use slang_tokens::Mark;
use std::alloc::{AllocError, Global};
use type_reading::{Limits, arguments_are_scanned, scan_arguments};

fn scan_here(alloc: Global, scans: &Scans, tokens: &mut Tokens<'_>) -> Result<(), Fault>
    requires { Knows scans.now tokens.old.tokens }
    ensures { Runs scanned tokens.old result tokens.new }
{
    match scans.of(tokens.at()) {
        Known::Unknown => scan_arguments(alloc, tokens),
        Known::Closed(to) => {
            tokens.look_to(to);
            tokens.back_to(to);
            Ok(())
        }
        Known::Stopped(far) => {
            tokens.look_to(far);
            Err(Fault::Stopped)
        }
    }
}

/// Generic arguments with their brackets, which are taken and not kept; what is known is not scanned again.
pub fn scan_known(alloc: Global, scans: &Scans, tokens: &mut Tokens<'_>) -> Result<(), Fault>
    requires { Knows scans.now tokens.old.tokens }
    ensures scans { Runs scanned tokens.old result tokens.new }
    ensures same { (l : descent.Limits) → l.free ≡ true → length tokens.old.tokens ≤ l.turns → Runs (arguments_taken l) tokens.old result tokens.new }
{
    arguments_are_scanned();
    scan_here(alloc, scans, tokens)
}

/// Whether `(` or `.` is next.
fn follows(tokens: &mut Tokens<'_>) -> bool
    ensures is { result ≡ expressions.follows (first (drop tokens.old.at tokens.old.tokens)) }
    ensures after { tokens.new ≡ looked tokens.old }
{
    match tokens.peek() {
        Some(token) => is_mark(Mark::OpenParen, token.kind) || is_mark(Mark::Dot, token.kind),
        None => false,
    }
}

/// Whether generic arguments stand here, of any nesting, with `(` or `.` directly behind them; no token is taken.
pub fn arguments_follow(
    alloc: Global,
    limits: Limits,
    scans: &Scans,
    tokens: &mut Tokens<'_>,
) -> Result<bool, AllocError>
    requires { Ready limits scans.now tokens.old.tokens }
    ensures { IfOk result (λ b. Foresees (spec.arguments_ahead (limits_of limits)) tokens.old b tokens.new) }
{
    let begin = tokens.at();
    match scan_known(alloc, scans, tokens) {
        Ok(()) => {
            let answer = follows(tokens);
            tokens.back_to(begin);
            Ok(answer)
        }
        Err(Fault::Memory(e)) => Err(e),
        Err(Fault::Stopped) => {
            tokens.back_to(begin);
            Ok(false)
        }
        Err(Fault::Past(_, _)) => Ok(false),
    }
}
