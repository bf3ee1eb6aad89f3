// Generic arguments are scanned ahead once for a text.

ghost use Rattle.std.specs.Prelude.{◌≡◌, ℕ, List, drop, IfOk};
ghost use Rattle.slang_reading.specs.Lexed.{lexed_all};
ghost use Rattle.slang_reading.specs.Reading.{first};
ghost use Rattle.ahead_reading.specs.Knowing.{Knows, Fills, FillsBehind, TellsAll, is_name};

use crate::brackets::{Brackets, Next};
use crate::scans::{Known, Scans};
use slang_reading::is_mark;
use slang_tokens::{Kind, Mark, Token};
use std::alloc::{AllocError, Global};

fn token_at(tokens: &[Token], at: usize) -> Option<Token>
    ensures { result ≡ first (drop at tokens.now) }
{
    tokens.get(at).copied()
}

/// Whether that token is a name.
fn is_name(tokens: &[Token], at: usize) -> bool
    ensures { result ≡ is_name (first (drop at tokens.now)) }
{
    match token_at(tokens, at) {
        Some(token) => match token.kind {
            Kind::Name => true,
            _ => false,
        },
        None => false,
    }
}

/// Scans from the bracket at that token on, and keeps the outcomes of all scans that begin on the way.
fn scan_from(
    alloc: Global,
    tokens: &[Token],
    scans: &mut Scans,
    begin: usize,
) -> Result<(), AllocError>
    ensures knows { IfOk result (λ u. (text : List ℕ) → Knows scans.old (lexed_all text tokens.now) → Knows scans.new (lexed_all text tokens.now)) }
    ensures fills { IfOk result (λ u. Fills tokens.now begin scans.old scans.new) }
{
    let Some(token) = token_at(tokens, begin) else {
        return Ok(());
    };
    if !is_mark(Mark::Less, token.kind) {
        return Ok(());
    }
    let mut brackets = Brackets::new(alloc, begin);
    let mut at = begin + 1;
    while let Some(token) = token_at(tokens, at) {
        match brackets.take(scans, at, token.kind)? {
            Next::Goes => at += 1,
            Next::Ended => return Ok(()),
            Next::Refused => {
                brackets.stop(scans, at + 1);
                return Ok(());
            }
        }
    }
    brackets.stop(scans, at + 1);
    Ok(())
}

/// Scans from that token on, where it stands directly behind a name and its scan is not known.
fn scan_behind_name(
    alloc: Global,
    tokens: &[Token],
    scans: &mut Scans,
    begin: usize,
) -> Result<(), AllocError>
    ensures knows { IfOk result (λ u. (text : List ℕ) → Knows scans.old (lexed_all text tokens.now) → Knows scans.new (lexed_all text tokens.now)) }
    ensures fills { IfOk result (λ u. FillsBehind tokens.now begin scans.old scans.new) }
{
    if begin == 0 || !is_name(tokens, begin - 1) {
        return Ok(());
    }
    match scans.of(begin) {
        Known::Unknown => scan_from(alloc, tokens, scans, begin),
        Known::Closed(_) => Ok(()),
        Known::Stopped(_) => Ok(()),
    }
}

impl Scans {
    /// The scans of all brackets behind a name. The time is linear in the number of tokens: where a scan has begun at a
    /// bracket, the outcomes of those that begin on its way are kept with its own, so the next begins where it ended or
    /// later, or at the token that it refused. So each token is looked at by two scans at most.
    pub fn new(alloc: Global, tokens: &[Token]) -> Result<Scans, AllocError>
        ensures knows { (text : List ℕ) → IfOk result (λ scans. Knows scans (lexed_all text tokens.now)) }
        ensures all { IfOk result (λ scans. TellsAll scans tokens.now) }
    {
        let mut scans = Scans::unknown(alloc, tokens.len())?;
        for at in 0..tokens.len() {
            scan_behind_name(alloc, tokens, &mut scans, at)?;
        }
        Ok(scans)
    }
}
