// Generic arguments, read ahead without a tree and without recursion.

ghost use Rattle.std.specs.Prelude.{◌≡◌, ◌≤◌, true, [], ◌∷◌, length, reverse, IfOk};
ghost use Rattle.slang_grammar.specs.Descent.{Limits};
ghost use Rattle.type_reading.specs.declared.steps.Open.TheVariants as open_variants;
ghost use Rattle.type_reading.specs.declared.steps.Awaited.TheVariants as awaits;
ghost use Rattle.slang_reading.specs.Cursor.{Runs};
ghost use Rattle.type_reading.specs.Scanning.{move, popped, scanned, arguments_taken};
ghost use Rattle.type_reading.specs.Reached.{reached};

use crate::steps::{Awaited, Open, Step, step_of};
use slang_reading::{Fault, Tokens};
use slang_tokens::{Kind, Mark};
use sqlite_items::Items;
use std::alloc::{AllocError, Global};

/// The innermost open bracket, those around it, and what is awaited.
#[derive(Drop)]
struct Scan {
    top: Open,
    under: Items<Open>,
    awaited: Awaited,
}

/// What came of a token.
#[derive(Clone, Copy)]
enum Next {
    Goes,
    Ended,
    Refused,
}

impl Scan {
    /// Inside of the first bracket.
    fn new(alloc: Global) -> Scan
        ensures top { result.top ≡ open_variants.Many }
        ensures under { result.under ≡ [] }
        ensures awaited { result.awaited ≡ awaits.Item }
    {
        Scan {
            top: Open::Many,
            under: Items::new(alloc),
            awaited: Awaited::Item,
        }
    }

    /// Another bracket is open.
    fn push(&mut self, bracket: Open, awaited: Awaited) -> Result<(), AllocError>
        ensures { IfOk result (λ u. (self.new.top ∷ reverse self.new.under ≡ bracket ∷ self.old.top ∷ reverse self.old.under) × (self.new.awaited ≡ awaited)) }
    {
        self.under.push(self.top)?;
        self.top = bracket;
        self.awaited = awaited;
        Ok(())
    }

    /// The innermost bracket is closed.
    fn pop(&mut self) -> Next
        ensures { reached result (self.new.top ∷ reverse self.new.under) self.new.awaited ≡ popped (reverse self.old.under) }
    {
        match self.under.pop() {
            Some(outer) => {
                self.top = outer;
                self.awaited = Awaited::Typed;
                Next::Goes
            }
            None => Next::Ended,
        }
    }

    /// Takes a token of that kind.
    fn take(&mut self, kind: Kind) -> Result<Next, AllocError>
        ensures { IfOk result (λ next. reached next (self.new.top ∷ reverse self.new.under) self.new.awaited ≡ move (self.old.top ∷ reverse self.old.under) self.old.awaited kind) }
    {
        match step_of(Some(self.top), self.awaited, kind) {
            Step::Keep(awaited) => {
                self.awaited = awaited;
                Ok(Next::Goes)
            }
            Step::Push(bracket, awaited) => {
                self.push(bracket, awaited)?;
                Ok(Next::Goes)
            }
            Step::Pop => Ok(self.pop()),
            Step::Refused => Ok(Next::Refused),
        }
    }
}

fn scan_from_here(alloc: Global, tokens: &mut Tokens<'_>) -> Result<(), Fault>
    ensures { Runs scanned tokens.old result tokens.new }
{
    if !tokens.sees(Mark::Less) {
        return Err(Fault::Stopped);
    }
    tokens.bump();
    let mut state = Scan::new(alloc);
    while let Some(token) = tokens.peek() {
        tokens.bump();
        match state.take(token.kind)? {
            Next::Goes => {}
            Next::Ended => return Ok(()),
            Next::Refused => return Err(Fault::Stopped),
        }
    }
    Err(Fault::Stopped)
}

/// Generic arguments with their brackets, which are taken and not kept: what their parser does that has no limits of lists,
/// names and chains, and as many nodes and turns as there are tokens. The time is linear in the tokens that are looked at.
pub fn scan_arguments(alloc: Global, tokens: &mut Tokens<'_>) -> Result<(), Fault>
    ensures scans { Runs scanned tokens.old result tokens.new }
    ensures same { (limits : Limits) → limits.free ≡ true → length tokens.old.tokens ≤ limits.turns → Runs (arguments_taken limits) tokens.old result tokens.new }
{
    scan_from_here(alloc, tokens)
}
