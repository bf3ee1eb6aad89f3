// The brackets that are open while a text is scanned.

ghost use Rattle.std.specs.Prelude.{◌≡◌, ◌<◌, ◌+◌, ◌^◌, ℕ, true, List, ◌∷◌, drop, Some, IfOk};
ghost use Rattle.slang_tokens.specs.declared.tokens.Kind.{Kind};
ghost use Rattle.slang_tokens.specs.declared.tokens.Mark.TheVariants as m;
ghost use Rattle.slang_reading.specs.Lexed.{Lexed};
ghost use Rattle.slang_reading.specs.Reading.{first};
ghost use Rattle.slang_reading.specs.Kinds.{sees};
ghost use Rattle.type_reading.specs.Scanning.{scanned, step};
ghost use Rattle.type_reading.specs.declared.steps.Step.TheVariants as steps;
ghost use Rattle.ahead_reading.specs.Knowing.{Knows, Tells, Told, Grows};
ghost use Rattle.ahead_reading.specs.Brackets as spec;
ghost use Rattle.ahead_reading.specs.declared.brackets.Bracket.TheVariants as b;

use crate::scans::{Known, Scans};
use slang_tokens::Kind;
use sqlite_items::Items;
use std::alloc::{AllocError, Global};
use type_reading::{Awaited, Open, Step, step_of};

/// An open bracket: of arguments that begin at the token with that index, or of a resource.
#[derive(Clone, Copy)]
pub(crate) enum Bracket {
    Many(usize),
    One,
}

/// The innermost open bracket, those around it, and what is awaited.
#[derive(Drop)]
pub(crate) struct Brackets {
    pub top: Bracket,
    pub under: Items<Bracket>,
    pub awaited: Awaited,
}

/// What came of a token.
#[derive(Clone, Copy)]
pub(crate) enum Next {
    Goes,
    Ended,
    Refused,
}

fn open_of(bracket: Bracket) -> Open
    ensures { result ≡ spec.open_of bracket }
{
    match bracket {
        Bracket::Many(_) => Open::Many,
        Bracket::One => Open::One,
    }
}

/// The bracket that opens at the token with that index.
fn bracket_of(kind: Open, at: usize) -> Bracket
    ensures kind { spec.open_of result ≡ kind }
    ensures begins { (begin : ℕ) → result ≡ b.Many begin → begin ≡ at }
{
    match kind {
        Open::Many => Bracket::Many(at),
        Open::One => Bracket::One,
    }
}

/// That is known of the scan that begins at the bracket.
fn tell(bracket: Bracket, scans: &mut Scans, known: Known)
    requires { Told (Some known) }
    ensures knows { (ts : List Lexed) → Knows scans.old ts → ((begin seen : ℕ) → bracket ≡ b.Many begin → Tells known seen (scanned ts begin seen)) → Knows scans.new ts }
    ensures grows { Grows scans.old scans.new }
    ensures told { spec.ToldOf scans.new bracket }
{
    match bracket {
        Bracket::Many(begin) => scans.tell(begin, known),
        Bracket::One => {}
    }
}

impl Brackets {
    /// Inside of the bracket at that token.
    pub(crate) fn new(alloc: Global, begin: usize) -> Brackets
        ensures comes { (ts : List Lexed) → sees m.Less (first (drop begin ts)) ≡ true → spec.AllCome ts (begin + 1) result }
        ensures outermost { spec.outermost result ≡ b.Many begin }
    {
        Brackets {
            top: Bracket::Many(begin),
            under: Items::new(alloc),
            awaited: Awaited::Item,
        }
    }

    /// Another bracket is open.
    fn push(&mut self, bracket: Bracket, awaited: Awaited) -> Result<(), AllocError>
        ensures all { IfOk result (λ u. (spec.all_of self.new ≡ bracket ∷ spec.all_of self.old) × (self.new.awaited ≡ awaited)) }
        ensures outermost { IfOk result (λ u. spec.outermost self.new ≡ spec.outermost self.old) }
    {
        self.under.push(self.top)?;
        self.top = bracket;
        self.awaited = awaited;
        Ok(())
    }

    /// The innermost bracket is closed.
    fn pop(&mut self) -> Next
        ensures popped { spec.Popped self.old result self.new }
        ensures outermost { spec.Outermost self.old result self.new }
    {
        match self.under.pop() {
            Some(outer) => {
                self.top = outer;
                self.awaited = Awaited::Typed;
                Next::Goes
            }
            None => Next::Ended,
        }
    }
    /// The innermost bracket is closed by the token with that index, where its scan ends.
    fn close(&mut self, scans: &mut Scans, at: usize) -> Next
        requires { at + 1 < 2 ^ 64 }
        ensures takes { (kind : Kind) → step (Some (spec.open_of self.old.top)) self.old.awaited kind ≡ steps.Pop → spec.Takes at kind self.old scans.old result self.new scans.new }
        ensures adds { spec.Adds self.old scans.old result self.new scans.new }
    {
        tell(self.top, scans, Known::Closed(at + 1));
        self.pop()
    }

    /// Takes the token with that index, which is of that kind.
    pub(crate) fn take(
        &mut self,
        scans: &mut Scans,
        at: usize,
        kind: Kind,
    ) -> Result<Next, AllocError>
        requires { at + 1 < 2 ^ 64 }
        ensures takes { IfOk result (λ next. spec.Takes at kind self.old scans.old next self.new scans.new) }
        ensures adds { IfOk result (λ next. spec.Adds self.old scans.old next self.new scans.new) }
    {
        match step_of(Some(open_of(self.top)), self.awaited, kind) {
            Step::Keep(awaited) => {
                self.awaited = awaited;
                Ok(Next::Goes)
            }
            Step::Push(bracket, awaited) => {
                self.push(bracket_of(bracket, at), awaited)?;
                Ok(Next::Goes)
            }
            Step::Pop => Ok(self.close(scans, at)),
            Step::Refused => Ok(Next::Refused),
        }
    }

    /// The scans of all brackets stop where so many tokens have been looked at.
    pub(crate) fn stop(self, scans: &mut Scans, far: usize)
        ensures knows { (ts : List Lexed) → spec.AllStop ts far (spec.all_of self) → Knows scans.old ts → Knows scans.new ts }
        ensures grows { Grows scans.old scans.new }
        ensures told { spec.ToldOf scans.new (spec.outermost self) }
    {
        let Brackets {
            top,
            mut under,
            awaited: _,
        } = self;
        tell(top, scans, Known::Stopped(far));
        while let Some(bracket) = under.pop() {
            tell(bracket, scans, Known::Stopped(far));
        }
    }
}
