// What is looked at ahead of a declaration of locals, without trees.

ghost use Rattle.std.specs.Prelude.{◌≡◌, if◌then◌else◌, IfOk};
ghost use Rattle.slang_tokens.specs.declared.tokens.Mark.TheVariants as m;
ghost use Rattle.slang_reading.specs.Cursor.{Runs};
ghost use Rattle.slang_reading.specs.Kinds.{sees};
ghost use Rattle.slang_reading.specs.Reading.{turns};
ghost use Rattle.slang_grammar.specs.TypesDescent.{other_use, IsThis, IsOther};
ghost use Rattle.slang_grammar.specs.ExpressionsDescent.{freed};
ghost use Rattle.type_reading.specs.Limited.{limits_of};
ghost use Rattle.type_reading.specs.Scanning.{arguments_taken};
ghost use Rattle.ahead_reading.specs.Knowing.{Ready, Foresees};
ghost use Rattle.statement_grammar.specs.LocalsAhead as ahead;
ghost use Rattle.statement_reading.specs.Told.{Told};
ghost use Rattle.statement_reading.specs.Treeless as spec;

use ahead_reading::{Scans, scan_known};
use slang_grammar::{builtin_of, resource_of};
use slang_names::ModuleCode;
use slang_reading::{Fault, Tokens};
use slang_tokens::{Kind, Mark, Word};
use std::alloc::{AllocError, Global};
use type_reading::{Limits, expect};

/// A name of any length.
#[tactic(auto, unfolding(statement_grammar::specs::LocalsAhead::name_ahead, slang_grammar::specs::Descent::name, slang_reading::specs::Reading::bind, slang_reading::specs::Reading::next))]
fn name_here(limits: Limits, tokens: &mut Tokens<'_>) -> Result<(), Fault>
    ensures { Runs (ahead.name_ahead (limits_of limits)) tokens.old result tokens.new }
{
    let Some(token) = tokens.peek() else {
        return Err(Fault::Stopped);
    };
    match token.kind {
        Kind::Name => {
            tokens.bump();
            Ok(())
        }
        _ => Err(Fault::Stopped),
    }
}

/// Behind an opening bracket: a length, the bracket that closes it, and a name.
#[tactic(auto, unfolding(statement_grammar::specs::LocalsAhead::length_ahead, slang_grammar::specs::Descent::bracketed, slang_reading::specs::Reading::bind, slang_reading::specs::Reading::next))]
fn length_here(limits: Limits, tokens: &mut Tokens<'_>) -> Result<(), Fault>
    ensures { Runs (ahead.length_ahead (limits_of limits)) tokens.old result tokens.new }
{
    let Some(token) = tokens.peek() else {
        return Err(Fault::Stopped);
    };
    match token.kind {
        Kind::Name => {}
        Kind::Number(_) => {}
        _ => return Err(Fault::Stopped),
    }
    tokens.bump();
    expect(tokens, Mark::CloseBracket)?;
    name_here(limits, tokens)
}

/// A dot and a name.
#[tactic(auto, unfolding(crate::specs::Treeless::dotted, slang_reading::specs::Reading::next))]
fn dotted(limits: Limits, tokens: &mut Tokens<'_>) -> Result<(), Fault>
    ensures { Runs (spec.dotted (limits_of limits) tt) tokens.old result tokens.new }
{
    if !tokens.sees(Mark::Dot) {
        return Err(Fault::Stopped);
    }
    tokens.bump();
    name_here(limits, tokens)
}

/// Any number of names behind dots.
fn dots(limits: Limits, tokens: &mut Tokens<'_>) -> Result<(), Fault>
    ensures { Runs (turns (sees m.Dot) (spec.dotted (limits_of limits)) limits.turns tt) tokens.old result tokens.new }
{
    for _turn in 0..limits.turns {
        if !tokens.sees(Mark::Dot) {
            return Ok(());
        }
        dotted(limits, tokens)?;
    }
    if tokens.sees(Mark::Dot) {
        return Err(Fault::Past(ModuleCode::TooLong, tokens.place()));
    }
    Ok(())
}

/// Behind the name of a type: what is projected from it, a length, and the name that is declared.
#[tactic(auto, unfolding(crate::specs::Treeless::rest_taken, slang_reading::specs::Reading::bind, slang_reading::specs::Reading::next))]
fn rest_here(limits: Limits, tokens: &mut Tokens<'_>) -> Result<(), Fault>
    ensures { Runs (spec.rest_taken (limits_of limits)) tokens.old result tokens.new }
{
    dots(limits, tokens)?;
    if !tokens.sees(Mark::OpenBracket) {
        return name_here(limits, tokens);
    }
    tokens.bump();
    length_here(limits, tokens)
}

/// Generic arguments of any nesting.
fn arguments_here(
    alloc: Global,
    limits: Limits,
    scans: &Scans,
    tokens: &mut Tokens<'_>,
) -> Result<(), Fault>
    requires { Ready limits scans.now tokens.old.tokens }
    ensures { Runs (arguments_taken (freed (limits_of limits))) tokens.old result tokens.new }
{
    scan_known(alloc, scans, tokens)
}

/// Behind a name that begins a type.
#[tactic(auto, unfolding(crate::specs::Treeless::named_taken, slang_reading::specs::Reading::bind, slang_reading::specs::Reading::next))]
fn named_here(
    alloc: Global,
    limits: Limits,
    scans: &Scans,
    tokens: &mut Tokens<'_>,
) -> Result<(), Fault>
    requires { Ready limits scans.now tokens.old.tokens }
    ensures { Runs (spec.named_taken (limits_of limits)) tokens.old result tokens.new }
{
    if !tokens.sees(Mark::Less) {
        return rest_here(limits, tokens);
    }
    arguments_here(alloc, limits, scans, tokens)?;
    if tokens.sees(Mark::OpenBracket) {
        return Ok(());
    }
    rest_here(limits, tokens)
}

/// Behind the word of a type that makes values too.
#[tactic(auto, unfolding(statement_grammar::specs::LocalsAhead::builtin_ahead, slang_reading::specs::Reading::next))]
fn builtin_here(limits: Limits, tokens: &mut Tokens<'_>) -> Result<(), Fault>
    ensures { Runs (ahead.builtin_ahead (limits_of limits)) tokens.old result tokens.new }
{
    if tokens.sees(Mark::OpenParen) {
        return Err(Fault::Stopped);
    }
    Ok(())
}

/// Whether it is the word `This`.
fn is_this(word: Word) -> bool
    ensures { other_use word ≡ (if result then IsThis else IsOther) }
{
    match word {
        Word::ThisType => true,
        _ => false,
    }
}

/// What begins a declaration of locals without `const`.
#[tactic(auto, unfolding(crate::specs::Treeless::local_taken, slang_reading::specs::Reading::next))]
fn local_here(
    alloc: Global,
    limits: Limits,
    scans: &Scans,
    tokens: &mut Tokens<'_>,
) -> Result<(), Fault>
    requires { Ready limits scans.now tokens.old.tokens }
    ensures { Runs (spec.local_taken (limits_of limits)) tokens.old result tokens.new }
{
    let Some(token) = tokens.peek() else {
        return Err(Fault::Stopped);
    };
    match token.kind {
        Kind::Name => {
            tokens.bump();
            named_here(alloc, limits, scans, tokens)
        }
        Kind::Word(word) => {
            if let Some(_) = builtin_of(word) {
                tokens.bump();
                return builtin_here(limits, tokens);
            }
            if let Some(_) = resource_of(word) {
                tokens.bump();
                return Ok(());
            }
            if is_this(word) {
                tokens.bump();
                return rest_here(limits, tokens);
            }
            Err(Fault::Stopped)
        }
        _ => Err(Fault::Stopped),
    }
}

/// Whether a declaration of locals without `const` is read here; where one is, the cursor stands behind it.
fn local_read(
    alloc: Global,
    limits: Limits,
    scans: &Scans,
    tokens: &mut Tokens<'_>,
) -> Result<bool, AllocError>
    requires { Ready limits scans.now tokens.old.tokens }
    ensures told { IfOk result (λ b. Told (spec.local_taken (limits_of limits)) tokens.old b tokens.new) }
    ensures kept { tokens.new.tokens ≡ tokens.old.tokens }
{
    match local_here(alloc, limits, scans, tokens) {
        Ok(()) => Ok(true),
        Err(Fault::Stopped) => Ok(false),
        Err(Fault::Memory(e)) => Err(e),
        Err(Fault::Past(_, _)) => Err(AllocError),
    }
}

/// Whether a declaration of locals without `const` begins here; no token is taken.
pub fn local_follows(
    alloc: Global,
    limits: Limits,
    scans: &Scans,
    tokens: &mut Tokens<'_>,
) -> Result<bool, AllocError>
    requires { Ready limits scans.now tokens.old.tokens }
    ensures follows { IfOk result (λ b. Foresees (ahead.local_ahead (limits_of limits)) tokens.old b tokens.new) }
    ensures kept { tokens.new.tokens ≡ tokens.old.tokens }
{
    let start = tokens.at();
    let found = local_read(alloc, limits, scans, tokens)?;
    tokens.back_to(start);
    Ok(found)
}
