// What a token does to generic arguments that are scanned.

ghost use Rattle.std.specs.Prelude.{◌≡◌, if◌then◌else◌};
ghost use Rattle.slang_reading.specs.Kinds as kinds;
ghost use Rattle.slang_grammar.specs.TypesDescent.{use_of};
ghost use Rattle.type_reading.specs.declared.steps.Step.TheVariants as steps;
ghost use Rattle.type_reading.specs.Scanning as spec;

use crate::starts::is_this;
use slang_grammar::{builtin_of, resource_of};
use slang_reading::is_mark;
use slang_tokens::{Kind, Mark, Word};

/// An open bracket: of arguments, or of a resource, which has one type.
#[derive(Clone, Copy)]
pub enum Open {
    Many,
    One,
}

/// What the next token has to be.
#[derive(Clone, Copy)]
pub enum Awaited {
    /// `<` behind a name.
    Begins,
    /// An argument.
    Item,
    /// A type.
    Inner,
    /// What may stand behind a name.
    Named,
    /// What may stand behind the name of a type.
    Typed,
    /// What may stand behind projections.
    Sized,
    /// `<` behind the word of a resource.
    Opens,
    /// A name behind a dot.
    Dotted,
    /// What stands between brackets.
    Bracketed,
    /// The bracket behind a length.
    Closing,
    /// What may stand behind an argument: a comma, or `>`.
    Ends,
    /// A comma.
    More,
    /// `>`.
    Close,
}

/// What a token does to the open brackets, and what is awaited then.
#[derive(Clone, Copy)]
pub enum Step {
    Keep(Awaited),
    Push(Open, Awaited),
    Pop,
    Refused,
}

fn expected(mark: Mark, kind: Kind, after: Step) -> Step
    ensures { result ≡ (if kinds.is_mark mark kind then after else steps.Refused) }
{
    if is_mark(mark, kind) {
        after
    } else {
        Step::Refused
    }
}

fn close(kind: Kind) -> Step
    ensures { result ≡ spec.close kind }
{
    if is_mark(Mark::Greater, kind) {
        Step::Pop
    } else {
        Step::Refused
    }
}

fn ends(top: Option<Open>, kind: Kind) -> Step
    ensures { result ≡ spec.ends top kind }
{
    match top {
        Some(Open::Many) => {
            if is_mark(Mark::Comma, kind) {
                Step::Keep(Awaited::Item)
            } else {
                close(kind)
            }
        }
        Some(Open::One) => close(kind),
        None => Step::Refused,
    }
}

fn sized(top: Option<Open>, kind: Kind) -> Step
    ensures { result ≡ spec.sized top kind }
{
    if is_mark(Mark::OpenBracket, kind) {
        Step::Keep(Awaited::Bracketed)
    } else {
        ends(top, kind)
    }
}

fn typed(top: Option<Open>, kind: Kind) -> Step
    ensures { result ≡ spec.typed top kind }
{
    if is_mark(Mark::Dot, kind) {
        Step::Keep(Awaited::Dotted)
    } else {
        sized(top, kind)
    }
}

fn named(top: Option<Open>, kind: Kind) -> Step
    ensures { result ≡ spec.named top kind }
{
    if is_mark(Mark::Less, kind) {
        Step::Push(Open::Many, Awaited::Item)
    } else {
        typed(top, kind)
    }
}

fn word_step(word: Word) -> Step
    ensures { result ≡ spec.word_step (use_of word) }
{
    if let Some(_) = builtin_of(word) {
        return Step::Keep(Awaited::Typed);
    }
    if let Some(_) = resource_of(word) {
        return Step::Keep(Awaited::Opens);
    }
    if is_this(word) {
        Step::Keep(Awaited::Typed)
    } else {
        Step::Refused
    }
}

fn inner(kind: Kind) -> Step
    ensures { result ≡ spec.inner kind }
{
    match kind {
        Kind::Name => Step::Keep(Awaited::Named),
        Kind::Word(word) => word_step(word),
        _ => Step::Refused,
    }
}

fn item(kind: Kind) -> Step
    ensures { result ≡ spec.item kind }
{
    match kind {
        Kind::Number(_) => Step::Keep(Awaited::Ends),
        _ => inner(kind),
    }
}

fn dotted(kind: Kind) -> Step
    ensures { result ≡ spec.dotted kind }
{
    match kind {
        Kind::Name => Step::Keep(Awaited::Typed),
        _ => Step::Refused,
    }
}

fn bracketed(kind: Kind) -> Step
    ensures { result ≡ spec.bracketed kind }
{
    match kind {
        Kind::Name => Step::Keep(Awaited::Closing),
        Kind::Number(_) => Step::Keep(Awaited::Closing),
        _ => Step::Refused,
    }
}

/// What a token of that kind does where that bracket is the innermost.
pub fn step_of(top: Option<Open>, awaited: Awaited, kind: Kind) -> Step
    ensures { result ≡ spec.step top awaited kind }
{
    match awaited {
        Awaited::Begins => expected(Mark::Less, kind, Step::Push(Open::Many, Awaited::Item)),
        Awaited::Item => item(kind),
        Awaited::Inner => inner(kind),
        Awaited::Named => named(top, kind),
        Awaited::Typed => typed(top, kind),
        Awaited::Sized => sized(top, kind),
        Awaited::Opens => expected(Mark::Less, kind, Step::Push(Open::One, Awaited::Inner)),
        Awaited::Dotted => dotted(kind),
        Awaited::Bracketed => bracketed(kind),
        Awaited::Closing => expected(Mark::CloseBracket, kind, Step::Keep(Awaited::Ends)),
        Awaited::Ends => ends(top, kind),
        Awaited::More => expected(Mark::Comma, kind, Step::Keep(Awaited::Item)),
        Awaited::Close => close(kind),
    }
}
