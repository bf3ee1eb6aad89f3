// What an interface requires.

ghost use Rattle.std.specs.Prelude.{◌≡◌, ℕ, drop};
ghost use Rattle.slang_reading.specs.Reading.{first};
ghost use Rattle.slang_reading.specs.Cursor.{Runs, looked};
ghost use Rattle.slang_grammar.specs.Descent as descent;
ghost use Rattle.statement_grammar.specs.Attributes.{begin_of};
ghost use Rattle.declaration_grammar.specs.DeclarationsDescent as spec;
ghost use Rattle.type_reading.specs.Limited.{limits_of};

use attribute_reading::{attributes, misfit};
use declaration_grammar::{DeclarationUse, declaration_use};
use member_reading::type_name;
use part_reading::parameters;
use slang_names::{ModuleCode, Place};
use slang_reading::{Fault, Tokens, is_mark, span};
use slang_tokens::Mark;
use slang_tree::{Attribute, Identifier, Requirement, RequirementNode, TypeTree};
use sqlite_items::Items;
use statement_grammar::Target;
use std::alloc::Global;
use type_reading::{Limits, expect, name};

/// Whether a requirement begins with the next token.
pub(crate) fn begins_requirement(tokens: &mut Tokens<'_>) -> bool
    ensures is { (limits : descent.Limits) (nodes : ℕ) → result ≡ spec.requirement_begins limits nodes (first (drop tokens.old.at tokens.old.tokens)) }
    ensures after { tokens.new ≡ looked tokens.old }
{
    let Some(token) = tokens.peek() else {
        return false;
    };
    if is_mark(Mark::OpenBracket, token.kind) {
        return true;
    }
    match declaration_use(token.kind) {
        DeclarationUse::Associated => true,
        DeclarationUse::Static => true,
        DeclarationUse::Typed => true,
        _ => false,
    }
}

/// Where a thing begins that has these attributes before a token at that place.
fn begin_of(given: &[Attribute], place: Place) -> Place
    ensures { result ≡ begin_of given.now place }
{
    match given.split_first() {
        Some((entry, _rest)) => entry.place,
        None => place,
    }
}

/// An associated type behind its word.
#[tactic(auto, unfolding(declaration_grammar::specs::DeclarationsDescent::associated, slang_reading::specs::Reading::bind, slang_reading::specs::Reading::next))]
fn associated(
    alloc: Global,
    limits: Limits,
    tokens: &mut Tokens<'_>,
    _depth: usize,
    begin: Place,
) -> Result<Requirement, Fault>
    ensures { Runs (spec.associated (limits_of limits) _depth begin) tokens.old result tokens.new }
{
    let id = name(alloc, limits, tokens)?;
    if !tokens.sees(Mark::Colon) {
        let end = expect(tokens, Mark::Semicolon)?;
        return Ok(Requirement {
            place: span(begin, end),
            node: RequirementNode::Associated(id, None),
        });
    }
    tokens.bump();
    let bound = name(alloc, limits, tokens)?;
    let end = expect(tokens, Mark::Semicolon)?;
    Ok(Requirement {
        place: span(begin, end),
        node: RequirementNode::Associated(id, Some(bound)),
    })
}

/// A function behind its name.
#[tactic(auto, unfolding(declaration_grammar::specs::DeclarationsDescent::required, slang_reading::specs::Reading::bind))]
fn required(
    alloc: Global,
    limits: Limits,
    tokens: &mut Tokens<'_>,
    depth: usize,
    given: Items<Attribute>,
    is_static: bool,
    begin: Place,
    x: (TypeTree, Identifier),
) -> Result<Requirement, Fault>
    ensures { Runs (spec.required (limits_of limits) depth given is_static begin x) tokens.old result tokens.new }
{
    let (kind, id) = x;
    let parameters = parameters(alloc, limits, tokens, depth)?;
    let end = expect(tokens, Mark::Semicolon)?;
    let place = span(begin_of(given.as_slice(), begin), end);
    Ok(Requirement {
        place,
        node: RequirementNode::Function(given, is_static, kind, id, parameters),
    })
}

/// A requirement.
#[tactic(auto, unfolding(declaration_grammar::specs::DeclarationsDescent::requirement, slang_reading::specs::Reading::bind, slang_reading::specs::Reading::next))]
pub(crate) fn requirement(
    alloc: Global,
    limits: Limits,
    tokens: &mut Tokens<'_>,
    depth: usize,
) -> Result<Requirement, Fault>
    ensures { Runs (spec.requirement (limits_of limits) depth) tokens.old result tokens.new }
{
    let targets = [Target::Method, Target::Other];
    let (given, noted) = attributes(alloc, limits, tokens, &targets)?;
    let Some(token) = tokens.peek() else {
        return Err(Fault::Stopped);
    };
    let begin = token.place;
    match declaration_use(token.kind) {
        DeclarationUse::Associated => {
            if let Some((_entry, _rest)) = given.as_slice().split_first() {
                return Err(Fault::Stopped);
            }
            tokens.bump();
            associated(alloc, limits, tokens, depth, begin)
        }
        DeclarationUse::Static => {
            if let Some(place) = misfit(Target::Other, noted.as_slice()) {
                return Err(Fault::Past(ModuleCode::Unsupported, place));
            }
            tokens.bump();
            let x = type_name(alloc, limits, tokens, depth)?;
            required(alloc, limits, tokens, depth, given, true, begin, x)
        }
        DeclarationUse::Typed => {
            if let Some(place) = misfit(Target::Method, noted.as_slice()) {
                return Err(Fault::Past(ModuleCode::Unsupported, place));
            }
            let x = type_name(alloc, limits, tokens, depth)?;
            let first = x.0.place;
            required(alloc, limits, tokens, depth, given, false, first, x)
        }
        _ => Err(Fault::Stopped),
    }
}
