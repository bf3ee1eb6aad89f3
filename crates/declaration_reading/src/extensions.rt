// Extensions.

ghost use Rattle.slang_reading.specs.Cursor.{Runs};
ghost use Rattle.declaration_grammar.specs.DeclarationsDescent as spec;
ghost use Rattle.type_reading.specs.Limited.{limits_of};
ghost use Rattle.ahead_reading.specs.Knowing.{Ready};

use crate::extended::extended;
use ahead_reading::Scans;
use member_reading::inner_members;
use part_reading::{closed, constraints, generics, heads};
use slang_names::Place;
use slang_reading::{Fault, Tokens, span};
use slang_tokens::Mark;
use slang_tree::Extension;
use std::alloc::Global;
use type_reading::{Limits, expect, name};

/// An extension behind its word.
#[tactic(auto, unfolding(declaration_grammar::specs::DeclarationsDescent::extension_rest, declaration_grammar::specs::DeclarationsDescent::inner_members, slang_reading::specs::Reading::bind))]
pub(crate) fn extension_rest(
    alloc: Global,
    limits: Limits,
    scans: &Scans,
    tokens: &mut Tokens<'_>,
    depth: usize,
    begin: Place,
) -> Result<Extension, Fault>
    requires { Ready limits scans.now tokens.old.tokens }
    ensures { Runs (spec.extension_rest (limits_of limits) depth begin) tokens.old result tokens.new }
{
    let generics = generics(alloc, limits, tokens)?;
    let id = name(alloc, limits, tokens)?;
    let arguments = extended(alloc, limits, tokens, depth)?;
    let heads = heads(alloc, limits, tokens)?;
    let wheres = constraints(alloc, limits, tokens)?;
    expect(tokens, Mark::OpenBrace)?;
    let members = inner_members(alloc, limits, scans, tokens, depth, false)?;
    let end = closed(tokens)?;
    Ok(Extension {
        place: span(begin, end),
        generics,
        name: id,
        arguments,
        heads,
        wheres,
        members,
    })
}
