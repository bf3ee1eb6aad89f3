// Structs that stand in structs, and what both kinds of structs begin with.

ghost use Rattle.slang_reading.specs.Cursor.{Runs};
ghost use Rattle.declaration_grammar.specs.DeclarationsDescent as spec;
ghost use Rattle.type_reading.specs.Limited.{limits_of};
ghost use Rattle.ahead_reading.specs.Knowing.{Ready};

use crate::inner::inner_members;
use ahead_reading::Scans;
use part_reading::{closed, constraints, generics, heads};
use slang_names::Place;
use slang_reading::{Fault, Tokens, span};
use slang_tokens::Mark;
use slang_tree::{Constraint, GenericParameter, Identifier, InnerStruct};
use sqlite_items::Items;
use std::alloc::Global;
use type_reading::{Limits, expect, name};

/// What stands before the opening brace, which is taken too: the name, the generics, the heads and the constraints.
#[tactic(auto, unfolding(declaration_grammar::specs::DeclarationsDescent::struct_head, slang_reading::specs::Reading::bind))]
pub(crate) fn struct_head(
    alloc: Global,
    limits: Limits,
    tokens: &mut Tokens<'_>,
) -> Result<
    (
        Identifier,
        Items<GenericParameter>,
        Items<Identifier>,
        Items<Constraint>,
    ),
    Fault,
>
    ensures { Runs (spec.struct_head (limits_of limits) 0) tokens.old result tokens.new }
{
    let id = name(alloc, limits, tokens)?;
    let generics = generics(alloc, limits, tokens)?;
    let heads = heads(alloc, limits, tokens)?;
    let wheres = constraints(alloc, limits, tokens)?;
    expect(tokens, Mark::OpenBrace)?;
    Ok((id, generics, heads, wheres))
}

/// A struct in a struct, behind `struct`.
#[tactic(auto, unfolding(declaration_grammar::specs::DeclarationsDescent::inner_struct_rest, declaration_grammar::specs::DeclarationsDescent::inner_members, declaration_grammar::specs::DeclarationsDescent::struct_head, slang_reading::specs::Reading::bind))]
pub(crate) fn inner_struct_rest(
    alloc: Global,
    limits: Limits,
    scans: &Scans,
    tokens: &mut Tokens<'_>,
    depth: usize,
    begin: Place,
) -> Result<InnerStruct, Fault>
    requires { Ready limits scans.now tokens.old.tokens }
    ensures { Runs (spec.inner_struct_rest (limits_of limits) depth begin) tokens.old result tokens.new }
{
    let (name, generics, heads, wheres) = struct_head(alloc, limits, tokens)?;
    let members = inner_members(alloc, limits, scans, tokens, depth, true)?;
    let end = closed(tokens)?;
    Ok(InnerStruct {
        place: span(begin, end),
        name,
        generics,
        heads,
        wheres,
        members,
    })
}
