// Members of extensions and of structs in structs.

ghost use Rattle.std.specs.Prelude.{[]};
ghost use Rattle.slang_reading.specs.Cursor.{Runs};
ghost use Rattle.slang_reading.specs.Reading.{turns};
ghost use Rattle.declaration_grammar.specs.DeclarationsDescent as spec;
ghost use Rattle.type_reading.specs.Limited.{limits_of};
ghost use Rattle.ahead_reading.specs.Knowing.{Ready};

use crate::begins::{begins_inner, begins_parameters, goes_on_field};
use crate::fields::field_rest;
use crate::functions::{function_rest, static_rest, type_alias, type_def, type_name};
use ahead_reading::Scans;
use attribute_reading::{attributes, misfit};
use declaration_grammar::{DeclarationUse, declaration_use};
use part_reading::access;
use slang_names::{ModuleCode, Place};
use slang_reading::{Fault, Tokens};
use slang_tokens::Mark;
use slang_tree::{Identifier, InnerMember, InnerMemberNode, TypeTree};
use sqlite_items::Items;
use statement_grammar::{KnownAttribute, Target};
use std::alloc::Global;
use type_reading::Limits;

/// A function, or fields where they may stand, behind a type and a name.
#[tactic(auto, unfolding(declaration_grammar::specs::DeclarationsDescent::inner_typed, declaration_grammar::specs::DeclarationsDescent::field_rest, declaration_grammar::specs::DeclarationsDescent::field_more, slang_reading::specs::Reading::bind, slang_reading::specs::Reading::next))]
fn inner_typed(
    alloc: Global,
    limits: Limits,
    scans: &Scans,
    tokens: &mut Tokens<'_>,
    depth: usize,
    fields: bool,
    noted: &[(KnownAttribute, Place)],
    x: (TypeTree, Identifier),
) -> Result<InnerMemberNode, Fault>
    requires { Ready limits scans.now tokens.old.tokens }
    ensures { Runs (spec.inner_typed (limits_of limits) depth fields noted.now x) tokens.old result tokens.new }
{
    let Some(token) = tokens.peek() else {
        return Err(Fault::Stopped);
    };
    if begins_parameters(token.kind) {
        if let Some(place) = misfit(Target::Method, noted) {
            return Err(Fault::Past(ModuleCode::Unsupported, place));
        }
        let begin = x.0.place;
        let y = function_rest(alloc, limits, scans, tokens, depth, begin, false, x)?;
        return Ok(InnerMemberNode::Function(y));
    }
    if fields && goes_on_field(token.kind) {
        if let Some(place) = misfit(Target::Other, noted) {
            return Err(Fault::Past(ModuleCode::Unsupported, place));
        }
        let y = field_rest(alloc, limits, tokens, x)?;
        return Ok(InnerMemberNode::Field(y));
    }
    Err(Fault::Stopped)
}

/// A member behind its attributes and its access word.
#[tactic(auto, unfolding(declaration_grammar::specs::DeclarationsDescent::inner_node, slang_reading::specs::Reading::bind, slang_reading::specs::Reading::next))]
fn inner_node(
    alloc: Global,
    limits: Limits,
    scans: &Scans,
    tokens: &mut Tokens<'_>,
    depth: usize,
    fields: bool,
    noted: &[(KnownAttribute, Place)],
) -> Result<InnerMemberNode, Fault>
    requires { Ready limits scans.now tokens.old.tokens }
    ensures { Runs (spec.inner_node (limits_of limits) depth fields noted.now) tokens.old result tokens.new }
{
    let Some(token) = tokens.peek() else {
        return Err(Fault::Stopped);
    };
    let begin = token.place;
    match declaration_use(token.kind) {
        DeclarationUse::TypeDef => {
            if let Some(place) = misfit(Target::Other, noted) {
                return Err(Fault::Past(ModuleCode::Unsupported, place));
            }
            tokens.bump();
            let y = type_def(alloc, limits, tokens, depth, begin)?;
            Ok(InnerMemberNode::Alias(y))
        }
        DeclarationUse::TypeAlias => {
            if let Some(place) = misfit(Target::Other, noted) {
                return Err(Fault::Past(ModuleCode::Unsupported, place));
            }
            tokens.bump();
            let y = type_alias(alloc, limits, tokens, depth, begin)?;
            Ok(InnerMemberNode::Alias(y))
        }
        DeclarationUse::Static => {
            if let Some(place) = misfit(Target::Other, noted) {
                return Err(Fault::Past(ModuleCode::Unsupported, place));
            }
            tokens.bump();
            let y = static_rest(alloc, limits, scans, tokens, depth, begin)?;
            Ok(InnerMemberNode::Function(y))
        }
        DeclarationUse::Typed => {
            let x = type_name(alloc, limits, tokens, depth)?;
            inner_typed(alloc, limits, scans, tokens, depth, fields, noted, x)
        }
        _ => Err(Fault::Stopped),
    }
}

/// A member.
#[tactic(auto, unfolding(declaration_grammar::specs::DeclarationsDescent::inner_one, slang_reading::specs::Reading::bind))]
fn inner_one(
    alloc: Global,
    limits: Limits,
    scans: &Scans,
    tokens: &mut Tokens<'_>,
    depth: usize,
    fields: bool,
) -> Result<InnerMember, Fault>
    requires { Ready limits scans.now tokens.old.tokens }
    ensures { Runs (spec.inner_one (limits_of limits) depth fields) tokens.old result tokens.new }
{
    let targets = [Target::Method, Target::Other];
    let (given, noted) = attributes(alloc, limits, tokens, &targets)?;
    let access = access(tokens)?;
    let node = inner_node(
        alloc,
        limits,
        scans,
        tokens,
        depth,
        fields,
        noted.as_slice(),
    )?;
    Ok(InnerMember {
        attributes: given,
        access,
        node,
    })
}

/// One more member.
#[tactic(auto, unfolding(declaration_grammar::specs::DeclarationsDescent::inner_more, slang_reading::specs::Reading::bind, slang_reading::specs::Reading::next))]
fn inner_more(
    alloc: Global,
    limits: Limits,
    scans: &Scans,
    tokens: &mut Tokens<'_>,
    depth: usize,
    fields: bool,
    mut list: Items<InnerMember>,
) -> Result<Items<InnerMember>, Fault>
    requires { Ready limits scans.now tokens.old.tokens }
    ensures { Runs (spec.inner_more (limits_of limits) depth fields list) tokens.old result tokens.new }
{
    if !begins_inner(tokens) {
        return Err(Fault::Stopped);
    }
    if list.len() >= limits.items {
        return Err(Fault::Past(ModuleCode::TooLong, tokens.place()));
    }
    let y = inner_one(alloc, limits, scans, tokens, depth, fields)?;
    list.push(y)?;
    Ok(list)
}

/// Members up to the closing brace, with fields among them or without.
pub fn inner_members(
    alloc: Global,
    limits: Limits,
    scans: &Scans,
    tokens: &mut Tokens<'_>,
    depth: usize,
    fields: bool,
) -> Result<Items<InnerMember>, Fault>
    requires { Ready limits scans.now tokens.old.tokens }
    ensures { Runs (turns (spec.in_braces (limits_of limits) depth) (spec.inner_more (limits_of limits) depth fields) limits.turns []) tokens.old result tokens.new }
{
    let mut list = Items::new(alloc);
    for _turn in 0..limits.turns {
        if tokens.sees(Mark::CloseBrace) {
            return Ok(list);
        }
        list = inner_more(alloc, limits, scans, tokens, depth, fields, list)?;
    }
    if !tokens.sees(Mark::CloseBrace) {
        return Err(Fault::Past(ModuleCode::TooLong, tokens.place()));
    }
    Ok(list)
}
