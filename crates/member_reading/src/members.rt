// Structs of a module with their members.

ghost use Rattle.std.specs.Prelude.{[]};
ghost use Rattle.slang_reading.specs.Cursor.{Runs};
ghost use Rattle.slang_reading.specs.Reading.{turns};
ghost use Rattle.declaration_grammar.specs.DeclarationsDescent as spec;
ghost use Rattle.type_reading.specs.Limited.{limits_of};
ghost use Rattle.ahead_reading.specs.Knowing.{Ready};

use crate::begins::{begins_member, begins_parameters, goes_on_field};
use crate::fields::field_rest;
use crate::functions::{function_rest, static_rest, type_alias, type_def, type_name};
use crate::structs::{inner_struct_rest, struct_head};
use ahead_reading::Scans;
use attribute_reading::{attributes, misfit};
use declaration_grammar::{DeclarationUse, declaration_use};
use part_reading::{access, closed};
use slang_names::{ModuleCode, Place};
use slang_reading::{Fault, Tokens, span};
use slang_tokens::Mark;
use slang_tree::{Identifier, Member, MemberNode, Struct, TypeTree};
use sqlite_items::Items;
use statement_grammar::{KnownAttribute, Target};
use std::alloc::Global;
use type_reading::Limits;

/// A function or fields behind a type and a name.
#[tactic(auto, unfolding(declaration_grammar::specs::DeclarationsDescent::member_typed, declaration_grammar::specs::DeclarationsDescent::field_rest, declaration_grammar::specs::DeclarationsDescent::field_more, slang_reading::specs::Reading::bind, slang_reading::specs::Reading::next))]
fn member_typed(
    alloc: Global,
    limits: Limits,
    scans: &Scans,
    tokens: &mut Tokens<'_>,
    depth: usize,
    noted: &[(KnownAttribute, Place)],
    x: (TypeTree, Identifier),
) -> Result<MemberNode, Fault>
    requires { Ready limits scans.now tokens.old.tokens }
    ensures { Runs (spec.member_typed (limits_of limits) depth noted.now x) tokens.old result tokens.new }
{
    let Some(token) = tokens.peek() else {
        return Err(Fault::Stopped);
    };
    if begins_parameters(token.kind) {
        if let Some(place) = misfit(Target::Method, noted) {
            return Err(Fault::Past(ModuleCode::Unsupported, place));
        }
        let begin = x.0.place;
        let y = function_rest(alloc, limits, scans, tokens, depth, begin, false, x)?;
        return Ok(MemberNode::Function(y));
    }
    if goes_on_field(token.kind) {
        if let Some(place) = misfit(Target::Other, noted) {
            return Err(Fault::Past(ModuleCode::Unsupported, place));
        }
        let y = field_rest(alloc, limits, tokens, x)?;
        return Ok(MemberNode::Field(y));
    }
    Err(Fault::Stopped)
}

/// A member behind its attributes and its access word.
#[tactic(auto, unfolding(declaration_grammar::specs::DeclarationsDescent::member_node, slang_reading::specs::Reading::bind, slang_reading::specs::Reading::next))]
fn member_node(
    alloc: Global,
    limits: Limits,
    scans: &Scans,
    tokens: &mut Tokens<'_>,
    depth: usize,
    noted: &[(KnownAttribute, Place)],
) -> Result<MemberNode, Fault>
    requires { Ready limits scans.now tokens.old.tokens }
    ensures { Runs (spec.member_node (limits_of limits) depth noted.now) tokens.old result tokens.new }
{
    let Some(token) = tokens.peek() else {
        return Err(Fault::Stopped);
    };
    let begin = token.place;
    match declaration_use(token.kind) {
        DeclarationUse::Struct => {
            if let Some(place) = misfit(Target::Other, noted) {
                return Err(Fault::Past(ModuleCode::Unsupported, place));
            }
            tokens.bump();
            let y = inner_struct_rest(alloc, limits, scans, tokens, depth, begin)?;
            Ok(MemberNode::Struct(y))
        }
        DeclarationUse::TypeDef => {
            if let Some(place) = misfit(Target::Other, noted) {
                return Err(Fault::Past(ModuleCode::Unsupported, place));
            }
            tokens.bump();
            let y = type_def(alloc, limits, tokens, depth, begin)?;
            Ok(MemberNode::Alias(y))
        }
        DeclarationUse::TypeAlias => {
            if let Some(place) = misfit(Target::Other, noted) {
                return Err(Fault::Past(ModuleCode::Unsupported, place));
            }
            tokens.bump();
            let y = type_alias(alloc, limits, tokens, depth, begin)?;
            Ok(MemberNode::Alias(y))
        }
        DeclarationUse::Static => {
            if let Some(place) = misfit(Target::Other, noted) {
                return Err(Fault::Past(ModuleCode::Unsupported, place));
            }
            tokens.bump();
            let y = static_rest(alloc, limits, scans, tokens, depth, begin)?;
            Ok(MemberNode::Function(y))
        }
        DeclarationUse::Typed => {
            let x = type_name(alloc, limits, tokens, depth)?;
            member_typed(alloc, limits, scans, tokens, depth, noted, x)
        }
        _ => Err(Fault::Stopped),
    }
}

/// A member.
#[tactic(auto, unfolding(declaration_grammar::specs::DeclarationsDescent::member_one, slang_reading::specs::Reading::bind))]
fn member_one(
    alloc: Global,
    limits: Limits,
    scans: &Scans,
    tokens: &mut Tokens<'_>,
    depth: usize,
) -> Result<Member, Fault>
    requires { Ready limits scans.now tokens.old.tokens }
    ensures { Runs (spec.member_one (limits_of limits) depth) tokens.old result tokens.new }
{
    let targets = [Target::Method, Target::Other];
    let (given, noted) = attributes(alloc, limits, tokens, &targets)?;
    let access = access(tokens)?;
    let node = member_node(alloc, limits, scans, tokens, depth, noted.as_slice())?;
    Ok(Member {
        attributes: given,
        access,
        node,
    })
}

/// One more member.
fn member_more(
    alloc: Global,
    limits: Limits,
    scans: &Scans,
    tokens: &mut Tokens<'_>,
    depth: usize,
    mut list: Items<Member>,
) -> Result<Items<Member>, Fault>
    requires { Ready limits scans.now tokens.old.tokens }
    ensures { Runs (spec.member_more (limits_of limits) depth list) tokens.old result tokens.new }
{
    if !begins_member(tokens) {
        return Err(Fault::Stopped);
    }
    if list.len() >= limits.items {
        return Err(Fault::Past(ModuleCode::TooLong, tokens.place()));
    }
    let y = member_one(alloc, limits, scans, tokens, depth)?;
    list.push(y)?;
    Ok(list)
}

/// Members up to the closing brace.
fn members(
    alloc: Global,
    limits: Limits,
    scans: &Scans,
    tokens: &mut Tokens<'_>,
    depth: usize,
) -> Result<Items<Member>, Fault>
    requires { Ready limits scans.now tokens.old.tokens }
    ensures { Runs (turns (spec.in_braces (limits_of limits) depth) (spec.member_more (limits_of limits) depth) limits.turns []) tokens.old result tokens.new }
{
    let mut list = Items::new(alloc);
    for _turn in 0..limits.turns {
        if tokens.sees(Mark::CloseBrace) {
            return Ok(list);
        }
        list = member_more(alloc, limits, scans, tokens, depth, list)?;
    }
    if !tokens.sees(Mark::CloseBrace) {
        return Err(Fault::Past(ModuleCode::TooLong, tokens.place()));
    }
    Ok(list)
}

/// A struct of a module, behind `struct`.
#[tactic(auto, unfolding(declaration_grammar::specs::DeclarationsDescent::struct_rest, declaration_grammar::specs::DeclarationsDescent::struct_head, slang_reading::specs::Reading::bind))]
pub fn struct_rest(
    alloc: Global,
    limits: Limits,
    scans: &Scans,
    tokens: &mut Tokens<'_>,
    depth: usize,
    begin: Place,
) -> Result<Struct, Fault>
    requires { Ready limits scans.now tokens.old.tokens }
    ensures { Runs (spec.struct_rest (limits_of limits) depth begin) tokens.old result tokens.new }
{
    let (name, generics, heads, wheres) = struct_head(alloc, limits, tokens)?;
    let members = members(alloc, limits, scans, tokens, depth)?;
    let end = closed(tokens)?;
    Ok(Struct {
        place: span(begin, end),
        name,
        generics,
        heads,
        wheres,
        members,
    })
}
