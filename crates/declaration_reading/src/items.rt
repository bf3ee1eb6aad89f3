// The declarations of a module.

ghost use Rattle.std.specs.Prelude.{◌≡◌, drop, Some};
ghost use Rattle.std.specs.Option.{option_map};
ghost use Rattle.slang_tree.specs.declared.file.ItemNode.TheVariants as d;
ghost use Rattle.slang_reading.specs.Lexed.{token_of};
ghost use Rattle.slang_reading.specs.Cursor.{Runs};
ghost use Rattle.slang_reading.specs.Reading.{Take, bind, chosen, first, pure};
ghost use Rattle.statement_grammar.specs.declared.attributes.Target.TheVariants as t;
ghost use Rattle.statement_grammar.specs.AttributesDescent.{if_suits};
ghost use Rattle.declaration_grammar.specs.DeclarationsDescent as spec;
ghost use Rattle.type_reading.specs.Limited.{limits_of};
ghost use Rattle.ahead_reading.specs.Knowing.{Ready};

use crate::extensions::extension_rest;
use crate::interfaces::interface_rest;
use ahead_reading::Scans;
use attribute_reading::misfit;
use declaration_grammar::{DeclarationUse, declaration_use};
use expression_reading::expressions;
use member_reading::{
    begins_parameters, function_rest, struct_rest, type_alias, type_def, type_name,
};
use part_reading::expect_word;
use slang_names::{ModuleCode, Place};
use slang_reading::{Fault, Tokens, is_mark, span};
use slang_tokens::{Mark, Token, Word};
use slang_tree::{Constant, Global as GlobalTree, Identifier, ItemNode, TypeTree};
use statement_grammar::{KnownAttribute, Target};
use std::alloc::Global;
use type_reading::{Limits, expect};

/// A constant behind `static`.
#[tactic(auto, unfolding(declaration_grammar::specs::DeclarationsDescent::constant_rest, slang_reading::specs::Reading::bind))]
fn constant_rest(
    alloc: Global,
    limits: Limits,
    scans: &Scans,
    tokens: &mut Tokens<'_>,
    depth: usize,
    begin: Place,
) -> Result<Constant, Fault>
    requires { Ready limits scans.now tokens.old.tokens }
    ensures { Runs (spec.constant_rest (limits_of limits) depth begin) tokens.old result tokens.new }
{
    expect_word(tokens, Word::Const)?;
    let (kind, name) = type_name(alloc, limits, tokens, depth)?;
    expect(tokens, Mark::Equal)?;
    let (value, _height) = expressions(alloc, limits, scans, tokens, depth)?;
    let end = expect(tokens, Mark::Semicolon)?;
    Ok(Constant {
        place: span(begin, end),
        kind,
        name,
        value,
    })
}

/// A function or a global behind a type and a name.
#[tactic(auto, unfolding(declaration_grammar::specs::DeclarationsDescent::item_typed, slang_reading::specs::Reading::bind, slang_reading::specs::Reading::next))]
fn item_typed(
    alloc: Global,
    limits: Limits,
    scans: &Scans,
    tokens: &mut Tokens<'_>,
    depth: usize,
    noted: &[(KnownAttribute, Place)],
    x: (TypeTree, Identifier),
) -> Result<ItemNode, Fault>
    requires { Ready limits scans.now tokens.old.tokens }
    ensures { Runs (spec.item_typed (limits_of limits) depth noted.now x) tokens.old result tokens.new }
{
    let Some(token) = tokens.peek() else {
        return Err(Fault::Stopped);
    };
    if begins_parameters(token.kind) {
        if let Some(place) = misfit(Target::Function, noted) {
            return Err(Fault::Past(ModuleCode::Unsupported, place));
        }
        let begin = x.0.place;
        let y = function_rest(alloc, limits, scans, tokens, depth, begin, false, x)?;
        return Ok(ItemNode::Function(y));
    }
    if is_mark(Mark::Semicolon, token.kind) {
        if let Some(place) = misfit(Target::Global, noted) {
            return Err(Fault::Past(ModuleCode::Unsupported, place));
        }
        tokens.bump();
        let (kind, name) = x;
        let place = span(kind.place, token.place);
        return Ok(ItemNode::Global(GlobalTree { place, kind, name }));
    }
    Err(Fault::Stopped)
}

/// A constant that begins with the next token, unless an attribute stands before it.
#[tactic(auto, unfolding(slang_reading::specs::Reading::bind))]
fn constant_item(
    alloc: Global,
    limits: Limits,
    scans: &Scans,
    tokens: &mut Tokens<'_>,
    depth: usize,
    noted: &[(KnownAttribute, Place)],
    token: Token,
) -> Result<ItemNode, Fault>
    requires ready { Ready limits scans.now tokens.old.tokens }
    requires next { Some token ≡ option_map token_of (first (drop tokens.old.at tokens.old.tokens)) }
    ensures { Runs (chosen (first (drop tokens.old.at tokens.old.tokens)) (if_suits (limits_of limits) t.Other noted.now (Take (bind (spec.constant_rest (limits_of limits) depth token.place) (λ y. pure (d.Constant y)))))) tokens.old result tokens.new }
{
    if let Some(place) = misfit(Target::Other, noted) {
        return Err(Fault::Past(ModuleCode::Unsupported, place));
    }
    tokens.bump();
    let y = constant_rest(alloc, limits, scans, tokens, depth, token.place)?;
    Ok(ItemNode::Constant(y))
}

/// An extension that begins with the next token, unless an attribute stands before it.
#[tactic(auto, unfolding(slang_reading::specs::Reading::bind))]
fn extension_item(
    alloc: Global,
    limits: Limits,
    scans: &Scans,
    tokens: &mut Tokens<'_>,
    depth: usize,
    noted: &[(KnownAttribute, Place)],
    token: Token,
) -> Result<ItemNode, Fault>
    requires ready { Ready limits scans.now tokens.old.tokens }
    requires next { Some token ≡ option_map token_of (first (drop tokens.old.at tokens.old.tokens)) }
    ensures { Runs (chosen (first (drop tokens.old.at tokens.old.tokens)) (if_suits (limits_of limits) t.Other noted.now (Take (bind (spec.extension_rest (limits_of limits) depth token.place) (λ y. pure (d.Extension y)))))) tokens.old result tokens.new }
{
    if let Some(place) = misfit(Target::Other, noted) {
        return Err(Fault::Past(ModuleCode::Unsupported, place));
    }
    tokens.bump();
    let y = extension_rest(alloc, limits, scans, tokens, depth, token.place)?;
    Ok(ItemNode::Extension(y))
}

/// A declaration behind its attributes and its access word.
#[tactic(auto, unfolding(declaration_grammar::specs::DeclarationsDescent::item_node, slang_reading::specs::Reading::bind, slang_reading::specs::Reading::next))]
pub(crate) fn item_node(
    alloc: Global,
    limits: Limits,
    scans: &Scans,
    tokens: &mut Tokens<'_>,
    depth: usize,
    noted: &[(KnownAttribute, Place)],
) -> Result<ItemNode, Fault>
    requires { Ready limits scans.now tokens.old.tokens }
    ensures { Runs (spec.item_node (limits_of limits) depth noted.now) tokens.old result tokens.new }
{
    let Some(token) = tokens.peek() else {
        return Err(Fault::Stopped);
    };
    let begin = token.place;
    match declaration_use(token.kind) {
        DeclarationUse::Struct => {
            if let Some(place) = misfit(Target::Other, noted) {
                return Err(Fault::Past(ModuleCode::Unsupported, place));
            }
            tokens.bump();
            let y = struct_rest(alloc, limits, scans, tokens, depth, begin)?;
            Ok(ItemNode::Struct(y))
        }
        DeclarationUse::Interface => {
            if let Some(place) = misfit(Target::Other, noted) {
                return Err(Fault::Past(ModuleCode::Unsupported, place));
            }
            tokens.bump();
            let y = interface_rest(alloc, limits, tokens, depth, begin)?;
            Ok(ItemNode::Interface(y))
        }
        DeclarationUse::Extension => {
            extension_item(alloc, limits, scans, tokens, depth, noted, token)
        }
        DeclarationUse::TypeDef => {
            if let Some(place) = misfit(Target::Other, noted) {
                return Err(Fault::Past(ModuleCode::Unsupported, place));
            }
            tokens.bump();
            let y = type_def(alloc, limits, tokens, depth, begin)?;
            Ok(ItemNode::Alias(y))
        }
        DeclarationUse::TypeAlias => {
            if let Some(place) = misfit(Target::Other, noted) {
                return Err(Fault::Past(ModuleCode::Unsupported, place));
            }
            tokens.bump();
            let y = type_alias(alloc, limits, tokens, depth, begin)?;
            Ok(ItemNode::Alias(y))
        }
        DeclarationUse::Static => constant_item(alloc, limits, scans, tokens, depth, noted, token),
        DeclarationUse::Typed => {
            let x = type_name(alloc, limits, tokens, depth)?;
            item_typed(alloc, limits, scans, tokens, depth, noted, x)
        }
        _ => Err(Fault::Stopped),
    }
}
