// The descent into what something conforms to: heads and constraints.

ghost use Rattle.std.specs.Prelude.{[]};
ghost use Rattle.slang_reading.specs.Cursor.{Runs};
ghost use Rattle.slang_reading.specs.Kinds.{sees, sees_word};
ghost use Rattle.slang_reading.specs.Reading.{turns};
ghost use Rattle.slang_tokens.specs.declared.tokens.Mark.TheVariants as m;
ghost use Rattle.slang_tokens.specs.declared.tokens.Word.TheVariants as w;
ghost use Rattle.declaration_grammar.specs.PartsDescent as spec;
ghost use Rattle.type_reading.specs.Limited.{limits_of};

use crate::marks::expect_word;
use slang_names::{ModuleCode, Place};
use slang_reading::{Fault, Tokens, span};
use slang_tokens::{Mark, Word};
use slang_tree::{Constraint, Identifier};
use sqlite_items::Items;
use std::alloc::Global;
use type_reading::{Limits, expect, name};

/// A comma and one more name.
#[tactic(auto, unfolding(declaration_grammar::specs::PartsDescent::name_behind, slang_reading::specs::Reading::bind))]
fn name_behind(
    alloc: Global,
    limits: Limits,
    tokens: &mut Tokens<'_>,
    list: (Items<Identifier>, Place),
) -> Result<(Items<Identifier>, Place), Fault>
    ensures { Runs (spec.name_behind (limits_of limits) list) tokens.old result tokens.new }
{
    let (mut items, _last) = list;
    expect(tokens, Mark::Comma)?;
    let id = name(alloc, limits, tokens)?;
    let place = id.place;
    items.push(id)?;
    Ok((items, place))
}

/// The names behind the first.
fn name_list(
    alloc: Global,
    limits: Limits,
    tokens: &mut Tokens<'_>,
    mut list: (Items<Identifier>, Place),
) -> Result<(Items<Identifier>, Place), Fault>
    ensures { Runs (turns (sees m.Comma) (spec.name_behind (limits_of limits)) limits.turns list) tokens.old result tokens.new }
{
    for _turn in 0..limits.turns {
        if !tokens.sees(Mark::Comma) {
            return Ok(list);
        }
        list = name_behind(alloc, limits, tokens, list)?;
    }
    if tokens.sees(Mark::Comma) {
        return Err(Fault::Past(ModuleCode::TooLong, tokens.place()));
    }
    Ok(list)
}

/// Names with commas between them, and the place of the last one.
#[tactic(auto, unfolding(declaration_grammar::specs::PartsDescent::names, slang_reading::specs::Reading::bind))]
fn names(
    alloc: Global,
    limits: Limits,
    tokens: &mut Tokens<'_>,
) -> Result<(Items<Identifier>, Place), Fault>
    ensures { Runs (spec.names (limits_of limits)) tokens.old result tokens.new }
{
    let id = name(alloc, limits, tokens)?;
    let place = id.place;
    let mut items = Items::new(alloc);
    items.push(id)?;
    name_list(alloc, limits, tokens, (items, place))
}

/// The names behind a colon, or none.
#[tactic(auto, unfolding(declaration_grammar::specs::PartsDescent::heads, slang_reading::specs::Reading::bind, slang_reading::specs::Reading::next))]
pub fn heads(
    alloc: Global,
    limits: Limits,
    tokens: &mut Tokens<'_>,
) -> Result<Items<Identifier>, Fault>
    ensures { Runs (spec.heads (limits_of limits)) tokens.old result tokens.new }
{
    if !tokens.sees(Mark::Colon) {
        return Ok(Items::new(alloc));
    }
    tokens.bump();
    let (list, _last) = names(alloc, limits, tokens)?;
    Ok(list)
}

/// One more constraint.
#[tactic(auto, unfolding(declaration_grammar::specs::PartsDescent::constraint_more, slang_reading::specs::Reading::bind))]
fn constraint_more(
    alloc: Global,
    limits: Limits,
    tokens: &mut Tokens<'_>,
    mut all: Items<Constraint>,
) -> Result<Items<Constraint>, Fault>
    ensures { Runs (spec.constraint_more (limits_of limits) all) tokens.old result tokens.new }
{
    let begin = expect_word(tokens, Word::Where)?;
    let subject = name(alloc, limits, tokens)?;
    expect(tokens, Mark::Colon)?;
    let (interfaces, last) = names(alloc, limits, tokens)?;
    all.push(Constraint {
        place: span(begin, last),
        subject,
        interfaces,
    })?;
    Ok(all)
}

/// What stands behind each `where`.
#[tactic(auto, unfolding(declaration_grammar::specs::PartsDescent::constraints))]
pub fn constraints(
    alloc: Global,
    limits: Limits,
    tokens: &mut Tokens<'_>,
) -> Result<Items<Constraint>, Fault>
    ensures { Runs (spec.constraints (limits_of limits)) tokens.old result tokens.new }
{
    let mut list = Items::new(alloc);
    for _turn in 0..limits.turns {
        if !tokens.sees_word(Word::Where) {
            return Ok(list);
        }
        list = constraint_more(alloc, limits, tokens, list)?;
    }
    if tokens.sees_word(Word::Where) {
        return Err(Fault::Past(ModuleCode::TooLong, tokens.place()));
    }
    Ok(list)
}
