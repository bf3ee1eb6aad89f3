// Fields.

ghost use Rattle.slang_reading.specs.Cursor.{Runs};
ghost use Rattle.slang_reading.specs.Kinds.{sees};
ghost use Rattle.slang_reading.specs.Reading.{turns};
ghost use Rattle.slang_tokens.specs.declared.tokens.Mark.TheVariants as m;
ghost use Rattle.declaration_grammar.specs.DeclarationsDescent as spec;
ghost use Rattle.type_reading.specs.Limited.{limits_of};

use attribute_reading::{declared_name, lengths};
use slang_names::ModuleCode;
use slang_reading::{Fault, Tokens, span};
use slang_tokens::Mark;
use slang_tree::{DeclaredName, Field, Identifier, TypeTree};
use sqlite_items::Items;
use std::alloc::Global;
use type_reading::{Limits, expect};

/// A comma and one more name.
#[tactic(auto, unfolding(declaration_grammar::specs::DeclarationsDescent::field_more, slang_reading::specs::Reading::bind))]
fn field_more(
    alloc: Global,
    limits: Limits,
    tokens: &mut Tokens<'_>,
    mut list: Items<DeclaredName>,
) -> Result<Items<DeclaredName>, Fault>
    ensures { Runs (spec.field_more (limits_of limits) 0 list) tokens.old result tokens.new }
{
    expect(tokens, Mark::Comma)?;
    let (x, _end) = declared_name(alloc, limits, tokens)?;
    list.push(x)?;
    Ok(list)
}

/// The names behind the first.
fn field_names(
    alloc: Global,
    limits: Limits,
    tokens: &mut Tokens<'_>,
    mut list: Items<DeclaredName>,
) -> Result<Items<DeclaredName>, Fault>
    ensures { Runs (turns (sees m.Comma) (spec.field_more (limits_of limits) 0) limits.turns list) tokens.old result tokens.new }
{
    for _turn in 0..limits.turns {
        if !tokens.sees(Mark::Comma) {
            return Ok(list);
        }
        list = field_more(alloc, limits, tokens, list)?;
    }
    if tokens.sees(Mark::Comma) {
        return Err(Fault::Past(ModuleCode::TooLong, tokens.place()));
    }
    Ok(list)
}

/// Fields behind their type and the first name.
#[tactic(auto, unfolding(declaration_grammar::specs::DeclarationsDescent::field_rest, slang_reading::specs::Reading::bind))]
pub(crate) fn field_rest(
    alloc: Global,
    limits: Limits,
    tokens: &mut Tokens<'_>,
    x: (TypeTree, Identifier),
) -> Result<Field, Fault>
    ensures { Runs (spec.field_rest (limits_of limits) 0 x) tokens.old result tokens.new }
{
    let (kind, name) = x;
    let (sizes, last) = lengths(alloc, limits, tokens, name.place)?;
    let mut list = Items::new(alloc);
    list.push(DeclaredName {
        place: span(name.place, last),
        name,
        lengths: sizes,
    })?;
    let names = field_names(alloc, limits, tokens, list)?;
    let end = expect(tokens, Mark::Semicolon)?;
    Ok(Field {
        place: span(kind.place, end),
        kind,
        names,
    })
}
