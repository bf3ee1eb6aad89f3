// The descent into declared names.

ghost use Rattle.std.specs.Prelude.{[]};
ghost use Rattle.slang_reading.specs.Cursor.{Runs};
ghost use Rattle.slang_reading.specs.Kinds.{sees};
ghost use Rattle.slang_reading.specs.Reading.{turns};
ghost use Rattle.slang_tokens.specs.declared.tokens.Mark.TheVariants as m;
ghost use Rattle.statement_grammar.specs.StatementsDescent as spec;
ghost use Rattle.type_reading.specs.Limited.{limits_of};

use slang_names::{ModuleCode, Place};
use slang_reading::{Fault, Tokens, span};
use slang_tokens::Mark;
use slang_tree::{DeclaredName, Term};
use sqlite_items::Items;
use std::alloc::Global;
use type_reading::{Limits, bracketed, expect, name};

/// One more length in brackets.
#[tactic(auto, unfolding(statement_grammar::specs::StatementsDescent::length_more, slang_reading::specs::Reading::bind))]
fn length_more(
    alloc: Global,
    limits: Limits,
    tokens: &mut Tokens<'_>,
    list: (Items<Term>, Place),
) -> Result<(Items<Term>, Place), Fault>
    ensures { Runs (spec.length_more (limits_of limits) list) tokens.old result tokens.new }
{
    let (mut items, _last) = list;
    expect(tokens, Mark::OpenBracket)?;
    let x = bracketed(alloc, limits, tokens)?;
    let end = expect(tokens, Mark::CloseBracket)?;
    items.push(x)?;
    Ok((items, end))
}

/// The lengths in brackets behind a name at that place, and the place of the last token.
pub fn lengths(
    alloc: Global,
    limits: Limits,
    tokens: &mut Tokens<'_>,
    place: Place,
) -> Result<(Items<Term>, Place), Fault>
    ensures { Runs (turns (sees m.OpenBracket) (spec.length_more (limits_of limits)) limits.turns ([], place)) tokens.old result tokens.new }
{
    let mut list = (Items::new(alloc), place);
    for _turn in 0..limits.turns {
        if !tokens.sees(Mark::OpenBracket) {
            return Ok(list);
        }
        list = length_more(alloc, limits, tokens, list)?;
    }
    if tokens.sees(Mark::OpenBracket) {
        return Err(Fault::Past(ModuleCode::TooLong, tokens.place()));
    }
    Ok(list)
}

/// A name with lengths behind it, and the place of its last token.
#[tactic(auto, unfolding(statement_grammar::specs::StatementsDescent::declared_name, slang_reading::specs::Reading::bind))]
pub fn declared_name(
    alloc: Global,
    limits: Limits,
    tokens: &mut Tokens<'_>,
) -> Result<(DeclaredName, Place), Fault>
    ensures { Runs (spec.declared_name (limits_of limits)) tokens.old result tokens.new }
{
    let id = name(alloc, limits, tokens)?;
    let place = id.place;
    let (list, last) = lengths(alloc, limits, tokens, place)?;
    Ok((
        DeclaredName {
            place: span(place, last),
            name: id,
            lengths: list,
        },
        last,
    ))
}
