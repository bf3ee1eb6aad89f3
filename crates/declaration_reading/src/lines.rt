// The lines before the declarations: the name of the module, and what it imports.

ghost use Rattle.std.specs.Prelude.{[]};
ghost use Rattle.slang_reading.specs.Cursor.{Runs};
ghost use Rattle.slang_reading.specs.Kinds.{sees_word};
ghost use Rattle.slang_reading.specs.Reading.{turns};
ghost use Rattle.slang_tokens.specs.declared.tokens.Word.TheVariants as w;
ghost use Rattle.declaration_grammar.specs.DeclarationsDescent as spec;
ghost use Rattle.type_reading.specs.Limited.{limits_of};

use part_reading::expect_word;
use slang_names::{ModuleCode, Place};
use slang_reading::{Fault, Tokens, is_word, span};
use slang_tokens::{Mark, Word};
use slang_tree::ModuleLine;
use sqlite_items::Items;
use std::alloc::Global;
use type_reading::{Limits, expect, name};

/// A line behind the word that begins it.
#[tactic(auto, unfolding(declaration_grammar::specs::DeclarationsDescent::line_rest, slang_reading::specs::Reading::bind))]
fn line_rest(
    alloc: Global,
    limits: Limits,
    tokens: &mut Tokens<'_>,
    _depth: usize,
    begin: Place,
) -> Result<ModuleLine, Fault>
    ensures { Runs (spec.line_rest (limits_of limits) _depth begin) tokens.old result tokens.new }
{
    let id = name(alloc, limits, tokens)?;
    let end = expect(tokens, Mark::Semicolon)?;
    Ok(ModuleLine {
        place: span(begin, end),
        name: id,
    })
}

/// The line of the module, or none.
#[tactic(auto, unfolding(declaration_grammar::specs::DeclarationsDescent::module_line, slang_reading::specs::Reading::bind, slang_reading::specs::Reading::next))]
pub(crate) fn module_line(
    alloc: Global,
    limits: Limits,
    tokens: &mut Tokens<'_>,
    depth: usize,
) -> Result<Option<ModuleLine>, Fault>
    ensures { Runs (spec.module_line (limits_of limits) depth) tokens.old result tokens.new }
{
    let Some(token) = tokens.peek() else {
        return Ok(None);
    };
    if !is_word(Word::Module, token.kind) {
        return Ok(None);
    }
    tokens.bump();
    let line = line_rest(alloc, limits, tokens, depth, token.place)?;
    Ok(Some(line))
}

/// One more import.
#[tactic(auto, unfolding(declaration_grammar::specs::DeclarationsDescent::import_more, slang_reading::specs::Reading::bind))]
fn import_more(
    alloc: Global,
    limits: Limits,
    tokens: &mut Tokens<'_>,
    depth: usize,
    mut list: Items<ModuleLine>,
) -> Result<Items<ModuleLine>, Fault>
    ensures { Runs (spec.import_more (limits_of limits) depth list) tokens.old result tokens.new }
{
    let begin = expect_word(tokens, Word::Import)?;
    let line = line_rest(alloc, limits, tokens, depth, begin)?;
    list.push(line)?;
    Ok(list)
}

/// All imports.
pub(crate) fn imports(
    alloc: Global,
    limits: Limits,
    tokens: &mut Tokens<'_>,
    depth: usize,
) -> Result<Items<ModuleLine>, Fault>
    ensures { Runs (turns (sees_word w.Import) (spec.import_more (limits_of limits) depth) limits.turns []) tokens.old result tokens.new }
{
    let mut list = Items::new(alloc);
    for _turn in 0..limits.turns {
        if !tokens.sees_word(Word::Import) {
            return Ok(list);
        }
        list = import_more(alloc, limits, tokens, depth, list)?;
    }
    if tokens.sees_word(Word::Import) {
        return Err(Fault::Past(ModuleCode::TooLong, tokens.place()));
    }
    Ok(list)
}
