// The descent into a whole file.

ghost use Rattle.std.specs.Prelude.{◌≡◌, [], ℕ, drop};
ghost use Rattle.slang_reading.specs.Cursor.{Runs, looked};
ghost use Rattle.slang_reading.specs.Reading.{first, turns};
ghost use Rattle.slang_grammar.specs.Descent as descent;
ghost use Rattle.declaration_grammar.specs.DeclarationsDescent as spec;
ghost use Rattle.type_reading.specs.Limited.{limits_of};
ghost use Rattle.ahead_reading.specs.Knowing.{Ready};

use crate::items::item_node;
use crate::lines::{imports, module_line};
use ahead_reading::Scans;
use attribute_reading::attributes;
use declaration_grammar::access_of;
use slang_names::{Access, ModuleCode};
use slang_reading::{Fault, Tokens};
use slang_tokens::Kind;
use slang_tree::{File, Item};
use sqlite_items::Items;
use statement_grammar::Target;
use std::alloc::Global;
use type_reading::Limits;

/// The access word of a declaration, which is not `private`, or none.
#[tactic(auto, unfolding(declaration_grammar::specs::DeclarationsDescent::item_access, slang_reading::specs::Reading::next))]
fn item_access(tokens: &mut Tokens<'_>) -> Result<Option<Access>, Fault>
    ensures { (limits : descent.Limits) (nodes : ℕ) → Runs (spec.item_access limits nodes) tokens.old result tokens.new }
{
    let Some(token) = tokens.peek() else {
        return Ok(None);
    };
    match token.kind {
        Kind::Word(word) => match access_of(word) {
            Some(Access::Private) => Err(Fault::Stopped),
            Some(access) => {
                tokens.bump();
                Ok(Some(access))
            }
            None => Ok(None),
        },
        _ => Ok(None),
    }
}

/// One more declaration.
#[tactic(auto, unfolding(declaration_grammar::specs::DeclarationsDescent::item_more, slang_reading::specs::Reading::bind))]
fn item_more(
    alloc: Global,
    limits: Limits,
    scans: &Scans,
    tokens: &mut Tokens<'_>,
    depth: usize,
    mut list: Items<Item>,
) -> Result<Items<Item>, Fault>
    requires { Ready limits scans.now tokens.old.tokens }
    ensures { Runs (spec.item_more (limits_of limits) depth list) tokens.old result tokens.new }
{
    let targets = [Target::Function, Target::Global, Target::Other];
    let (given, noted) = attributes(alloc, limits, tokens, &targets)?;
    let access = item_access(tokens)?;
    let node = item_node(alloc, limits, scans, tokens, depth, noted.as_slice())?;
    list.push(Item {
        attributes: given,
        access,
        node,
    })?;
    Ok(list)
}

/// Whether a token stands there.
fn sees_token(tokens: &mut Tokens<'_>) -> bool
    ensures is { (limits : descent.Limits) (nodes : ℕ) → result ≡ spec.is_token limits nodes (first (drop tokens.old.at tokens.old.tokens)) }
    ensures after { tokens.new ≡ looked tokens.old }
{
    tokens.peek().is_some()
}

/// All declarations, up to the end of the text.
fn items(
    alloc: Global,
    limits: Limits,
    scans: &Scans,
    tokens: &mut Tokens<'_>,
    depth: usize,
) -> Result<Items<Item>, Fault>
    requires { Ready limits scans.now tokens.old.tokens }
    ensures { Runs (turns (spec.is_token (limits_of limits) depth) (spec.item_more (limits_of limits) depth) limits.turns []) tokens.old result tokens.new }
{
    let mut list = Items::new(alloc);
    for _turn in 0..limits.turns {
        if !sees_token(tokens) {
            return Ok(list);
        }
        list = item_more(alloc, limits, scans, tokens, depth, list)?;
    }
    if sees_token(tokens) {
        return Err(Fault::Past(ModuleCode::TooLong, tokens.place()));
    }
    Ok(list)
}

/// The whole text, of which at most so many nodes stand on a path.
#[tactic(auto, unfolding(declaration_grammar::specs::DeclarationsDescent::files, slang_reading::specs::Reading::bind))]
pub fn files(
    alloc: Global,
    limits: Limits,
    scans: &Scans,
    tokens: &mut Tokens<'_>,
    depth: usize,
) -> Result<File, Fault>
    requires { Ready limits scans.now tokens.old.tokens }
    ensures { Runs (spec.files (limits_of limits) depth) tokens.old result tokens.new }
{
    let line = module_line(alloc, limits, tokens, depth)?;
    let imports = imports(alloc, limits, tokens, depth)?;
    let items = items(alloc, limits, scans, tokens, depth)?;
    Ok(File {
        module: line,
        imports,
        items,
    })
}
