// What locals begin with: an expression, or a list in braces.

ghost use Rattle.std.specs.Prelude.{◌≡◌, ◌<◌, ◌^◌, ◌+◌, ◌||◌, true, [], ◌∷◌};
ghost use Rattle.slang_reading.specs.Cursor.{Runs};
ghost use Rattle.slang_reading.specs.Kinds as kinds;
ghost use Rattle.slang_reading.specs.Reading.{turns};
ghost use Rattle.slang_tokens.specs.declared.tokens.Mark.TheVariants as m;
ghost use Rattle.slang_grammar.specs.ExpressionsDescent.{begins_by, expressions};
ghost use Rattle.statement_grammar.specs.StatementsDescent as spec;
ghost use Rattle.type_reading.specs.Limited.{limits_of};
ghost use Rattle.ahead_reading.specs.Knowing.{Ready};

use ahead_reading::Scans;
use expression_reading::{begins_expression, expressions};
use slang_names::{ModuleCode, Place};
use slang_reading::{Fault, Tokens, is_mark, span};
use slang_tokens::{Kind, Mark};
use slang_tree::{Initializer, ListTree};
use sqlite_items::Items;
use std::alloc::Global;
use type_reading::{Limits, expect};

/// Whether an expression or a list begins with a token of that kind.
fn begins_item(kind: Kind) -> bool
    ensures { result ≡ (kinds.is_mark m.OpenBrace kind || begins_by kind) }
{
    is_mark(Mark::OpenBrace, kind) || begins_expression(kind)
}

/// An item behind so many others.
#[cycle(lists)]
#[tactic(auto, unfolding(statement_grammar::specs::StatementsDescent::item, slang_reading::specs::Reading::next))]
fn item(
    alloc: Global,
    limits: Limits,
    scans: &Scans,
    tokens: &mut Tokens<'_>,
    depth: usize,
    count: usize,
) -> Result<(Initializer, Place), Fault>
    requires { Ready limits scans.now tokens.old.tokens }
    ensures { Runs (spec.item (limits_of limits) true depth (expressions (limits_of limits) (depth + 1)) (spec.initials (limits_of limits) depth) count) tokens.old result tokens.new }
{
    let Some(token) = tokens.peek() else {
        return Err(Fault::Stopped);
    };
    if !begins_item(token.kind) {
        return Err(Fault::Stopped);
    }
    if depth == 0 {
        return Err(Fault::Past(ModuleCode::TooNested, token.place));
    }
    if count >= limits.items {
        return Err(Fault::Past(ModuleCode::TooLong, token.place));
    }
    initials(alloc, limits, scans, tokens, depth)
}

/// A comma and one more item.
#[cycle(lists)]
#[tactic(auto, unfolding(statement_grammar::specs::StatementsDescent::item_more, slang_reading::specs::Reading::bind))]
fn item_more(
    alloc: Global,
    limits: Limits,
    scans: &Scans,
    tokens: &mut Tokens<'_>,
    depth: usize,
    mut list: Items<Initializer>,
) -> Result<Items<Initializer>, Fault>
    requires { Ready limits scans.now tokens.old.tokens }
    ensures { Runs (spec.item_more (limits_of limits) true depth (expressions (limits_of limits) (depth + 1)) (spec.initials (limits_of limits) depth) list) tokens.old result tokens.new }
{
    expect(tokens, Mark::Comma)?;
    let (x, _place) = item(alloc, limits, scans, tokens, depth, list.len())?;
    list.push(x)?;
    Ok(list)
}

/// The items behind the first.
#[cycle(lists)]
fn item_list(
    alloc: Global,
    limits: Limits,
    scans: &Scans,
    tokens: &mut Tokens<'_>,
    depth: usize,
    mut list: Items<Initializer>,
) -> Result<Items<Initializer>, Fault>
    requires { Ready limits scans.now tokens.old.tokens }
    ensures { Runs (turns (kinds.sees m.Comma) (spec.item_more (limits_of limits) true depth (expressions (limits_of limits) (depth + 1)) (spec.initials (limits_of limits) depth)) limits.turns list) tokens.old result tokens.new }
{
    for _turn in 0..limits.turns {
        if !tokens.sees(Mark::Comma) {
            return Ok(list);
        }
        list = item_more(alloc, limits, scans, tokens, depth, list)?;
    }
    if tokens.sees(Mark::Comma) {
        return Err(Fault::Past(ModuleCode::TooLong, tokens.place()));
    }
    Ok(list)
}

/// The items of a list that has some, and the brace that closes it.
#[cycle(lists)]
#[tactic(auto, unfolding(statement_grammar::specs::StatementsDescent::items_rest, slang_reading::specs::Reading::bind))]
fn items_rest(
    alloc: Global,
    limits: Limits,
    scans: &Scans,
    tokens: &mut Tokens<'_>,
    depth: usize,
    begin: Place,
) -> Result<ListTree, Fault>
    requires { Ready limits scans.now tokens.old.tokens }
    ensures { Runs (spec.items_rest (limits_of limits) true depth (expressions (limits_of limits) (depth + 1)) (spec.initials (limits_of limits) depth) begin) tokens.old result tokens.new }
{
    let (x, _place) = item(alloc, limits, scans, tokens, depth, 0)?;
    let mut items = Items::new(alloc);
    items.push(x)?;
    let items = item_list(alloc, limits, scans, tokens, depth, items)?;
    let end = expect(tokens, Mark::CloseBrace)?;
    let place = span(begin, end);
    Ok(ListTree { place, items })
}

/// The brace that closes a list without items.
#[tactic(auto, unfolding(statement_grammar::specs::StatementsDescent::no_items, slang_reading::specs::Reading::bind))]
fn no_items(
    alloc: Global,
    limits: Limits,
    tokens: &mut Tokens<'_>,
    depth: usize,
    begin: Place,
) -> Result<ListTree, Fault>
    ensures { Runs (spec.no_items (limits_of limits) true depth (expressions (limits_of limits) (depth + 1)) (spec.initials (limits_of limits) depth) begin) tokens.old result tokens.new }
{
    let end = expect(tokens, Mark::CloseBrace)?;
    let place = span(begin, end);
    Ok(ListTree {
        place,
        items: Items::new(alloc),
    })
}

/// Behind the opening brace.
#[cycle(lists)]
#[tactic(auto, unfolding(statement_grammar::specs::StatementsDescent::list_rest, slang_reading::specs::Reading::next))]
fn list_rest(
    alloc: Global,
    limits: Limits,
    scans: &Scans,
    tokens: &mut Tokens<'_>,
    depth: usize,
    begin: Place,
) -> Result<ListTree, Fault>
    requires { Ready limits scans.now tokens.old.tokens }
    ensures { Runs (spec.list_rest (limits_of limits) true depth (expressions (limits_of limits) (depth + 1)) (spec.initials (limits_of limits) depth) begin) tokens.old result tokens.new }
{
    if tokens.sees(Mark::CloseBrace) {
        return no_items(alloc, limits, tokens, depth, begin);
    }
    items_rest(alloc, limits, scans, tokens, depth, begin)
}

/// An expression or a list, where a node fits.
#[cycle(lists)]
#[tactic(auto, unfolding(statement_grammar::specs::StatementsDescent::initial, slang_reading::specs::Reading::bind, slang_reading::specs::Reading::next))]
fn initial(
    alloc: Global,
    limits: Limits,
    scans: &Scans,
    tokens: &mut Tokens<'_>,
    depth: usize,
) -> Result<(Initializer, Place), Fault>
    requires room { depth + 1 < 2 ^ 64 }
    requires ready { Ready limits scans.now tokens.old.tokens }
    ensures { Runs (spec.initial (limits_of limits) true depth (expressions (limits_of limits) (depth + 1)) (spec.initials (limits_of limits) depth)) tokens.old result tokens.new }
{
    if tokens.sees(Mark::OpenBrace) {
        let begin = tokens.place();
        tokens.bump();
        let list = list_rest(alloc, limits, scans, tokens, depth, begin)?;
        let place = list.place;
        return Ok((Initializer::List(list), place));
    }
    let (x, _height) = expressions(alloc, limits, scans, tokens, depth + 1)?;
    let place = x.place;
    Ok((Initializer::Expression(x), place))
}

/// An expression or a list, where no node fits.
#[tactic(auto, unfolding(statement_grammar::specs::StatementsDescent::initials, statement_grammar::specs::StatementsDescent::initial, slang_reading::specs::Reading::bind, slang_reading::specs::Reading::next))]
fn no_initial(
    alloc: Global,
    limits: Limits,
    scans: &Scans,
    tokens: &mut Tokens<'_>,
) -> Result<(Initializer, Place), Fault>
    requires { Ready limits scans.now tokens.old.tokens }
    ensures { Runs (spec.initials (limits_of limits) 0) tokens.old result tokens.new }
{
    if tokens.sees(Mark::OpenBrace) {
        return Err(Fault::Past(ModuleCode::TooNested, tokens.place()));
    }
    let (x, _height) = expressions(alloc, limits, scans, tokens, 0)?;
    let place = x.place;
    Ok((Initializer::Expression(x), place))
}

/// What a local begins with, of which at most so many nodes stand on a path, and a place that ends with it.
#[cycle(lists)]
pub fn initials(
    alloc: Global,
    limits: Limits,
    scans: &Scans,
    tokens: &mut Tokens<'_>,
    depth: usize,
) -> Result<(Initializer, Place), Fault>
    requires { Ready limits scans.now tokens.old.tokens }
    ensures { Runs (spec.initials (limits_of limits) depth) tokens.old result tokens.new }
{
    if depth == 0 {
        return no_initial(alloc, limits, scans, tokens);
    }
    initial(alloc, limits, scans, tokens, depth - 1)
}
