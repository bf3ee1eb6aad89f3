// Statements, from their bytes.

ghost use Rattle.std.specs.Prelude.{◌≡◌, map};
ghost use Rattle.form_grammar.specs.Trees.{◌▸◌, nested, tagged, chain, list_of};
ghost use Rattle.form_grammar.specs.Grammar as form;
ghost use Rattle.form_grammar.specs.Grammar.{◌▹◌};
ghost use Rattle.form_grammar.specs.Numbers.{after};
ghost use Rattle.form_grammar.specs.Reading.{Gives, form_at, nested_at, items_at, behind};
ghost use Rattle.slang_core.specs.BodyTrees.{expr_tree, stat_tree};

use form_exprs::{binary_of, bool_of, call_of, expr_at, place_at};
use form_grammar::{Level, ReadFault, count_at, number_at, refused, short};
use slang_core::{Conversions, Expr, Stat};
use slang_names::FormCode;
use sqlite_items::{Boxed, Items};

/// The first value of a local, behind its tag.
#[tactic(auto, unfolding(form_grammar::specs::Reading::form_at, form_grammar::specs::Numbers::after))]
fn local_of(level: Level, bytes: &[u8]) -> Result<(Stat, &[u8]), ReadFault>
    ensures { Gives (λ x. (stat_tree x.0, x.1.now)) result (behind (nested_at level.depth) 1 (form.num ▹ form.part form.Expr) bytes.now) }
{
    let (number, rest) = number_at(bytes)?;
    let (value, rest) = expr_at(level, rest)?;
    Ok((Stat::Local(number, value), rest))
}

/// An assignment behind its tag.
#[tactic(auto, unfolding(form_grammar::specs::Reading::form_at, form_grammar::specs::Numbers::after))]
fn assign_of(level: Level, bytes: &[u8]) -> Result<(Stat, &[u8]), ReadFault>
    ensures { Gives (λ x. (stat_tree x.0, x.1.now)) result (behind (nested_at level.depth) 2 (form.part form.Place ▹ form.part form.Expr) bytes.now) }
{
    let (place, rest) = place_at(level, bytes)?;
    let (value, rest) = expr_at(level, rest)?;
    Ok((Stat::Assign(place, value), rest))
}

/// A change of a place behind its tag.
#[tactic(auto, unfolding(form_grammar::specs::Reading::form_at, form_grammar::specs::Numbers::after))]
fn change_of(level: Level, bytes: &[u8]) -> Result<(Stat, &[u8]), ReadFault>
    ensures { Gives (λ x. (stat_tree x.0, x.1.now)) result
        (behind (nested_at level.depth) 3 (form.binary ▹ form.conv ▹ form.conv ▹ form.part form.Place ▹ form.part form.Expr) bytes.now) }
{
    let (op, rest) = binary_of(level, bytes)?;
    let (read, rest) = bool_of(level, rest)?;
    let (result, rest) = bool_of(level, rest)?;
    let (place, rest) = place_at(level, rest)?;
    let (value, rest) = expr_at(level, rest)?;
    let conversions = Conversions { read, result };
    Ok((Stat::Change(op, conversions, place, value), rest))
}

/// A return of a value behind its tag.
#[tactic(auto, unfolding(form_grammar::specs::Reading::form_at, form_grammar::specs::Numbers::after))]
fn return_of(level: Level, bytes: &[u8]) -> Result<(Stat, &[u8]), ReadFault>
    ensures { Gives (λ x. (stat_tree x.0, x.1.now)) result (behind (nested_at level.depth) 7 (form.part form.Expr) bytes.now) }
{
    let (value, rest) = expr_at(level, bytes)?;
    Ok((Stat::ReturnValue(value), rest))
}

/// A call behind its tag.
#[tactic(auto, unfolding(form_grammar::specs::Reading::form_at, form_grammar::specs::Numbers::after))]
fn run_of(level: Level, bytes: &[u8]) -> Result<(Stat, &[u8]), ReadFault>
    ensures { Gives (λ x. (stat_tree x.0, x.1.now)) result (behind (nested_at level.depth) 10 form.call bytes.now) }
{
    let (call, rest) = call_of(level, bytes)?;
    Ok((Stat::Run(call), rest))
}

/// A block of these statements.
#[tactic(auto, using(crate::proofs::Blocks::block_tree))]
fn block(statements: Items<Stat>) -> Stat
    ensures { stat_tree result ≡ tagged 0 (list_of (λ s. nested (stat_tree s)) statements) }
{
    Stat::Block(statements)
}

/// A statement at the front, nested in what stands around it.
#[cycle(stat)]
#[tactic(auto, unfolding(form_grammar::specs::Reading::form_at, form_grammar::specs::Numbers::after))]
pub fn stat_at(level: Level, bytes: &[u8]) -> Result<(Stat, &[u8]), ReadFault>
    ensures { Gives (λ x. (nested (stat_tree x.0), x.1.now)) result (form_at (nested_at level.depth) (form.part form.Stat) bytes.now) }
{
    stat_of(level, bytes)
}

#[cycle(stat)]
fn stat_items(level: Level, count: u32, bytes: &[u8]) -> Result<(Items<Stat>, &[u8]), ReadFault>
    ensures { Gives (λ x. (chain (map (λ s. nested (stat_tree s)) x.0), x.1.now)) result (items_at (form_at (nested_at level.depth) (form.part form.Stat)) count bytes.now) }
{
    let mut items = Items::new(level.alloc);
    let mut rest = bytes;
    for _ in 0..count {
        let (item, after) = stat_at(level, rest)?;
        items.push(item)?;
        rest = after;
    }
    Ok((items, rest))
}

/// A list of statements at the front.
#[cycle(stat)]
#[tactic(auto, unfolding(form_grammar::specs::Reading::form_at, form_grammar::specs::Numbers::after))]
pub fn stats_of(level: Level, bytes: &[u8]) -> Result<(Items<Stat>, &[u8]), ReadFault>
    ensures { Gives (λ x. (list_of (λ s. nested (stat_tree s)) x.0, x.1.now)) result (form_at (nested_at level.depth) (form.list (form.part form.Stat)) bytes.now) }
{
    let (count, rest) = count_at(bytes)?;
    stat_items(level, count, rest)
}

/// What an `if` and a loop hold: a condition and two statements.
#[cycle(stat)]
#[tactic(auto, unfolding(form_grammar::specs::Reading::form_at, form_grammar::specs::Numbers::after))]
fn parts_of(
    level: Level,
    bytes: &[u8],
) -> Result<((Expr, Boxed<Stat>, Boxed<Stat>), &[u8]), ReadFault>
    ensures { Gives (λ x. (nested (expr_tree x.0.0) ▸ nested (stat_tree x.0.1) ▸ nested (stat_tree x.0.2), x.1.now)) result
        (form_at (nested_at level.depth) (form.part form.Expr ▹ form.part form.Stat ▹ form.part form.Stat) bytes.now) }
{
    let (condition, rest) = expr_at(level, bytes)?;
    let (first, rest) = stat_at(level, rest)?;
    let (second, rest) = stat_at(level, rest)?;
    let first = Boxed::new(level.alloc, first)?;
    let second = Boxed::new(level.alloc, second)?;
    Ok(((condition, first, second), rest))
}

#[cycle(stat)]
#[tactic(auto, unfolding(form_grammar::specs::Reading::form_at, form_grammar::specs::Numbers::after))]
fn stat_body(level: Level, bytes: &[u8]) -> Result<(Stat, &[u8]), ReadFault>
    ensures { Gives (λ x. (stat_tree x.0, x.1.now)) result (form_at (nested_at level.depth) form.stat_form bytes.now) }
{
    let [tag, rest @ ..] = bytes else {
        return Err(short());
    };
    match *tag {
        0 => {
            let (statements, rest) = stats_of(level, rest)?;
            Ok((block(statements), rest))
        }
        1 => local_of(level, rest),
        2 => assign_of(level, rest),
        3 => change_of(level, rest),
        4 => {
            let ((condition, yes, other), rest) = parts_of(level, rest)?;
            Ok((Stat::If(condition, yes, other), rest))
        }
        5 => {
            let ((condition, step, body), rest) = parts_of(level, rest)?;
            Ok((Stat::Loop(condition, step, body), rest))
        }
        6 => Ok((Stat::Return, rest)),
        7 => return_of(level, rest),
        8 => Ok((Stat::Break, rest)),
        9 => Ok((Stat::Continue, rest)),
        10 => run_of(level, rest),
        _ => Err(refused(FormCode::NotCanonical, bytes)),
    }
}

/// A statement at the front.
#[cycle(stat)]
pub fn stat_of(level: Level, bytes: &[u8]) -> Result<(Stat, &[u8]), ReadFault>
    ensures { Gives (λ x. (stat_tree x.0, x.1.now)) result (nested_at level.depth form.Stat bytes.now) }
{
    if bytes.len() == 0 {
        return Err(short());
    }
    if level.depth == 0 {
        return Err(refused(FormCode::FormLimit, bytes));
    }
    stat_body(
        Level {
            alloc: level.alloc,
            depth: level.depth - 1,
        },
        bytes,
    )
}
