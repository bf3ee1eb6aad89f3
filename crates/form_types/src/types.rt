// Types from their bytes.

ghost use Rattle.std.specs.Prelude.{◌≡◌, ◌≤◌, ◌<◌, length, IfOk, Ok, Err, List, map};
ghost use Rattle.form_grammar.specs.Trees.{text, byte, tagged, nested, list_of, chain};
ghost use Rattle.form_grammar.specs.Grammar as form;
ghost use Rattle.form_grammar.specs.Grammar.{◌▹◌};
ghost use Rattle.form_grammar.specs.Numbers.{after};
ghost use Rattle.form_grammar.specs.Reading.{Gives, Reader, form_at, nested_at, items_at, behind};
ghost use Rattle.slang_core.specs.TypeTrees.{ref_tree, value_tree, scalar_tree, type_tree, arg_tree};

use crate::leaves::{byte_of, name_of, ref_of, scalar_of, value_of};
use form_grammar::{Level, ReadFault, count_at, number_at, refused, short};
use slang_core::{Arg, TypeTerm};
use slang_names::FormCode;
use sqlite_items::{Boxed, Items};

#[tactic(auto, unfolding(form_grammar::specs::Reading::form_at, form_grammar::specs::Numbers::after))]
fn vector_of(level: Level, bytes: &[u8]) -> Result<(TypeTerm, &[u8]), ReadFault>
    ensures { Gives (λ x. (type_tree x.0, x.1.now)) result (behind (nested_at level.depth) 4 (form.range 2 3 ▹ form.range 2 4) bytes.now) }
{
    let (scalar, rest) = scalar_of(level, bytes)?;
    let (lanes, rest) = byte_of(level, 2, 4, rest)?;
    Ok((TypeTerm::Vector(scalar, lanes), rest))
}

#[cycle(term)]
#[tactic(auto, unfolding(form_grammar::specs::Reading::form_at, form_grammar::specs::Numbers::after))]
fn array_of(level: Level, bytes: &[u8]) -> Result<(TypeTerm, &[u8]), ReadFault>
    ensures { Gives (λ x. (type_tree x.0, x.1.now)) result (behind (nested_at level.depth) 5 (form.part form.Term ▹ form.value) bytes.now) }
{
    let (element, rest) = term_of(level, bytes)?;
    let (length, rest) = value_of(level, rest)?;
    Ok((
        TypeTerm::Array(Boxed::new(level.alloc, element)?, length),
        rest,
    ))
}

/// An argument at the front.
#[cycle(term)]
#[tactic(auto, unfolding(form_grammar::specs::Reading::form_at, form_grammar::specs::Numbers::after))]
pub fn arg_of(level: Level, bytes: &[u8]) -> Result<(Arg, &[u8]), ReadFault>
    ensures { Gives (λ x. (arg_tree x.0, x.1.now)) result (form_at (nested_at level.depth) form.arg bytes.now) }
{
    match bytes {
        [] => Err(short()),
        [0, rest @ ..] => {
            let (term, rest) = term_of(level, rest)?;
            Ok((Arg::Term(term), rest))
        }
        [1, rest @ ..] => {
            let (value, rest) = value_of(level, rest)?;
            Ok((Arg::Fixed(value), rest))
        }
        _ => Err(refused(FormCode::NotCanonical, bytes)),
    }
}

#[cycle(term)]
fn arg_items(level: Level, count: u32, bytes: &[u8]) -> Result<(Items<Arg>, &[u8]), ReadFault>
    ensures { Gives (λ x. (chain (map arg_tree x.0), x.1.now)) result (items_at (form_at (nested_at level.depth) form.arg) count bytes.now) }
{
    let mut items = Items::new(level.alloc);
    let mut rest = bytes;
    for _ in 0..count {
        let (item, after) = arg_of(level, rest)?;
        items.push(item)?;
        rest = after;
    }
    Ok((items, rest))
}

/// The arguments at the front.
#[cycle(term)]
#[tactic(auto, unfolding(form_grammar::specs::Reading::form_at, form_grammar::specs::Numbers::after))]
pub fn args_of(level: Level, bytes: &[u8]) -> Result<(Items<Arg>, &[u8]), ReadFault>
    ensures { Gives (λ x. (list_of arg_tree x.0, x.1.now)) result (form_at (nested_at level.depth) (form.list form.arg) bytes.now) }
{
    let (count, rest) = count_at(bytes)?;
    arg_items(level, count, rest)
}

#[cycle(term)]
#[tactic(auto, unfolding(form_grammar::specs::Reading::form_at, form_grammar::specs::Numbers::after))]
fn struct_of(level: Level, bytes: &[u8]) -> Result<(TypeTerm, &[u8]), ReadFault>
    ensures { Gives (λ x. (type_tree x.0, x.1.now)) result (behind (nested_at level.depth) 6 (form.ref ▹ form.list form.arg) bytes.now) }
{
    let (name, rest) = ref_of(level, bytes)?;
    let (args, rest) = args_of(level, rest)?;
    Ok((TypeTerm::Struct(name, args), rest))
}

#[cycle(term)]
#[tactic(auto, unfolding(form_grammar::specs::Reading::form_at, form_grammar::specs::Numbers::after))]
fn projection_of(level: Level, bytes: &[u8]) -> Result<(TypeTerm, &[u8]), ReadFault>
    ensures { Gives (λ x. (type_tree x.0, x.1.now)) result (behind (nested_at level.depth) 8 (form.part form.Term ▹ form.ref ▹ form.name) bytes.now) }
{
    let (subject, rest) = term_of(level, bytes)?;
    let (interface, rest) = ref_of(level, rest)?;
    let (name, rest) = name_of(level, rest)?;
    Ok((
        TypeTerm::Projection(Boxed::new(level.alloc, subject)?, interface, name),
        rest,
    ))
}

#[cycle(term)]
#[tactic(auto, unfolding(form_grammar::specs::Reading::form_at, form_grammar::specs::Numbers::after))]
fn boxed_term(level: Level, bytes: &[u8]) -> Result<(Boxed<TypeTerm>, &[u8]), ReadFault>
    ensures { Gives (λ x. (nested (type_tree x.0), x.1.now)) result (form_at (nested_at level.depth) (form.part form.Term) bytes.now) }
{
    let (term, rest) = term_of(level, bytes)?;
    Ok((Boxed::new(level.alloc, term)?, rest))
}

#[cycle(term)]
#[tactic(auto, unfolding(form_grammar::specs::Reading::form_at, form_grammar::specs::Numbers::after))]
fn term_body(level: Level, bytes: &[u8]) -> Result<(TypeTerm, &[u8]), ReadFault>
    ensures { Gives (λ x. (type_tree x.0, x.1.now)) result (form_at (nested_at level.depth) form.type_form bytes.now) }
{
    let [tag, rest @ ..] = bytes else {
        return Err(short());
    };
    match *tag {
        0 => Ok((TypeTerm::Void, rest)),
        1 => Ok((TypeTerm::Bool, rest)),
        2 => Ok((TypeTerm::Int, rest)),
        3 => Ok((TypeTerm::Uint, rest)),
        4 => vector_of(level, rest),
        5 => array_of(level, rest),
        6 => struct_of(level, rest),
        7 => {
            let (number, rest) = number_at(rest)?;
            Ok((TypeTerm::Parameter(number), rest))
        }
        8 => projection_of(level, rest),
        9 => {
            let (element, rest) = boxed_term(level, rest)?;
            Ok((TypeTerm::StructuredBuffer(element), rest))
        }
        10 => {
            let (element, rest) = boxed_term(level, rest)?;
            Ok((TypeTerm::RwStructuredBuffer(element), rest))
        }
        11 => {
            let (element, rest) = boxed_term(level, rest)?;
            Ok((TypeTerm::ConstantBuffer(element), rest))
        }
        12 => {
            let (element, rest) = boxed_term(level, rest)?;
            Ok((TypeTerm::ParameterBlock(element), rest))
        }
        _ => Err(refused(FormCode::NotCanonical, bytes)),
    }
}

/// A type at the front.
#[cycle(term)]
pub fn term_of(level: Level, bytes: &[u8]) -> Result<(TypeTerm, &[u8]), ReadFault>
    ensures { Gives (λ x. (type_tree x.0, x.1.now)) result (nested_at level.depth form.Term bytes.now) }
{
    if bytes.len() == 0 {
        return Err(short());
    }
    if level.depth == 0 {
        return Err(refused(FormCode::FormLimit, bytes));
    }
    term_body(
        Level {
            alloc: level.alloc,
            depth: level.depth - 1,
        },
        bytes,
    )
}
