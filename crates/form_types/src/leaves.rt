// Names, references, numbers in types and small numbers, from their bytes.

ghost use Rattle.std.specs.Prelude.{◌≡◌, ◌≤◌, ◌<◌, length, IfOk, Ok, Err};
ghost use Rattle.form_grammar.specs.Trees.{text, byte};
ghost use Rattle.form_grammar.specs.Grammar as form;
ghost use Rattle.form_grammar.specs.Numbers.{after};
ghost use Rattle.form_grammar.specs.Reading.{Gives, form_at, nested_at};
ghost use Rattle.slang_core.specs.TypeTrees.{ref_tree, value_tree, scalar_tree};

use form_grammar::{Level, ReadFault, number_at, refused, short, text_at};
use slang_core::Scalar;
use slang_names::{FormCode, Name, Ref, Value};

/// A name at the front.
#[tactic(auto, unfolding(form_grammar::specs::Reading::form_at, form_grammar::specs::Numbers::after))]
pub fn name_of(level: Level, bytes: &[u8]) -> Result<(Name, &[u8]), ReadFault>
    ensures { Gives (λ x. (text x.0, x.1.now)) result (form_at (nested_at level.depth) form.name bytes.now) }
{
    let (text, rest) = text_at(bytes)?;
    Ok((Name::from_slice(level.alloc, text)?, rest))
}

/// A reference to a declaration at the front.
#[tactic(auto, unfolding(form_grammar::specs::Reading::form_at, form_grammar::specs::Numbers::after))]
pub fn ref_of(level: Level, bytes: &[u8]) -> Result<(Ref, &[u8]), ReadFault>
    ensures { Gives (λ x. (ref_tree x.0, x.1.now)) result (form_at (nested_at level.depth) form.ref bytes.now) }
{
    let (module, rest) = name_of(level, bytes)?;
    let (path, rest) = name_of(level, rest)?;
    Ok((Ref { module, path }, rest))
}

/// A number in a type at the front.
#[tactic(auto, unfolding(form_grammar::specs::Reading::form_at, form_grammar::specs::Numbers::after))]
pub fn value_of(level: Level, bytes: &[u8]) -> Result<(Value, &[u8]), ReadFault>
    ensures { Gives (λ x. (value_tree x.0, x.1.now)) result (form_at (nested_at level.depth) form.value bytes.now) }
{
    match bytes {
        [] => Err(short()),
        [0, rest @ ..] => {
            let (number, rest) = number_at(rest)?;
            Ok((Value::Number(number), rest))
        }
        [1, rest @ ..] => {
            let (number, rest) = number_at(rest)?;
            Ok((Value::Parameter(number), rest))
        }
        _ => Err(refused(FormCode::NotCanonical, bytes)),
    }
}

/// The scalar of a vector at the front.
#[tactic(auto, unfolding(form_grammar::specs::Reading::form_at, form_grammar::specs::Numbers::after))]
pub fn scalar_of(level: Level, bytes: &[u8]) -> Result<(Scalar, &[u8]), ReadFault>
    ensures { Gives (λ x. (scalar_tree x.0, x.1.now)) result (form_at (nested_at level.depth) (form.range 2 3) bytes.now) }
{
    match bytes {
        [] => Err(short()),
        [2, rest @ ..] => Ok((Scalar::Int, rest)),
        [3, rest @ ..] => Ok((Scalar::Uint, rest)),
        _ => Err(refused(FormCode::NotCanonical, bytes)),
    }
}

/// A byte from `low` to `high` at the front.
#[tactic(auto, unfolding(form_grammar::specs::Reading::form_at, form_grammar::specs::Numbers::after))]
pub fn byte_of(level: Level, low: u8, high: u8, bytes: &[u8]) -> Result<(u8, &[u8]), ReadFault>
    ensures { Gives (λ x. (byte x.0, x.1.now)) result (form_at (nested_at level.depth) (form.range low high) bytes.now) }
{
    let [byte, rest @ ..] = bytes else {
        return Err(short());
    };
    if low <= *byte && *byte <= high {
        Ok((*byte, rest))
    } else {
        Err(refused(FormCode::NotCanonical, bytes))
    }
}
