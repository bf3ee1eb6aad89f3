// Values that are made of the words of another.

ghost use Rattle.std.specs.Prelude.{◌≡◌, ◌++◌, [], ◌∷◌, false, IfOk};
ghost use Rattle.std.specs.List.{repeat};
ghost use Rattle.std.specs.Option.{option_map};
ghost use Rattle.type_terms.specs.Values as values;
ghost use Rattle.type_terms.specs.declared.typings.Worth.TheVariants.{Words};

use crate::operators::words_or;
use sqlite_items::{Items, at};
use std::alloc::{AllocError, Global};
use type_terms::Worth;

/// As the other sign.
pub fn convert_worth(x: Worth) -> Worth
    ensures { result ≡ values.convert_worth x }
{
    match x {
        Worth::Words(is_unsigned, words) => Worth::Words(!is_unsigned, words),
        Worth::Undefined => Worth::Undefined,
        _ => Worth::Unknown,
    }
}

#[tactic(auto, using(std::proofs::lemmas::List::append_assoc, crate::proofs::Repeats::one_more))]
fn repeated(done: Items<u32>, word: u32, count: u8) -> Result<Items<u32>, AllocError>
    ensures { IfOk result (λ made. made ≡ done ++ repeat count (word ∷ [])) }
{
    if count == 0 {
        return Ok(done);
    }
    let mut done = done;
    done.push(word)?;
    repeated(done, word, count - 1)
}

/// So many times a single word.
pub fn repeat_worth(alloc: Global, count: u8, x: Worth) -> Result<Worth, AllocError>
    ensures { IfOk result (λ made. made ≡ values.repeat_worth count x) }
{
    match x {
        Worth::Words(is_unsigned, words) => match words.as_slice() {
            [word] => Ok(Worth::Words(is_unsigned, repeated(Items::new(alloc), *word, count)?)),
            _ => Ok(Worth::Unknown),
        },
        Worth::Undefined => Ok(Worth::Undefined),
        _ => Ok(Worth::Unknown),
    }
}

/// What has been picked so far, and the words of the other numbers.
#[tactic(auto, using(std::proofs::lemmas::List::append_assoc))]
fn picked_behind(
    done: Items<u32>,
    words: &[u32],
    numbers: &[u8],
) -> Result<Option<Items<u32>>, AllocError>
    ensures { IfOk result (λ made. made ≡ option_map (λ others. done ++ others) (values.picked words.now numbers.now)) }
{
    match numbers {
        [] => Ok(Some(done)),
        [number, others @ ..] => match at(words, usize::from(*number)) {
            Some(word) => {
                let mut done = done;
                done.push(*word)?;
                picked_behind(done, words, others)
            }
            None => Ok(None),
        },
    }
}

/// The words of these numbers.
pub fn swizzle_worth(alloc: Global, numbers: &[u8], x: Worth) -> Result<Worth, AllocError>
    ensures { IfOk result (λ made. made ≡ values.swizzle_worth numbers.now x) }
{
    match x {
        Worth::Words(is_unsigned, words) => {
            let picked = picked_behind(Items::new(alloc), words.as_slice(), numbers)?;
            Ok(words_or(is_unsigned, picked))
        }
        Worth::Undefined => Ok(Worth::Undefined),
        _ => Ok(Worth::Unknown),
    }
}

fn word_at(alloc: Global, words: &[u32], number: u32) -> Result<Option<Items<u32>>, AllocError>
    ensures { IfOk result (λ made. made ≡ values.picked words.now (number ∷ [])) }
{
    match at(words, number as usize) {
        Some(word) => {
            let mut list = Items::new(alloc);
            list.push(*word)?;
            Ok(Some(list))
        }
        None => Ok(None),
    }
}

fn indexed(
    alloc: Global,
    is_unsigned: bool,
    words: &[u32],
    index: &[u32],
) -> Result<Worth, AllocError>
    ensures { IfOk result (λ made. made ≡ values.element_worth (Words is_unsigned words.now) (Words false index.now)) }
{
    match index {
        [number] => Ok(words_or(is_unsigned, word_at(alloc, words, *number)?)),
        _ => Ok(Worth::Unknown),
    }
}

/// The word at an index.
pub fn element_worth(alloc: Global, x: Worth, index: Worth) -> Result<Worth, AllocError>
    ensures { IfOk result (λ made. made ≡ values.element_worth x index) }
{
    match (x, index) {
        (Worth::Words(is_unsigned, words), Worth::Words(_, index)) => {
            indexed(alloc, is_unsigned, words.as_slice(), index.as_slice())
        }
        (Worth::Unknown, _) => Ok(Worth::Unknown),
        (_, Worth::Unknown) => Ok(Worth::Unknown),
        (Worth::Undefined, _) => Ok(Worth::Undefined),
        (_, Worth::Undefined) => Ok(Worth::Undefined),
        _ => Ok(Worth::Unknown),
    }
}
