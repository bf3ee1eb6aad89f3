// What an expression is worth.

ghost use Rattle.std.specs.Prelude.{◌≡◌, [], ◌∷◌, map, IfOk};
ghost use Rattle.type_terms.specs.Types as types;
ghost use Rattle.type_terms.specs.Values as values;
ghost use Rattle.type_terms.specs.declared.typings.Worth.TheVariants.{Words};

use crate::joins::{choose_worth, joined};
use crate::operators::{binary_worth, unary_worth};
use crate::parts::{convert_worth, element_worth, repeat_worth, swizzle_worth};
use slang_core::{Expr, TypeTerm};
use sqlite_items::Items;
use std::alloc::{AllocError, Global};
use type_terms::{Worth, numeric_of};

fn one_word(alloc: Global, is_unsigned: bool, word: u32) -> Result<Worth, AllocError>
    ensures { IfOk result (λ made. made ≡ Words is_unsigned (word ∷ [])) }
{
    let mut words = Items::new(alloc);
    words.push(word)?;
    Ok(Worth::Words(is_unsigned, words))
}

fn is_unsigned_type(term: &TypeTerm) -> bool
    ensures { result ≡ values.is_unsigned_type (types.numeric_of term.now) }
{
    match numeric_of(term) {
        Some(number) => number.is_unsigned,
        None => false,
    }
}

#[cycle(evaluation)]
fn vector_worth(alloc: Global, is_unsigned: bool, parts: &[Expr]) -> Result<Worth, AllocError>
    ensures { IfOk result (λ made. made ≡ values.vector_worth is_unsigned (map values.value_of parts.now)) }
{
    let mut made = Worth::Words(is_unsigned, Items::new(alloc));
    let mut left = parts.len();
    while left > 0 {
        left -= 1;
        let first = value_of(alloc, &parts[left])?;
        made = joined(first, made)?;
    }
    Ok(made)
}

/// What an expression is worth that is made of literals, in two's complement.
#[cycle(evaluation)]
pub fn value_of(alloc: Global, core: &Expr) -> Result<Worth, AllocError>
    ensures { IfOk result (λ made. made ≡ values.value_of core.now) }
{
    match core {
        Expr::Int(word) => one_word(alloc, false, *word),
        Expr::Uint(word) => one_word(alloc, true, *word),
        Expr::False => Ok(Worth::Truth(false)),
        Expr::True => Ok(Worth::Truth(true)),
        Expr::Unary(op, x) => {
            let x = value_of(alloc, x.get())?;
            unary_worth(alloc, *op, x)
        }
        Expr::Binary(op, x, y) => {
            let x = value_of(alloc, x.get())?;
            let y = value_of(alloc, y.get())?;
            binary_worth(alloc, *op, x, y)
        }
        Expr::And(x, y) => {
            let x = value_of(alloc, x.get())?;
            let y = value_of(alloc, y.get())?;
            Ok(choose_worth(x, y, Worth::Truth(false)))
        }
        Expr::Or(x, y) => {
            let x = value_of(alloc, x.get())?;
            let y = value_of(alloc, y.get())?;
            Ok(choose_worth(x, Worth::Truth(true), y))
        }
        Expr::Choose(condition, x, y) => {
            let condition = value_of(alloc, condition.get())?;
            let x = value_of(alloc, x.get())?;
            let y = value_of(alloc, y.get())?;
            Ok(choose_worth(condition, x, y))
        }
        Expr::Convert(x) => Ok(convert_worth(value_of(alloc, x.get())?)),
        Expr::Vector(term, parts) => {
            vector_worth(alloc, is_unsigned_type(term), parts.as_slice())
        }
        Expr::Repeat(count, x) => {
            let x = value_of(alloc, x.get())?;
            repeat_worth(alloc, *count, x)
        }
        Expr::Swizzle(numbers, x) => {
            let x = value_of(alloc, x.get())?;
            swizzle_worth(alloc, numbers.as_slice(), x)
        }
        Expr::Element(x, index) => {
            let x = value_of(alloc, x.get())?;
            let index = value_of(alloc, index.get())?;
            element_worth(alloc, x, index)
        }
        _ => Ok(Worth::Unknown),
    }
}
