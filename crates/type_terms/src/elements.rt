// What is indexed.

ghost use Rattle.std.specs.Prelude.{◌≡◌, IfOk};
ghost use Rattle.type_terms.specs.Types as types;

use crate::{copy_term, is_uint, number_type};
use slang_core::TypeTerm;
use slang_names::Value;
use std::alloc::{AllocError, Global};

/// The number that a length is, where it is written out.
pub fn length_in(length: Value) -> Option<u32>
    ensures { result ≡ types.length_in length }
{
    match length {
        Value::Number(number) => Some(number),
        Value::Parameter(_) => None,
    }
}

/// The type of an element of what can be indexed, and how many there are where the type says it.
pub fn elements_of(
    alloc: Global,
    term: &TypeTerm,
) -> Result<Option<(TypeTerm, Option<u32>)>, AllocError>
    ensures { IfOk result (λ found. found ≡ types.elements term.now) }
{
    match term {
        TypeTerm::Array(element, length) => Ok(Some((
            copy_term(alloc, element.get())?,
            length_in(*length),
        ))),
        TypeTerm::Vector(scalar, size) => Ok(Some((
            number_type(is_uint(*scalar)),
            Some(u32::from(*size)),
        ))),
        TypeTerm::StructuredBuffer(element) => {
            Ok(Some((copy_term(alloc, element.get())?, None)))
        }
        TypeTerm::RwStructuredBuffer(element) => {
            Ok(Some((copy_term(alloc, element.get())?, None)))
        }
        _ => Ok(None),
    }
}
