// Types of numbers, as a sign and a size.

ghost use Rattle.std.specs.Prelude.{◌≡◌};
ghost use Rattle.type_terms.specs.Types as types;

use crate::Numeric;
use slang_core::{Scalar, TypeTerm};

pub fn is_uint(scalar: Scalar) -> bool
    ensures { result ≡ types.is_uint scalar }
{
    match scalar {
        Scalar::Int => false,
        Scalar::Uint => true,
    }
}

pub fn scalar_of(is_unsigned: bool) -> Scalar
    ensures { result ≡ types.scalar_of is_unsigned }
{
    if is_unsigned {
        Scalar::Uint
    } else {
        Scalar::Int
    }
}

/// `uint` or `int`.
pub fn number_type(is_unsigned: bool) -> TypeTerm
    ensures { result ≡ types.number_type is_unsigned }
{
    if is_unsigned {
        TypeTerm::Uint
    } else {
        TypeTerm::Int
    }
}

/// The sign and the size of `int`, `uint` or a vector of them.
pub fn numeric_of(term: &TypeTerm) -> Option<Numeric>
    ensures { result ≡ types.numeric_of term.now }
{
    match term {
        TypeTerm::Int => Some(Numeric {
            is_unsigned: false,
            size: 1,
        }),
        TypeTerm::Uint => Some(Numeric {
            is_unsigned: true,
            size: 1,
        }),
        TypeTerm::Vector(scalar, size) => Some(Numeric {
            is_unsigned: is_uint(*scalar),
            size: *size,
        }),
        _ => None,
    }
}

/// The type of that sign and size.
pub fn type_of_numeric(number: Numeric) -> TypeTerm
    ensures { result ≡ types.type_of_numeric number }
{
    if number.size == 1 {
        number_type(number.is_unsigned)
    } else {
        TypeTerm::Vector(scalar_of(number.is_unsigned), number.size)
    }
}

/// `int` or `uint` alone.
pub fn is_whole(term: &TypeTerm) -> bool
    ensures { result ≡ types.is_whole term.now }
{
    match numeric_of(term) {
        Some(number) => number.size == 1,
        None => false,
    }
}
