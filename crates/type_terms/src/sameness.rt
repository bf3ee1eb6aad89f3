// Whether two types are one.

ghost use Rattle.std.specs.Prelude.{◌≡◌, map};
ghost use Rattle.type_terms.specs.Types as types;

use slang_core::{Arg, Scalar, TypeTerm};
use slang_names::{Ref, Value};

pub fn same_ref(a: &Ref, b: &Ref) -> bool
    ensures { result ≡ types.same_ref a.now b.now }
{
    a.module.as_bytes() == b.module.as_bytes() && a.path.as_bytes() == b.path.as_bytes()
}

pub fn same_value(a: Value, b: Value) -> bool
    ensures { result ≡ types.same_value a b }
{
    match (a, b) {
        (Value::Number(m), Value::Number(n)) => m == n,
        (Value::Parameter(m), Value::Parameter(n)) => m == n,
        _ => false,
    }
}

pub fn same_scalar(a: Scalar, b: Scalar) -> bool
    ensures { result ≡ types.same_scalar a b }
{
    match (a, b) {
        (Scalar::Int, Scalar::Int) => true,
        (Scalar::Uint, Scalar::Uint) => true,
        _ => false,
    }
}

/// Whether two types are one.
#[cycle(same)]
pub fn same(a: &TypeTerm, b: &TypeTerm) -> bool
    ensures { result ≡ types.same a.now b.now }
{
    match (a, b) {
        (TypeTerm::Void, TypeTerm::Void) => true,
        (TypeTerm::Bool, TypeTerm::Bool) => true,
        (TypeTerm::Int, TypeTerm::Int) => true,
        (TypeTerm::Uint, TypeTerm::Uint) => true,
        (TypeTerm::Vector(s, m), TypeTerm::Vector(t, n)) => same_scalar(*s, *t) && *m == *n,
        (TypeTerm::Array(x, m), TypeTerm::Array(y, n)) => {
            same(x.get(), y.get()) && same_value(*m, *n)
        }
        (TypeTerm::Struct(q, xs), TypeTerm::Struct(r, ys)) => {
            same_ref(q, r) && same_args(xs.as_slice(), ys.as_slice())
        }
        (TypeTerm::Parameter(m), TypeTerm::Parameter(n)) => *m == *n,
        (TypeTerm::Projection(x, q, m), TypeTerm::Projection(y, r, n)) => {
            same(x.get(), y.get()) && same_ref(q, r) && m.as_bytes() == n.as_bytes()
        }
        (TypeTerm::StructuredBuffer(x), TypeTerm::StructuredBuffer(y)) => same(x.get(), y.get()),
        (TypeTerm::RwStructuredBuffer(x), TypeTerm::RwStructuredBuffer(y)) => {
            same(x.get(), y.get())
        }
        (TypeTerm::ConstantBuffer(x), TypeTerm::ConstantBuffer(y)) => same(x.get(), y.get()),
        (TypeTerm::ParameterBlock(x), TypeTerm::ParameterBlock(y)) => same(x.get(), y.get()),
        _ => false,
    }
}

/// Whether two arguments are one.
#[cycle(same)]
pub fn same_arg(a: &Arg, b: &Arg) -> bool
    ensures { result ≡ types.same_arg a.now b.now }
{
    match (a, b) {
        (Arg::Term(x), Arg::Term(y)) => same(x, y),
        (Arg::Fixed(m), Arg::Fixed(n)) => same_value(*m, *n),
        _ => false,
    }
}

#[cycle(same)]
fn same_args(a: &[Arg], b: &[Arg]) -> bool
    ensures { result ≡ types.all_same (map types.same_arg a.now) b.now }
{
    let mut others = b;
    for x in a {
        let [y, rest @ ..] = others else {
            return false;
        };
        if !same_arg(x, y) {
            return false;
        }
        others = rest;
    }
    others.is_empty()
}
