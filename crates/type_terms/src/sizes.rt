// How many nodes a type has.

ghost use Rattle.std.specs.Prelude.{◌≡◌, ◌+◌, ◌<◌, sum, map, nat_lt, MatchOption};
ghost use Rattle.type_terms.specs.Types.{nodes};
ghost use Rattle.type_terms.specs.Types as types;

use slang_core::{Arg, TypeTerm};

/// What is left of so many nodes behind those of the type, or nothing where it has more.
#[cycle(nodes)]
fn left_of_term(term: &TypeTerm, nodes_left: u32) -> Option<u32>
    ensures { MatchOption result (nodes_left < nodes term.now) (λ left. left + nodes term.now ≡ nodes_left) }
{
    if nodes_left == 0 {
        return None;
    }
    let inner_left = nodes_left - 1;
    match term {
        TypeTerm::Array(element, _) => left_of_term(element.get(), inner_left),
        TypeTerm::Struct(_, args) => left_of_args(args.as_slice(), inner_left),
        TypeTerm::Projection(subject, _, _) => left_of_term(subject.get(), inner_left),
        TypeTerm::StructuredBuffer(element) => left_of_term(element.get(), inner_left),
        TypeTerm::RwStructuredBuffer(element) => left_of_term(element.get(), inner_left),
        TypeTerm::ConstantBuffer(element) => left_of_term(element.get(), inner_left),
        TypeTerm::ParameterBlock(element) => left_of_term(element.get(), inner_left),
        _ => Some(inner_left),
    }
}

#[cycle(nodes)]
fn left_of_arg(arg: &Arg, nodes_left: u32) -> Option<u32>
    ensures { MatchOption result (nodes_left < types.nodes_of_arg arg.now) (λ left. left + types.nodes_of_arg arg.now ≡ nodes_left) }
{
    match arg {
        Arg::Term(term) => left_of_term(term, nodes_left),
        Arg::Fixed(_) => Some(nodes_left),
    }
}

#[cycle(nodes)]
fn left_of_args(args: &[Arg], nodes_left: u32) -> Option<u32>
    ensures { MatchOption result (nodes_left < sum (map types.nodes_of_arg args.now)) (λ left. left + sum (map types.nodes_of_arg args.now) ≡ nodes_left) }
{
    let mut left = nodes_left;
    for arg in args {
        left = match left_of_arg(arg, left) {
            Some(left) => left,
            None => return None,
        };
    }
    Some(left)
}

/// Whether the type has fewer nodes than that.
pub fn has_fewer_nodes(term: &TypeTerm, limit: u32) -> bool
    ensures { result ≡ nat_lt (nodes term.now) limit }
{
    match left_of_term(term, limit) {
        Some(left) => left > 0,
        None => false,
    }
}
