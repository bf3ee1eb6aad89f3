// Which attributes may stand together.

ghost use Rattle.std.specs.Prelude.{◌≡◌, ◌++◌, ◌∷◌, [], Some};
ghost use Rattle.std.specs.List.{list_all};
ghost use Rattle.statement_grammar.specs.AttributeTables as tables;
ghost use Rattle.statement_grammar.specs.AttributesDescent as spec;

use slang_names::Place;
use statement_grammar::{KnownAttribute, Target, may_stand};

fn attribute_code(known: KnownAttribute) -> u8
    ensures { result ≡ tables.attribute_code known }
{
    match known {
        KnownAttribute::Shader => 0,
        KnownAttribute::NumThreads => 1,
        KnownAttribute::Mutating => 2,
        KnownAttribute::Unroll => 3,
        KnownAttribute::Loop => 4,
        KnownAttribute::Binding => 5,
    }
}

/// Whether the attribute is one of those.
fn has(known: KnownAttribute, list: &[(KnownAttribute, Place)]) -> bool
    ensures { result ≡ spec.has known list.now }
{
    let Some((entry, rest)) = list.split_first() else {
        return false;
    };
    attribute_code(known) == attribute_code(entry.0) || has(known, rest)
}

/// Whether all of those and one more may stand before that thing.
fn all_stand(list: &[(KnownAttribute, Place)], one: (KnownAttribute, Place), target: Target) -> bool
    ensures { result ≡ list_all (λ x. tables.may_stand x.0 target) (list.now ++ one ∷ []) }
{
    let Some((entry, rest)) = list.split_first() else {
        return may_stand(one.0, target);
    };
    may_stand(entry.0, target) && all_stand(rest, one, target)
}

/// Whether all of those and one more may stand before one of these things.
fn possible(
    targets: &[Target],
    list: &[(KnownAttribute, Place)],
    one: (KnownAttribute, Place),
) -> bool
    ensures { result ≡ spec.possible targets.now (list.now ++ one ∷ []) }
{
    let Some((target, rest)) = targets.split_first() else {
        return false;
    };
    all_stand(list, one, *target) || possible(rest, list, one)
}

/// Whether one more attribute may stand behind those, before one of these things.
pub(crate) fn admits(
    targets: &[Target],
    list: &[(KnownAttribute, Place)],
    known: Option<KnownAttribute>,
    place: Place,
) -> bool
    ensures { result ≡ spec.admits targets.now list.now known place }
{
    let Some(known) = known else {
        return false;
    };
    !has(known, list) && possible(targets, list, (known, place))
}
