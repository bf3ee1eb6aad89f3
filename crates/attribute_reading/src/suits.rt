// Which attributes may not stand before a thing.

ghost use Rattle.std.specs.Prelude.{◌≡◌};
ghost use Rattle.statement_grammar.specs.AttributesDescent as spec;

use slang_names::Place;
use statement_grammar::{KnownAttribute, Target, may_stand};

/// Where the name of the first attribute lies that may not stand there.
pub fn misfit(target: Target, list: &[(KnownAttribute, Place)]) -> Option<Place>
    ensures { result ≡ spec.misfit target list.now }
{
    let (entry, rest) = list.split_first()?;
    if may_stand(entry.0, target) {
        misfit(target, rest)
    } else {
        Some(entry.1)
    }
}
