// The first name that stands twice.

ghost use Rattle.std.specs.Prelude.{◌≡◌, [], IfOk};
ghost use Rattle.plans.specs.Plans.{Gives};
ghost use Rattle.declared_names.specs.Views.{declarations_of};
ghost use Rattle.repeated_names.specs.Twice as spec;
ghost use Rattle.repeated_names.specs.Views.{all_named};

use crate::Named;
use crate::groups::Key;
use crate::names::all_names;
use declared_names::Declaration;
use plans::Fault;
use slang_names::{ModuleCode, Place};
use std::alloc::{AllocError, Global};
use std::collections::HashSet;

/// The first of these names that an earlier one of its group has, found by a set of those before.
fn first_twice(alloc: Global, names: &[Named<'_>]) -> Result<Option<Place>, AllocError>
    ensures { IfOk result (λ place. place ≡ spec.first_twice [] (all_named names.now)) }
{
    let mut before = HashSet::new(alloc);
    for named in names {
        let key = Key {
            group: named.group,
            bytes: named.name.name.as_bytes(),
        };
        if !before.insert(key)? {
            return Ok(Some(named.name.place));
        }
    }
    Ok(None)
}

/// The place of the first name that is declared for the second time in its group.
pub fn twice(alloc: Global, declarations: &[Declaration<'_>]) -> Result<Option<Place>, AllocError>
    ensures { IfOk result (λ place. place ≡ spec.first_twice [] (spec.all_names (declarations_of declarations.now))) }
{
    let names = all_names(alloc, declarations)?;
    first_twice(alloc, names.as_slice())
}

/// The rule that no name is declared twice in its group (132).
pub fn twice_line(alloc: Global, declarations: &[Declaration<'_>]) -> Result<(), Fault>
    ensures { Gives result (spec.twice_line (declarations_of declarations.now)) }
{
    match twice(alloc, declarations)? {
        Some(place) => Err(Fault::Wrong(place, ModuleCode::Twice)),
        None => Ok(()),
    }
}
