// One number, at a place.

ghost use Rattle.std.specs.Prelude.{◌≡◌, ◌≤◌, ◌<◌, ◌+◌, ◌-◌, ◌^◌, ◌++◌, ◌∷◌, [], List, ℕ, length, drop, IfOk, Ok, Err};
ghost use Rattle.form_grammar.specs.Trees.{spelled_number};
ghost use Rattle.form_laws.specs.Fields.{NumAt};

use form_grammar::{FieldFault, number_at};
use slang_names::FormCode;

/// The number that is spelled from a place on, at most 4294967295 and in its shortest spelling, and the place
/// behind it.
pub fn num_at(bytes: &[u8], at: usize) -> Result<(u32, usize), FieldFault>
    requires { at ≤ length bytes.now }
    ensures { NumAt bytes.now at result }
{
    match number_at(&bytes[at..]) {
        Ok((number, rest)) => Ok((number, bytes.len() - rest.len())),
        Err(stop) => match stop.code {
            FormCode::Short => Err(FieldFault::Short),
            _ => Err(FieldFault::Wrong(bytes.len() - stop.left)),
        },
    }
}
