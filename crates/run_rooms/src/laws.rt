// Laws of the calls of a valid image, the contract of a function that does nothing.

ghost use Rattle.std.specs.Prelude.{List};
ghost use Rattle.spirv_words.specs.declared.images.Instruction.{Instruction};
ghost use Rattle.run_rooms.specs.Valid.{IsOfValid};
ghost use Rattle.run_rooms.specs.Calls.{KeepsCalls};

use image_calls::calls_lead_nowhere_back;
use image_scopes::{what_is_run_fits, where_functions_begin_and_end};

/// The calls of a valid image are of functions, stand in functions, and lead nowhere back.
pub fn calls_of_valid_images()
    ensures { (code : List Instruction) → IsOfValid code → KeepsCalls code }
{
    what_is_run_fits();
    where_functions_begin_and_end();
    calls_lead_nowhere_back();
}
