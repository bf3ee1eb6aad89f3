// The first fault of an image's types.

ghost use Rattle.std.specs.Prelude.{◌≡◌, ◌<◌, ◌^◌, IfOk, length};
ghost use Rattle.spirv_words.specs.Words.{image_words};
ghost use Rattle.image_places.specs.Places.{IsFirst, FaultAt};
ghost use Rattle.image_types.specs.Checking.{has_wrong_types};

use crate::checking::first_wrong;
use image_declarations::Declarations;
use image_lookup::word_of;
use image_places::{places_grow, the_first_wrong_instruction_is_the_first_fault};
use spirv_words::Image;
use std::alloc::{AllocError, Global};

/// The word at which the first instruction begins whose types do not fit, if there is one. An image is asked for that has
/// no fault of order and of ids; of another, what is said holds too.
pub fn first_type_fault(alloc: Global, image: &Image) -> Result<Option<usize>, AllocError>
    requires { length (image_words image.now) < 2 ^ 64 }
    ensures { IfOk result (IsFirst (FaultAt image.now.instructions (has_wrong_types image.now.instructions))) }
{
    places_grow();
    the_first_wrong_instruction_is_the_first_fault();
    let code = image.instructions.as_slice();
    let declarations = Declarations::new(alloc, code)?;
    match first_wrong(alloc, &declarations, code)? {
        Some(number) => Ok(Some(word_of(code, number))),
        None => Ok(None),
    }
}
