// The first fault of an image, rule by rule.

ghost use Rattle.std.specs.Prelude.{◌≡◌, ◌<◌, ◌^◌, length, IfOk};
ghost use Rattle.spirv_words.specs.Words.{image_words};

use image_calls::first_call_fault;
use image_rules::{first_block_fault, first_id_fault, first_order_fault};
use image_types::first_type_fault;
use spirv_words::{Image, ImageCode};
use std::alloc::{AllocError, Global};

/// A broken rule, and the place in words at which it is broken.
#[derive(Clone, Copy)]
pub struct Fault {
    pub place: usize,
    pub code: ImageCode,
}

ghost use Rattle.spirv_check.specs.Outcomes.{IsFirstFault};

/// The first fault: each rule is tried over the whole image before the next.
pub fn first_fault(alloc: Global, image: &Image) -> Result<Option<Fault>, AllocError>
    requires { length (image_words image.now) < 2 ^ 64 }
    ensures { IfOk result (IsFirstFault image.now) }
{
    if let Some(place) = first_order_fault(image) {
        return Ok(Some(Fault {
            place,
            code: ImageCode::Order,
        }));
    }
    if let Some(place) = first_id_fault(alloc, image)? {
        return Ok(Some(Fault {
            place,
            code: ImageCode::Ids,
        }));
    }
    if let Some(place) = first_type_fault(alloc, image)? {
        return Ok(Some(Fault {
            place,
            code: ImageCode::Types,
        }));
    }
    if let Some(place) = first_block_fault(alloc, image)? {
        return Ok(Some(Fault {
            place,
            code: ImageCode::Blocks,
        }));
    }
    if let Some(place) = first_call_fault(alloc, image)? {
        return Ok(Some(Fault {
            place,
            code: ImageCode::Calls,
        }));
    }
    Ok(None)
}
