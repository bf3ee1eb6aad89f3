// The check of an image.

ghost use Rattle.std.specs.Prelude.{◌≡◌, ℕ, ◌<◌, ◌^◌, length, Ok, Err, IfOk};
ghost use Rattle.spirv_words.specs.declared.faults.ImageCode.{ImageCode};
ghost use Rattle.spirv_words.specs.declared.faults.ImageFault.TheVariants.{Refused};
ghost use Rattle.spirv_words.specs.Words.{image_words, CanBeSpelled};
ghost use Rattle.spirv_words.specs.Refusals.{IfRefused, UnlessMemory};
ghost use Rattle.spirv_check.specs.Valid.{Valid, FirstInvalid};

use crate::faults::first_fault;
use crate::valid::ValidImage;
use spirv_words::{Image, ImageFault};
use std::alloc::Global;

/// The image, if it keeps the rules of images: the order of its instructions (405), the ids and where they hold (406), the
/// types of operands (407), the form of blocks (408) and the calls (409). Each rule is tried over the whole image before the
/// next, and the image is refused at the first place, in words, at which the first broken rule is broken.
pub fn check_image(alloc: Global, image: Image) -> Result<ValidImage, ImageFault>
    requires spelled { CanBeSpelled image }
    requires short { length (image_words image) < 2 ^ 64 }
    ensures valid { IfOk result (λ checked. (checked ≡ image) × Valid checked) }
    ensures invalid { IfRefused result (FirstInvalid image) }
    ensures if_valid { Valid image → UnlessMemory result (result ≡ Ok image) }
    ensures if_invalid { (place : ℕ) (code : ImageCode) → FirstInvalid image place code
        → UnlessMemory result (result ≡ Err (Refused place code)) }
{
    checked(alloc, image)
}

fn checked(alloc: Global, image: Image) -> Result<ValidImage, ImageFault>
    requires spelled { CanBeSpelled image }
    requires short { length (image_words image) < 2 ^ 64 }
    ensures valid { IfOk result (λ checked. (checked ≡ image) × Valid checked) }
    ensures invalid { IfRefused result (FirstInvalid image) }
{
    match first_fault(alloc, &image).map_err(ImageFault::Memory)? {
        Some(fault) => Err(ImageFault::Refused {
            place: fault.place as u64,
            code: fault.code,
        }),
        None => ValidImage::new(alloc, image).map_err(ImageFault::Memory),
    }
}
