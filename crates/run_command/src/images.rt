// The image of a file.

ghost use Rattle.std.specs.Prelude.{◌≡◌, ◌≤◌, IfOk, length};
ghost use Rattle.spirv_words.specs.Refusals.{IfRefused};
ghost use Rattle.run_command.specs.Files.{HoldsImage, WrongImage, file_limit};

use spirv_check::{ValidImage, check_image};
use spirv_words::{ImageFault, from_bytes, read};
use std::alloc::Global;

/// The valid image that the bytes hold.
pub fn image_of(alloc: Global, bytes: &[u8]) -> Result<ValidImage, ImageFault>
    requires { length bytes.now ≤ file_limit }
    ensures valid { IfOk result (λ image. HoldsImage bytes.now image) }
    ensures wrong { IfRefused result (WrongImage bytes.now) }
{
    let words = from_bytes(alloc, bytes)?;
    match read(alloc, words.as_slice()) {
        Ok(image) => check_image(alloc, image),
        Err(fault) => Err(fault),
    }
}
