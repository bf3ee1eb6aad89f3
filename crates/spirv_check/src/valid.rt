// Valid images.

ghost use Rattle.std.specs.Prelude.{◌≡◌, ◌*◌, ◌<◌, ◌≤◌, slice_index, IfOk};
ghost use Rattle.spirv_check.specs.Entry.{entry_name, group_size};
ghost use Rattle.spirv_check.specs.Valid.{Valid};

use crate::entry::{entry_name, group_size};
use slang_names::Name;
use spirv_words::Image;
use std::alloc::{AllocError, Global};
use std::marker::Model;

/// An image that some words spell and that keeps all rules. A contract sees the image.
#[derive(Drop)]
pub struct ValidImage {
    image: Image,
    name: Name,
    size: [u32; 3],
}

impl Model for ValidImage {
    ghost use Rattle.std.specs.Prelude.{◌≡◌};
    ghost use Rattle.spirv_words.specs.declared.images.Image.{Image};

    ghost Value = { Image };

    ghost use Rattle.spirv_check.specs.Entry.{entry_name, group_size};
    ghost use Rattle.spirv_check.specs.Valid.{Valid};

    ghost view = { λ v. v.image };

    ghost invariant = { λ v. Valid v.image × (v.name ≡ entry_name v.image.instructions) × (v.size ≡ group_size v.image.instructions) };
}

impl ValidImage {
    /// The image, which was found to be valid.
    pub(crate) fn new(alloc: Global, image: Image) -> Result<ValidImage, AllocError>
        requires { Valid image }
        ensures { IfOk result (λ valid. valid ≡ image) }
    {
        let instructions = image.instructions.as_slice();
        let name = entry_name(alloc, instructions)?;
        let size = group_size(instructions);
        Ok(ValidImage { image, name, size })
    }

    /// The image.
    pub fn image(&self) -> &Image
        ensures same { result.now ≡ self.now }
        ensures valid { Valid self.now }
    {
        &self.image
    }

    /// The name of its one entry point, as any bytes but 0.
    pub fn entry_name(&self) -> &Name
        ensures { result.now ≡ entry_name self.now.instructions }
    {
        &self.name
    }

    /// The sizes of a group of its entry in x, y and z. A group has at least one invocation, and at most 1,024.
    pub fn group_size(&self) -> [u32; 3]
        ensures sizes { result ≡ group_size self.now.instructions }
        ensures some { 0 < slice_index result 0 * slice_index result 1 * slice_index result 2 }
        ensures few { slice_index result 0 * slice_index result 1 * slice_index result 2 ≤ 1024 }
    {
        self.size
    }
}
