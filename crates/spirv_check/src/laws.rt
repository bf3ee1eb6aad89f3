// Laws of valid images, and of what an image says of its entry.

ghost use Rattle.std.specs.Prelude.{◌≡◌, ◌++◌, ℕ, List, Some};
ghost use Rattle.spirv_words.specs.declared.images.Image.{Image};
ghost use Rattle.spirv_words.specs.declared.faults.ImageCode.{ImageCode};
ghost use Rattle.spirv_words.specs.Strings.{string_words, IsText};
ghost use Rattle.spirv_words.specs.Bytes.{bytes_of_words};
ghost use Rattle.image_places.specs.Places.{op_at};
ghost use Rattle.spirv_check.specs.Entry.{before_zero};
ghost use Rattle.spirv_check.specs.Valid.{Valid, FirstInvalid};

use spirv_words::Op;

/// The name that is read from the words of a string is the string.
pub fn entry_name_is_read()
    ensures { (bytes rest : List ℕ) → IsText bytes → before_zero (bytes_of_words (string_words bytes ++ rest)) ≡ bytes }
{}

/// A valid image begins with its capability, its memory model, its entry point and the entry's mode.
pub fn a_valid_image_begins_with_its_entry()
    ensures { (image : Image) → Valid image → (op_at image.instructions 0 ≡ Some Op.Capability) × (op_at image.instructions 1 ≡ Some Op.MemoryModel)
        × (op_at image.instructions 2 ≡ Some Op.EntryPoint) × (op_at image.instructions 3 ≡ Some Op.ExecutionMode) }
{}

/// An image has at most one first fault, and none if it is valid.
pub fn an_image_has_one_first_fault()
    ensures once { (image : Image) (p q : ℕ) (c d : ImageCode) → FirstInvalid image p c → FirstInvalid image q d → (p ≡ q) × (c ≡ d) }
    ensures never_valid { (image : Image) (place : ℕ) (code : ImageCode) → Valid image → FirstInvalid image place code → ⊥ }
{}
