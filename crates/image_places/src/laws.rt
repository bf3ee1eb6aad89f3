// Laws of places.

ghost use Rattle.std.specs.Prelude.{◌≡◌, ℕ, ◌≤◌, ◌<◌, ◌+◌, suc, Bool, false, IsTrue, List, length, Some, None, slice_get};
ghost use Rattle.spirv_words.specs.declared.images.Instruction.{Instruction};
ghost use Rattle.spirv_words.specs.declared.images.Image.{Image};
ghost use Rattle.spirv_words.specs.Words.{image_words};
ghost use Rattle.image_places.specs.Places.{word_of, IsFirst, FaultAt};

/// Later instructions begin at later words: each takes one word and one for each operand. After the last one stands the end
/// of the image.
pub fn places_grow()
    ensures next { (is : List Instruction) (k : ℕ) (i : Instruction) → slice_get is k ≡ Some i
        → word_of is (suc k) ≡ word_of is k + suc (length i.operands) }
    ensures grow { (is : List Instruction) (j k : ℕ) → j ≤ k → word_of is j ≤ word_of is k }
    ensures end { (image : Image) → word_of image.instructions (length image.instructions) ≡ length (image_words image) }
{}

/// The first fault stands at the first instruction at which something is wrong.
pub fn the_first_wrong_instruction_is_the_first_fault()
    ensures some { (is : List Instruction) (wrong : ℕ → Bool) (k : ℕ) → k ≤ length is → IsTrue (wrong k)
        → ((j : ℕ) → j < k → wrong j ≡ false) → IsFirst (FaultAt is wrong) (Some (word_of is k)) }
    ensures none { (is : List Instruction) (wrong : ℕ → Bool) → ((j : ℕ) → j ≤ length is → wrong j ≡ false)
        → IsFirst (FaultAt is wrong) None }
{}
