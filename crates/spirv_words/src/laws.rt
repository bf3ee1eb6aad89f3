// Laws of the definitions, each the contract of a function that does nothing.

ghost use Rattle.std.specs.Prelude.{◌≡◌, ◌⊎◌, ◌↔◌, ℕ, ◌<◌, ◌^◌, true, false, List, All, IsTrue, Some, None};
ghost use Rattle.spirv_words.specs.declared.images.Image.{Image};
ghost use Rattle.spirv_words.specs.declared.faults.ImageCode.{ImageCode};
ghost use Rattle.spirv_words.specs.declared.opcodes.Op.{Op};
ghost use Rattle.spirv_words.specs.Layouts.{fits, is_group};
ghost use Rattle.spirv_words.specs.Misfits.{misfit, wrong_size};
ghost use Rattle.spirv_words.specs.Words.{Spells};
ghost use Rattle.spirv_words.specs.Unread.{FirstUnread};

/// Words spell one image, or have one first fault, and never both.
pub fn words_have_one_reading()
    ensures one_image { (words : List ℕ) (a b : Image) → Spells words a → Spells words b → a ≡ b }
    ensures one_fault { (words : List ℕ) (p q : ℕ) (c d : ImageCode) → FirstUnread words p c → FirstUnread words q d → (p ≡ q) × (c ≡ d) }
    ensures not_both { (words : List ℕ) (image : Image) (place : ℕ) (code : ImageCode) → Spells words image → FirstUnread words place code → ⊥ }
    ensures one_or_other { (words : List ℕ) → All (λ w. w < 2 ^ 32) words
        → ((image : Image) × Spells words image) ⊎ ((place : ℕ) × (code : ImageCode) × FirstUnread words place code) }
{}

/// Operands fit exactly where none of an instruction's words is wrong; and of the three sizes of a group, the wrong one is
/// the first with which no group can have the sizes so far.
pub fn the_wrong_word_is_the_first()
    ensures fit { (op : Op) (os : List ℕ) → IsTrue (fits op os) ↔ (misfit op os ≡ None) }
    ensures first_size { (x y z : ℕ) → wrong_size x y z ≡ Some 3 → (b c : ℕ) → is_group x b c ≡ false }
    ensures second_size { (x y z : ℕ) → wrong_size x y z ≡ Some 4
        → ((b : ℕ) × (c : ℕ) × (is_group x b c ≡ true)) × ((c : ℕ) → is_group x y c ≡ false) }
    ensures third_size { (x y z : ℕ) → wrong_size x y z ≡ Some 5
        → ((c : ℕ) × (is_group x y c ≡ true)) × (is_group x y z ≡ false) }
{}
