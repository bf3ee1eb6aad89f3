// A law of numbers, as the contract of a function that does nothing.

ghost use Rattle.std.specs.Prelude.{◌≡◌, ◌↔◌, ℕ, ◌<◌, ◌≤◌, ◌^◌, List, Some};
ghost use Rattle.std.specs.Fmt.{decimal};
ghost use Rattle.command_words.specs.Words.{number_within};

/// A word is a number exactly where it is that number as it is printed, and the number is within the limit.
pub fn numbers_are_decimal()
    ensures { (limit n : ℕ) (word : List ℕ) → limit < 2 ^ 64 → (number_within limit word ≡ Some n) ↔ (word ≡ decimal n) × (n ≤ limit) }
{}
