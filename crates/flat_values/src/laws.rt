// Laws of the definitions, each the contract of a function that does nothing.

ghost use Rattle.std.specs.Prelude.{◌≡◌, ◌⊎◌, ℕ, ◌+◌, ◌<◌, ◌≤◌, ◌^◌, List, All, ◌++◌, Option, Some, length, replicate};
ghost use Rattle.behavior.specs.Values.{Value, part, put_part};
ghost use Rattle.spirv_words.specs.Machine.{Shape, zero_of};
ghost use Rattle.spirv_words.specs.Step.{word_way, each_word, both_words};
ghost use Rattle.flat_values.specs.Flat.{flat, width, IsOf, IsData};
ghost use Rattle.flat_values.specs.Ranges.{Stands, written};
ghost use Rattle.flat_values.specs.Pieces.{piece, then_piece, IsPart, IsReplaced};
ghost use Rattle.flat_values.specs.Lanes.{each_of, both_of, IsOfWords, AreAlike, GivesWords, IsOutcome};

/// A value of a shape has that shape's number of words, and no other value of the shape has the same.
pub fn values_are_their_words()
    ensures count { (v : Value) (s : Shape) → IsOf v s → length (flat v) ≡ width s }
    ensures one_value { (v w : Value) (s : Shape) → IsOf v s → IsOf w s → flat v ≡ flat w → v ≡ w }
{}

/// The zero of a shape is a value of it, and its words are all 0.
pub fn zeros_are_zeros()
    ensures is_of { (s : Shape) → IsData s → IsOf (zero_of s) s }
    ensures words { (s : Shape) → IsData s → flat (zero_of s) ≡ replicate (width s) 0 }
{}

/// What is written stands there, and what stood apart from it stays.
pub fn what_is_written_stands()
    ensures count { (ws xs : List ℕ) (place : ℕ) → place + length xs ≤ length ws → length (written ws place xs) ≡ length ws }
    ensures there { (ws xs : List ℕ) (place : ℕ) → place + length xs ≤ length ws → Stands xs place (written ws place xs) }
    ensures apart { (ws xs ys : List ℕ) (place other : ℕ) → place + length xs ≤ length ws → Stands ys other ws
        → (other + length ys ≤ place) ⊎ (place + length xs ≤ other) → Stands ys other (written ws place xs) }
{}

/// Where a value stands among words, its part at a path stands at the place that its shape gives, and to replace a part is to
/// write that part's words. The place of a part of a part is found from the place of the first.
pub fn parts_stand_at_their_pieces()
    ensures part { (v : Value) (s : Shape) (path : List ℕ) (from : ℕ) (ws : List ℕ) → IsOf v s → Stands (flat v) from ws
        → IsPart (part v path) (piece s path from) ws }
    ensures put_part { (v new : Value) (s : Shape) (path : List ℕ) (from : ℕ) (ws : List ℕ) → IsOf v s → Stands (flat v) from ws
        → IsReplaced (put_part v path new) (piece s path from) new s from ws }
    ensures composed { (s : Shape) (path more : List ℕ) (from : ℕ)
        → piece s (path ++ more) from ≡ then_piece (piece s path from) (λ place of. piece of more place) }
{}

/// An operator on values of words goes word by word over their words, and is undefined where it is for one of them.
pub fn operators_go_word_by_word()
    ensures one { (f : ℕ → Option ℕ) (v : Value) (s : Shape) → ((x : ℕ) → x < 2 ^ 32 → GivesWords (f x)) → IsOf v s → IsOfWords s
        → IsOutcome (each_word (λ x. word_way (f x)) v) (each_of f (flat v)) s }
    ensures two { (f : ℕ → ℕ → Option ℕ) (v w : Value) (s t : Shape)
        → ((x y : ℕ) → x < 2 ^ 32 → y < 2 ^ 32 → GivesWords (f x y)) → IsOf v s → IsOf w t → AreAlike s t
        → IsOutcome (both_words (λ x y. word_way (f x y)) v w) (both_of f (flat v) (flat w)) s }
{}
