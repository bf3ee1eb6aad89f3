// Laws of the buffers text, of writes and of the numbers of invocations.

ghost use Rattle.std.specs.Prelude.{◌≡◌, ◌≢◌, ◌+◌, ◌*◌, ◌<◌, ◌≤◌, ◌⊎◌, List, ℕ, Some, IsSome, length, take};
ghost use Rattle.run_buffers.specs.declared.buffer.Buffer.{Buffer};
ghost use Rattle.run_buffers.specs.Texts.{text_of, Fits, IsTextOf, GoesOn, RefusedAt};
ghost use Rattle.run_buffers.specs.Memory.{word_at, with_word};
ghost use Rattle.run_buffers.specs.Invocations.{volume, number_of, IsPlace, ids_of};

/// Bytes are the text of no second list of buffers, and what has a text is read from it.
pub fn one_reading()
    ensures once { (bytes : List ℕ) (a b : List Buffer) → IsTextOf bytes a → IsTextOf bytes b → a ≡ b }
    ensures read_undoes_write { (bs : List Buffer) → Fits bs → length (text_of bs) ≤ 16777216 → IsTextOf (text_of bs) bs }
    ensures write_undoes_read { (bytes : List ℕ) (bs : List Buffer) → IsTextOf bytes bs → text_of bs ≡ bytes }
{}

/// Bytes are refused at one place at most, and none that are a text. Some text goes on with the bytes before the place;
/// with the byte there none does, so that no text begins with that many bytes and one more.
pub fn one_refusal()
    ensures once { (bytes : List ℕ) (p q : ℕ) → RefusedAt bytes p → RefusedAt bytes q → p ≡ q }
    ensures no_text { (bytes : List ℕ) (bs : List Buffer) (p : ℕ) → IsTextOf bytes bs → RefusedAt bytes p → ⊥ }
    ensures before { (bytes : List ℕ) (p : ℕ) → RefusedAt bytes p → GoesOn (take p bytes) }
    ensures there { (bytes : List ℕ) (p : ℕ) → RefusedAt bytes p → p < length bytes → GoesOn (take (p + 1) bytes) → ⊥ }
    ensures limit { (bytes : List ℕ) (p : ℕ) → RefusedAt bytes p → p ≤ 16777216 }
{}

/// A write changes the one word that is there.
pub fn write_changes_one_word()
    ensures there { (bs : List Buffer) (p i w : ℕ) → IsSome (word_at bs p i) → word_at (with_word bs p i w) p i ≡ Some w }
    ensures elsewhere { (bs : List Buffer) (p i w q j : ℕ) → (q ≢ p) ⊎ (j ≢ i) → word_at (with_word bs p i w) q j ≡ word_at bs q j }
{}

/// Each number of an invocation is of a group and a place in it, and each group and place in it has a number: that of
/// the group times the size, and that of the place.
pub fn each_invocation_once()
    ensures group { (size groups : List ℕ) (n : ℕ) → n < volume groups * volume size → IsPlace groups (ids_of size groups n).group }
    ensures local { (size groups : List ℕ) (n : ℕ) → n < volume groups * volume size → IsPlace size (ids_of size groups n).local }
    ensures number { (size groups : List ℕ) (n : ℕ) → n < volume groups * volume size
        → number_of groups (ids_of size groups n).group * volume size + (ids_of size groups n).index ≡ n }
    ensures reached { (size groups group local : List ℕ) → IsPlace groups group → IsPlace size local
        → (n : ℕ) × (n < volume groups * volume size) × ((ids_of size groups n).group ≡ group) × ((ids_of size groups n).local ≡ local) }
{}
