// A sink of bytes, and how all of a list of bytes goes into one.

ghost use Rattle.std.specs.Prelude.{◌≡◌, ℕ, ◌<◌, ◌≤◌, List, ◌++◌, Option, Some, IfOk, OnOk, OnErr, length, take};
ghost use Rattle.slang_store.specs.Counts.{Rose};
ghost use Rattle.slang_store.specs.Contents.{IsPrefixOf};

use thiserror::Error;

/// The outside failed, and took nothing.
#[derive(Clone, Copy, PartialEq, Eq, Debug, Error)]
#[error("the output could not be written")]
pub struct Failed;

/// What takes bytes, some at a time. An implementation tells which bytes it took, or tells nothing; and it counts its
/// faults, so that a fault is answered only where the count rose in that call.
pub trait Sink {
    /// The bytes taken so far, where they are told.
    ghost taken: { Self → Option (List ℕ) };

    /// How many calls failed.
    ghost faults: { Self → ℕ };

    /// Takes some first bytes of a piece, and answers how many.
    fn take(&mut self, piece: &[u8]) -> Result<usize, Failed>
        // At least one byte is taken of a piece that has one.
        ensures within { IfOk result (λ n. n ≤ length piece.now) }
        ensures moves { IfOk result (λ n. 0 < length piece.now → 0 < n) }
        ensures ok { (b : List ℕ) → taken self.old ≡ Some b
            → IfOk result (λ n. taken self.new ≡ Some (b ++ take n piece.now)) }

        // A fault takes nothing, and is answered only where it was counted.
        ensures err { OnErr result (taken self.new ≡ taken self.old) }
        ensures failed { OnErr result (Rose (faults self.old) (faults self.new)) }
        ensures no_fault_lost { faults self.old ≤ faults self.new };
}

/// Gives all of the bytes to a sink, piece by piece. It takes no memory. After a fault the sink has taken a part of
/// the bytes, from their first on.
pub fn write_all<S: Sink>(out: &mut S, bytes: &[u8]) -> Result<(), Failed>
    ensures ok { (b : List ℕ) → S.taken out.old ≡ Some b
        → OnOk result (S.taken out.new ≡ Some (b ++ bytes.now)) }
    ensures partly { (b : List ℕ) → S.taken out.old ≡ Some b
        → OnErr result ((p : List ℕ) × IsPrefixOf p bytes.now × (S.taken out.new ≡ Some (b ++ p))) }
    ensures failed { OnErr result (Rose (S.faults out.old) (S.faults out.new)) }
    ensures no_fault_lost { S.faults out.old ≤ S.faults out.new }
{
    let mut done = 0;
    while done < bytes.len() {
        done += out.take(&bytes[done..])?;
    }
    Ok(())
}
