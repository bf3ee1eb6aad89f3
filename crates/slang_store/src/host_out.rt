// The standard output.

ghost use Rattle.std.specs.Prelude.{◌≡◌};

use crate::{Failed, Sink};
use std::marker::Model;

/// The standard output. It tells nothing of what it took. A contract sees the count of faults, which stays at the last
/// value of a u64.
#[derive(Drop)]
pub struct HostOut<R> {
    rt: R,
    faults: u64,
}

impl<R> Model for HostOut<R> {
    ghost use Rattle.std.specs.Prelude.{ℕ};

    ghost Value = { ℕ };

    ghost view = { λ out. out.faults };
}

impl<R: Print> HostOut<R> {
    /// The output, with no fault counted.
    pub fn new(rt: R) -> HostOut<R>
        ensures { result ≡ 0 }
    {
        HostOut { rt, faults: 0 }
    }
}

impl<R: Print> Sink for HostOut<R> {
    ghost use Rattle.std.specs.Prelude.{None};

    ghost taken = { λ out. None };

    ghost faults = { λ out. out };

    fn take(&mut self, piece: &[u8]) -> Result<usize, Failed> {
        match self.rt.write_some(piece) {
            Ok(count) if count > 0 || piece.is_empty() => Ok(count),
            _ => {
                self.faults = self.faults.saturating_add(1);
                Err(Failed)
            }
        }
    }
}
