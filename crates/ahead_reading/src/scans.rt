// What is known of the scans of a text.

ghost use Rattle.std.specs.Prelude.{◌≡◌, ◌<◌, ℕ, List, length, drop, Some, IfOk};
ghost use Rattle.slang_reading.specs.Lexed.{Lexed};
ghost use Rattle.slang_reading.specs.Reading.{first};
ghost use Rattle.type_reading.specs.Scanning.{scanned};
ghost use Rattle.ahead_reading.specs.Knowing.{Knows, Tells, Told, ToldAt, Grows};

use sqlite_items::Items;
use std::alloc::{AllocError, Global};

/// What is known of the scan of generic arguments from one token on.
#[derive(Clone, Copy)]
pub enum Known {
    /// Nothing.
    Unknown,
    /// They end before the token with that index.
    Closed(usize),
    /// They stop where so many tokens have been looked at.
    Stopped(usize),
}

/// What is known of the scan from each token on.
#[derive(Drop)]
pub struct Scans {
    pub known: Items<Known>,
}

fn known_at(known: &[Known], at: usize) -> Option<Known>
    ensures { result ≡ first (drop at known.now) }
{
    known.get(at).copied()
}

impl Scans {
    /// Nothing is known of so many tokens.
    pub(crate) fn unknown(alloc: Global, count: usize) -> Result<Scans, AllocError>
        ensures knows { (ts : List Lexed) → IfOk result (λ scans. Knows scans ts) }
        ensures count { IfOk result (λ scans. length scans.known ≡ count) }
    {
        let mut known = Items::new(alloc);
        for _token in 0..count {
            known.push(Known::Unknown)?;
        }
        Ok(Scans { known })
    }

    /// What is known of the scan from that token on.
    pub(crate) fn of(&self, at: usize) -> Known
        ensures knows { (ts : List Lexed) (seen : ℕ) → Knows self.now ts → Tells result seen (scanned ts at seen) }
        ensures told { Told (Some result) → ToldAt self.now at }
    {
        match known_at(self.known.as_slice(), at) {
            Some(known) => known,
            None => Known::Unknown,
        }
    }

    /// That is known of the scan from that token on.
    pub(crate) fn tell(&mut self, at: usize, known: Known)
        requires { Told (Some known) }
        ensures knows { (ts : List Lexed) → Knows self.old ts → ((seen : ℕ) → Tells known seen (scanned ts at seen)) → Knows self.new ts }
        ensures grows { Grows self.old self.new }
        ensures told { at < length self.new.known → ToldAt self.new at }
    {
        if at < self.known.len() {
            self.known.set(at, known);
        }
    }
}
