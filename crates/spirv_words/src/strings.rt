// Strings as words.

ghost use Rattle.std.specs.Prelude.{◌≡◌, ◌+◌, ◌*◌, ◌≤◌, ◌++◌, ◌∷◌, [], ℕ, List, Some, length, IfOk};
ghost use Rattle.spirv_words.specs.Strings.{string_words, IsText};
ghost use Rattle.spirv_words.specs.Layouts.{after_string};

use std::alloc::{AllocError, Global};

/// The words that spell a string of these bytes (SPIR-V 1.5, section 2.2.1): four bytes a word, the first one lowest, with
/// a 0 behind the last byte.
pub fn string_words(alloc: Global, bytes: &[u8]) -> Result<Vec<u32>, AllocError>
    ensures { IfOk result (λ words. words.items ≡ string_words bytes.now) }
{
    let mut words = Vec::new(alloc);
    let mut rest = bytes;
    while let [a, b, c, d, more @ ..] = rest {
        words.push(word_of(*a, *b, *c, *d))?;
        rest = more;
    }
    words.push(last_word(rest))?;
    Ok(words)
}

fn word_of(a: u8, b: u8, c: u8, d: u8) -> u32
    ensures { result ≡ a + 256 * b + 65536 * c + 16777216 * d }
{
    a as u32 + 256 * b as u32 + 65536 * c as u32 + 16777216 * d as u32
}

/// The word of fewer than four bytes and a 0 behind them.
fn last_word(rest: &[u8]) -> u32
    requires { length rest.now ≤ 3 }
    ensures { result ∷ [] ≡ string_words rest.now }
{
    match rest {
        [a, b, c] => word_of(*a, *b, *c, 0),
        [a, b] => word_of(*a, *b, 0, 0),
        [a] => word_of(*a, 0, 0, 0),
        _ => 0,
    }
}

/// Reading the words that spell a string leads to what stands behind it.
pub fn string_is_read()
    ensures { (bytes rest : List ℕ) → IsText bytes → after_string (string_words bytes ++ rest) ≡ Some rest }
{}

/// A word for each four bytes, and one more at most.
pub fn string_is_short()
    ensures { (bytes : List ℕ) → 4 * length (string_words bytes) ≤ length bytes + 4 }
{}
