// Sets of bytes, runs of them, and the value of digits.

ghost use Rattle.std.specs.Prelude.{◌≡◌, ◌≤◌, length};
ghost use Rattle.slang_tokens.specs.Bytes as spec;

/// Bytes that go on a lexeme.
#[derive(Clone, Copy)]
pub enum Set {
    /// Letters, digits and `_`.
    Word,
    /// Digits.
    Decimal,
    /// Digits of a hexadecimal number.
    Hexadecimal,
    /// Bytes that may stand in a string.
    Quotable,
    /// All but the line feed.
    Line,
}

/// To which base a number is written.
#[derive(Clone, Copy)]
pub enum Radix {
    Decimal,
    Hexadecimal,
}

pub fn is_letter(b: u8) -> bool
    ensures { result ≡ spec.is_letter b }
{
    (b >= b'A' && b <= b'Z') || (b >= b'a' && b <= b'z') || b == b'_'
}

pub fn is_digit(b: u8) -> bool
    ensures { result ≡ spec.is_digit b }
{
    b >= b'0' && b <= b'9'
}

pub fn is_hexadecimal(b: u8) -> bool
    ensures { result ≡ spec.is_hexadecimal b }
{
    is_digit(b) || (b >= b'A' && b <= b'F') || (b >= b'a' && b <= b'f')
}

pub fn is_quotable(b: u8) -> bool
    ensures { result ≡ spec.is_quotable b }
{
    b >= b' ' && b <= b'~' && b != b'"' && b != b'\\'
}

pub fn is_blank(b: u8) -> bool
    ensures { result ≡ spec.is_blank b }
{
    b == b'\t' || b == b'\n' || b == b'\r' || b == b' '
}

pub fn is_in(set: Set, b: u8) -> bool
    ensures { result ≡ spec.is_in set b }
{
    match set {
        Set::Word => is_letter(b) || is_digit(b),
        Set::Decimal => is_digit(b),
        Set::Hexadecimal => is_hexadecimal(b),
        Set::Quotable => is_quotable(b),
        Set::Line => b != b'\n',
    }
}

/// How many bytes from the front on are of the set.
pub fn run(set: Set, bytes: &[u8]) -> usize
    ensures value { result ≡ spec.run (spec.is_in set) bytes.now }
    ensures within { result ≤ length bytes.now }
{
    for (i, b) in bytes.iter().enumerate() {
        if !is_in(set, *b) {
            return i;
        }
    }
    bytes.len()
}

/// Whether all bytes are of the set.
#[tactic(auto, using(crate::proofs::Runs::all_is))]
pub fn all(set: Set, bytes: &[u8]) -> bool
    ensures { result ≡ spec.all (spec.is_in set) bytes.now }
{
    run(set, bytes) == bytes.len()
}

fn base(radix: Radix) -> u64
    ensures { result ≡ spec.base radix }
{
    match radix {
        Radix::Decimal => 10,
        Radix::Hexadecimal => 16,
    }
}

fn digit_value(b: u8) -> u8
    ensures { result ≡ spec.digit_value b }
{
    if is_digit(b) {
        b - b'0'
    } else if b >= b'a' {
        b - 87
    } else {
        b.saturating_sub(55)
    }
}

/// The value of the digits, where 32 bits hold it.
pub fn value(radix: Radix, digits: &[u8]) -> Option<u32>
    ensures { result ≡ spec.value radix digits.now }
{
    let base = base(radix);
    let mut value: u64 = 0;
    for b in digits {
        value = value * base + u64::from(digit_value(*b));
        if value > u64::from(u32::MAX) {
            return None;
        }
    }
    Some(value as u32)
}
