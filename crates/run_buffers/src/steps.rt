// Numbers of a line, read byte by byte.

ghost use Rattle.std.specs.Prelude.{◌≡◌, ◌≤◌, ◌<◌, ◌+◌, ◌++◌, ◌∷◌, [], ◌^◌, IfOk, IfErr, IfSome, MatchOption, Some};
ghost use Rattle.std.specs.Fmt.{decimal};
ghost use Rattle.run_buffers.specs.Parts as spec;
ghost use Rattle.run_buffers.specs.Parts.{Stops, Begins, IsStep, IsWithin};

use crate::fields::{Field, Separator, Step};
use crate::numbers::begins;

fn byte_behind(separator: Separator, n: u32) -> u8
    ensures { result ≡ spec.behind separator n }
{
    match separator {
        Separator::Space => b' ',
        Separator::LineFeed => b'\n',
        Separator::BehindCount => { if n == 0 { b'\n' } else { b' ' } }
    }
}

/// The number with one more digit, unless it is 0.
fn longer(value: Option<u32>, digit: u8) -> Option<u64>
    requires few { digit ≤ 9 }
    requires narrow { IfSome value (λ v. v < 2 ^ 32) }
    ensures { MatchOption result (value ≡ Some 0) (λ w. (w < 2 ^ 40) × (decimal w ≡ spec.shown value ++ (48 + digit) ∷ [])) }
{
    match value {
        None => Some(digit as u64),
        Some(v) => {
            if v == 0 {
                None
            } else {
                Some(10 * (v as u64) + digit as u64)
            }
        }
    }
}

/// One more digit, worth at most 9.
fn digit(field: Field, value: Option<u32>, digit: u8) -> Step
    requires few { digit ≤ 9 }
    requires narrow { IfSome value (λ v. v ≤ field.high) }
    requires begun { Begins field.low field.high (spec.shown value) }
    ensures { IsStep field value (48 + digit) result }
{
    match longer(value, digit) {
        Some(longer) if begins(longer, field.low, field.high) => Step::Digit(longer as u32),
        _ => Step::Wrong,
    }
}

/// A byte that is no digit.
fn ending(field: Field, value: Option<u32>, b: u8) -> Step
    requires other { (48 ≤ b) × (b ≤ 57) → ⊥ }
    requires narrow { IfSome value (λ v. v ≤ field.high) }
    requires begun { Begins field.low field.high (spec.shown value) }
    ensures { IsStep field value b result }
{
    match value {
        Some(v) if field.low <= v && b == byte_behind(field.separator, v) => Step::End(v),
        _ => Step::Wrong,
    }
}

fn step(field: Field, value: Option<u32>, b: u8) -> Step
    requires narrow { IfSome value (λ v. v ≤ field.high) }
    requires begun { Begins field.low field.high (spec.shown value) }
    ensures { IsStep field value b result }
{
    if b.is_ascii_digit() {
        digit(field, value, b - b'0')
    } else {
        ending(field, value, b)
    }
}

/// The number at the front with the byte behind it, and the bytes that are left. A refusal says how many bytes are left
/// from the wrong one on.
pub fn number(field: Field, bytes: &[u8]) -> Result<(u32, &[u8]), usize>
    ensures within { IfOk result (λ r. IsWithin field.low field.high r.0) }
    ensures read { IfOk result (λ r. bytes.now ≡ spec.field field.separator r.0 ++ r.1.now) }
    ensures stops { IfErr result (λ left. Stops (spec.field field.separator) (IsWithin field.low field.high) bytes.now left) }
{
    let mut value = None;
    for (i, b) in bytes.iter().enumerate() {
        match step(field, value, *b) {
            Step::Digit(longer) => value = Some(longer),
            Step::End(n) => return Ok((n, &bytes[i + 1..])),
            Step::Wrong => return Err(bytes.len() - i),
        }
    }
    Err(0)
}
