// The longest lexeme: a length past which no front of a text is one, and then the fronts downwards from it.

ghost use Rattle.std.specs.Prelude.{◌≡◌, ◌≢◌, ◌<◌, ◌≤◌, ◌+◌, ◌∷◌, length, false};
ghost use Rattle.slang_tokens.specs.Lexemes.{IsLongest, Bounds};

use crate::bytes::{Set, is_digit, is_letter, run};
use crate::lexemes::{Lexeme, close, lexeme_of};
use crate::numbers::is_radix;
use slang_names::ModuleCode;

/// For what begins with `0` and that byte.
fn bound_zero_by(b: u8, more: &[u8]) -> usize
    ensures some { 0 < result }
    ensures within { result ≤ length more.now + 2 }
    ensures none { Bounds (48 ∷ b ∷ more.now) result }
{
    if is_radix(b) {
        return (run(Set::Hexadecimal, more) + 4).min(more.len() + 2);
    }
    (more.len() + 2).min(3)
}

/// For what begins with `0`.
fn bound_zero(rest: &[u8]) -> usize
    ensures some { 0 < result }
    ensures within { result ≤ length rest.now + 1 }
    ensures none { Bounds (48 ∷ rest.now) result }
{
    if rest.len() == 0 {
        return 1;
    }
    bound_zero_by(rest[0], &rest[1..])
}

/// For what begins with a quote.
fn bound_string(rest: &[u8]) -> usize
    ensures some { 0 < result }
    ensures within { result ≤ length rest.now + 1 }
    ensures none { Bounds (34 ∷ rest.now) result }
{
    let inside = run(Set::Quotable, rest);
    if inside < rest.len() && rest[inside] == b'"' {
        return inside + 2;
    }
    rest.len() + 1
}

/// For what begins with a slash and that byte.
fn bound_slash_by(b: u8, more: &[u8]) -> usize
    ensures some { 0 < result }
    ensures within { result ≤ length more.now + 2 }
    ensures none { Bounds (47 ∷ b ∷ more.now) result }
{
    if b == b'/' {
        return run(Set::Line, more) + 2;
    }
    if b != b'*' {
        return (more.len() + 2).min(3);
    }
    match close(more) {
        Some(most) => most + 2,
        None => more.len() + 2,
    }
}

/// For what begins with a slash.
fn bound_slash(rest: &[u8]) -> usize
    ensures some { 0 < result }
    ensures within { result ≤ length rest.now + 1 }
    ensures none { Bounds (47 ∷ rest.now) result }
{
    if rest.len() == 0 {
        return 1;
    }
    bound_slash_by(rest[0], &rest[1..])
}

/// For what begins with that byte, by one of the sets of first bytes.
fn bound_by(b: u8, rest: &[u8]) -> usize
    ensures some { 0 < result }
    ensures within { result ≤ length rest.now + 1 }
    ensures none { Bounds (b ∷ rest.now) result }
{
    if is_letter(b) {
        return run(Set::Word, rest) + 1;
    }
    if b == b'0' {
        return bound_zero(rest);
    }
    if is_digit(b) {
        return (run(Set::Decimal, rest) + 3).min(rest.len() + 1);
    }
    if b == b'"' {
        return bound_string(rest);
    }
    if b == b'/' {
        return bound_slash(rest);
    }
    (rest.len() + 1).min(3)
}

/// Past this length no front is a lexeme.
fn bound(bytes: &[u8]) -> usize
    requires { 0 < length bytes.now }
    ensures some { 0 < result }
    ensures within { result ≤ length bytes.now }
    ensures none { Bounds bytes.now result }
{
    bound_by(bytes[0], &bytes[1..])
}

/// The longest lexeme at the front, and its length.
pub fn longest(bytes: &[u8]) -> (Lexeme, usize)
    requires { 0 < length bytes.now }
    ensures { IsLongest bytes.now result.0 result.1 }
{
    let mut len = bound(bytes);
    while len > 1 {
        if let Some(found) = lexeme_of(&bytes[..len]) {
            return (found, len);
        }
        len -= 1;
    }
    match lexeme_of(&bytes[..1]) {
        Some(found) => (found, 1),
        None => (Lexeme::Refused(ModuleCode::BadByte), 1),
    }
}
