// Numbers: digits, a suffix, and what may not follow them.

ghost use Rattle.std.specs.Prelude.{◌≡◌};
ghost use Rattle.slang_tokens.specs.Lexemes as spec;

use crate::bytes::{Radix, Set, is_in, run, value};
use crate::lexemes::{Lexeme, ends};
use crate::tokens::Kind;
use slang_names::{ModuleCode, Number, NumberKind};

fn number_token(kind: NumberKind, value: u32) -> Lexeme
    ensures { result ≡ spec.number_token kind value }
{
    Lexeme::Token(Kind::Number(Number { value, kind }))
}

fn is_hex(radix: Radix) -> bool
    ensures { result ≡ spec.is_hex radix }
{
    match radix {
        Radix::Decimal => false,
        Radix::Hexadecimal => true,
    }
}

/// The number of that value, or the refusal of one that its kind cannot hold.
fn number_of(radix: Radix, suffixed: bool, value: Option<u32>) -> Lexeme
    ensures { result ≡ spec.number_of radix suffixed value }
{
    let Some(value) = value else {
        return Lexeme::Refused(ModuleCode::NumberRange);
    };
    if suffixed {
        number_token(NumberKind::Uint, value)
    } else if value <= 2_147_483_647 {
        number_token(NumberKind::Int, value)
    } else if is_hex(radix) {
        number_token(NumberKind::Uint, value)
    } else {
        Lexeme::Refused(ModuleCode::NumberRange)
    }
}

fn is_suffix(b: u8) -> bool
    ensures { result ≡ spec.is_suffix b }
{
    b == b'u' || b == b'U'
}

fn is_float_mark(radix: Radix, b: u8) -> bool
    ensures { result ≡ spec.is_float_mark radix b }
{
    match radix {
        Radix::Decimal => b == b'.' || b == b'e' || b == b'E' || b == b'f' || b == b'F',
        Radix::Hexadecimal => false,
    }
}

/// A number, and the one byte behind its digits.
fn one_more(radix: Radix, digits: &[u8], b: u8) -> Option<Lexeme>
    ensures { result ≡ spec.one_more radix digits.now b }
{
    if is_suffix(b) {
        Some(number_of(radix, true, value(radix, digits)))
    } else if is_float_mark(radix, b) {
        Some(Lexeme::Refused(ModuleCode::Float))
    } else if is_in(Set::Word, b) {
        Some(Lexeme::Refused(ModuleCode::BadToken))
    } else {
        None
    }
}

fn two_more(b: u8, d: u8) -> Option<Lexeme>
    ensures { result ≡ spec.two_more b d }
{
    if is_suffix(b) && is_in(Set::Word, d) {
        Some(Lexeme::RunsOn)
    } else {
        None
    }
}

/// The digits of a number, and what stands behind them.
fn suffix(radix: Radix, digits: &[u8], rest: &[u8]) -> Option<Lexeme>
    ensures { result ≡ spec.suffix radix digits.now rest.now }
{
    if rest.len() == 0 {
        Some(number_of(radix, false, value(radix, digits)))
    } else if rest.len() == 1 {
        one_more(radix, digits, rest[0])
    } else if rest.len() == 2 {
        two_more(rest[0], rest[1])
    } else {
        None
    }
}

fn decimal(bytes: &[u8]) -> Option<Lexeme>
    ensures { result ≡ spec.decimal bytes.now }
{
    let digits = run(Set::Decimal, bytes);
    suffix(Radix::Decimal, &bytes[..digits], &bytes[digits..])
}

/// Behind `0x`.
fn hexadecimal(bytes: &[u8]) -> Option<Lexeme>
    ensures { result ≡ spec.hexadecimal bytes.now }
{
    let digits = run(Set::Hexadecimal, bytes);
    if digits == 0 {
        return ends(bytes, Lexeme::Refused(ModuleCode::BadToken));
    }
    suffix(Radix::Hexadecimal, &bytes[..digits], &bytes[digits..])
}

pub fn is_radix(b: u8) -> bool
    ensures { result ≡ spec.is_radix b }
{
    b == b'x' || b == b'X'
}

/// Behind `0` and that byte.
fn zero_by(b: u8, rest: &[u8], more: &[u8]) -> Option<Lexeme>
    ensures { result ≡ spec.zero_by b rest.now more.now }
{
    if is_radix(b) {
        hexadecimal(more)
    } else {
        suffix(Radix::Decimal, &[], rest)
    }
}

/// Behind `0`.
fn zero_number(rest: &[u8]) -> Option<Lexeme>
    ensures { result ≡ spec.zero_number rest.now }
{
    if rest.len() == 0 {
        return suffix(Radix::Decimal, &[], rest);
    }
    zero_by(rest[0], rest, &rest[1..])
}

/// A number that begins with that digit.
pub fn number(b: u8, whole: &[u8], rest: &[u8]) -> Option<Lexeme>
    ensures { result ≡ spec.number b whole.now rest.now }
{
    if b == b'0' {
        zero_number(rest)
    } else {
        decimal(whole)
    }
}
