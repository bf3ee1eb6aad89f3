// Lexemes: which bytes are one, and what they are.

ghost use Rattle.std.specs.Prelude.{◌≡◌, ◌≤◌, length, false, IfSome};
ghost use Rattle.slang_tokens.specs.Lexemes as spec;

use crate::bytes::{Set, all, is_blank, is_digit, is_letter, run};
use crate::numbers::number;
use crate::tables::mark_of;
use crate::tokens::Kind;
use crate::words::word;
use slang_names::ModuleCode;

/// What the bytes of a lexeme are. A text is cut into the longest lexemes; a refused one ends it.
#[derive(Clone, Copy)]
pub enum Lexeme {
    /// A blank byte or a comment.
    Blank,
    Token(Kind),
    /// Refused with this code, at its place.
    Refused(ModuleCode),
    /// A number with a suffix, and a letter, digit or `_` behind it: refused as a bad token, without that last byte.
    RunsOn,
}

/// That lexeme, if nothing more stands there.
pub fn ends(bytes: &[u8], lexeme: Lexeme) -> Option<Lexeme>
    ensures { result ≡ spec.ends bytes.now lexeme }
{
    if bytes.is_empty() { Some(lexeme) } else { None }
}

fn name(bytes: &[u8]) -> Option<Lexeme>
    ensures { result ≡ spec.name bytes.now }
{
    if all(Set::Word, bytes) {
        Some(word(bytes))
    } else {
        None
    }
}

fn string_by(b: u8, rest: &[u8]) -> Option<Lexeme>
    ensures { result ≡ spec.string_by b rest.now }
{
    if b == b'"' {
        ends(rest, Lexeme::Token(Kind::String))
    } else {
        Some(Lexeme::Refused(ModuleCode::BadToken))
    }
}

/// Behind the bytes of a string: its end, or no string.
fn string_end(bytes: &[u8]) -> Option<Lexeme>
    ensures { result ≡ spec.string_end bytes.now }
{
    if bytes.len() == 0 {
        return Some(Lexeme::Refused(ModuleCode::BadToken));
    }
    string_by(bytes[0], &bytes[1..])
}

/// Behind the first quote.
fn string(bytes: &[u8]) -> Option<Lexeme>
    ensures { result ≡ spec.string bytes.now }
{
    let inside = run(Set::Quotable, bytes);
    string_end(&bytes[inside..])
}

/// How many bytes it takes to be past the first `*/`.
pub fn close(bytes: &[u8]) -> Option<usize>
    ensures value { result ≡ spec.close false bytes.now }
    ensures within { IfSome result (λ m. m ≤ length bytes.now) }
{
    let mut star = false;
    for (i, b) in bytes.iter().enumerate() {
        if star && *b == b'/' {
            return Some(i + 1);
        }
        star = *b == b'*';
    }
    None
}

/// Behind `/*`.
fn comment(bytes: &[u8]) -> Option<Lexeme>
    ensures { result ≡ spec.comment bytes.now }
{
    match close(bytes) {
        None => Some(Lexeme::Refused(ModuleCode::BadToken)),
        Some(most) => {
            if most == bytes.len() {
                Some(Lexeme::Blank)
            } else {
                None
            }
        }
    }
}

/// Behind `//`.
fn line(bytes: &[u8]) -> Option<Lexeme>
    ensures { result ≡ spec.line bytes.now }
{
    if all(Set::Line, bytes) {
        Some(Lexeme::Blank)
    } else {
        None
    }
}

/// A byte that begins no token.
fn bad_byte(b: u8) -> Lexeme
    ensures { result ≡ spec.bad_byte b }
{
    if b == b'#' {
        Lexeme::Refused(ModuleCode::Preprocessor)
    } else {
        Lexeme::Refused(ModuleCode::BadByte)
    }
}

/// A mark that begins with that byte, or the byte alone.
fn mark(b: u8, whole: &[u8], rest: &[u8]) -> Option<Lexeme>
    ensures { result ≡ spec.mark b whole.now rest.now }
{
    match mark_of(whole) {
        Some(mark) => Some(Lexeme::Token(Kind::Mark(mark))),
        None => ends(rest, bad_byte(b)),
    }
}

/// Behind a slash and that byte.
fn slash_by(b: u8, whole: &[u8], rest: &[u8], more: &[u8]) -> Option<Lexeme>
    ensures { result ≡ spec.slash_by b whole.now rest.now more.now }
{
    if b == b'/' {
        line(more)
    } else if b == b'*' {
        comment(more)
    } else {
        mark(b'/', whole, rest)
    }
}

/// Behind a slash.
fn slash(whole: &[u8], rest: &[u8]) -> Option<Lexeme>
    ensures { result ≡ spec.slash whole.now rest.now }
{
    if rest.len() == 0 {
        return mark(b'/', whole, rest);
    }
    slash_by(rest[0], whole, rest, &rest[1..])
}

/// By the first byte.
fn by_first(b: u8, whole: &[u8], rest: &[u8]) -> Option<Lexeme>
    ensures { result ≡ spec.by_first b whole.now rest.now }
{
    if is_letter(b) {
        name(whole)
    } else if is_digit(b) {
        number(b, whole, rest)
    } else if b == b'"' {
        string(rest)
    } else if b == b'/' {
        slash(whole, rest)
    } else if is_blank(b) {
        ends(rest, Lexeme::Blank)
    } else {
        mark(b, whole, rest)
    }
}

/// Whether these bytes are a lexeme, and which.
pub fn lexeme_of(bytes: &[u8]) -> Option<Lexeme>
    ensures { result ≡ spec.lexeme bytes.now }
{
    if bytes.len() == 0 {
        return None;
    }
    by_first(bytes[0], bytes, &bytes[1..])
}
