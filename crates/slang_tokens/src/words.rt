// What a word is: a name, a word with a use, or one that is refused.

ghost use Rattle.std.specs.Prelude.{◌≡◌};
ghost use Rattle.slang_tokens.specs.Words as spec;

use crate::lexemes::Lexeme;
use crate::tables::{refused_of, word_of};
use crate::tokens::Kind;
use slang_names::ModuleCode;

/// How many components a type has, by what stands behind the name of its scalar.
#[derive(Clone, Copy)]
pub enum Shape {
    Scalar,
    Vector,
    Matrix,
}

fn is_size(b: u8) -> bool
    ensures { result ≡ spec.is_size b }
{
    b >= b'1' && b <= b'4'
}

/// What these bytes behind the name of a scalar type make it.
fn shape_of(bytes: &[u8]) -> Option<Shape>
    ensures { result ≡ spec.shape_of bytes.now }
{
    if bytes.len() == 0 {
        Some(Shape::Scalar)
    } else if bytes.len() == 1 {
        if is_size(bytes[0]) {
            Some(Shape::Vector)
        } else {
            None
        }
    } else if bytes.len() == 3 {
        if is_size(bytes[0]) && bytes[1] == b'x' && is_size(bytes[2]) {
            Some(Shape::Matrix)
        } else {
            None
        }
    } else {
        None
    }
}

/// The shape of a type that begins with the name of that scalar.
fn shaped(scalar: &[u8], bytes: &[u8]) -> Option<Shape>
    ensures { result ≡ spec.shaped scalar.now bytes.now }
{
    match bytes.strip_prefix(scalar) {
        Some(rest) => shape_of(rest),
        None => None,
    }
}

fn is_shape(shape: Option<Shape>) -> bool
    ensures { result ≡ spec.is_shape shape }
{
    match shape {
        Some(_) => true,
        None => false,
    }
}

fn is_matrix(shape: Option<Shape>) -> bool
    ensures { result ≡ spec.is_matrix shape }
{
    match shape {
        Some(Shape::Matrix) => true,
        _ => false,
    }
}

#[tactic(auto, unfolding(crate::specs::Words::is_float))]
fn is_float(bytes: &[u8]) -> bool
    ensures { result ≡ spec.is_float bytes.now }
{
    is_shape(shaped(b"float", bytes))
        || is_shape(shaped(b"half", bytes))
        || is_shape(shaped(b"double", bytes))
}

#[tactic(auto, unfolding(crate::specs::Words::is_whole_matrix))]
fn is_whole_matrix(bytes: &[u8]) -> bool
    ensures { result ≡ spec.is_whole_matrix bytes.now }
{
    is_matrix(shaped(b"int", bytes)) || is_matrix(shaped(b"uint", bytes))
}

/// What the word is that is spelled so.
#[tactic(auto, unfolding(crate::specs::Words::word))]
pub fn word(bytes: &[u8]) -> Lexeme
    ensures { result ≡ spec.word bytes.now }
{
    if is_float(bytes) {
        return Lexeme::Refused(ModuleCode::Float);
    }
    if is_whole_matrix(bytes) {
        return Lexeme::Refused(ModuleCode::Unsupported);
    }
    if let Some(code) = refused_of(bytes) {
        return Lexeme::Refused(code);
    }
    match word_of(bytes) {
        Some(word) => Lexeme::Token(Kind::Word(word)),
        None => Lexeme::Token(Kind::Name),
    }
}
