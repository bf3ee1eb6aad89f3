// What lines ask of words, operators and attributes.

ghost use Rattle.std.specs.Prelude.{◌≡◌};
ghost use Rattle.std.specs.Option.{option_copied};
ghost use Rattle.type_lines.specs.Asked as asked;

use crate::{OperatorKind, Standing, Use};
use slang_core::{BinaryOp, Scalar, TypeTerm};
use slang_names::NumberKind;
use slang_tree::{Attribute, AttributeNode, BinaryOperator, Builtin, Literal};

/// The type that a word is.
pub fn builtin_type(word: Builtin) -> TypeTerm
    ensures { result ≡ asked.builtin_type word }
{
    match word {
        Builtin::Void => TypeTerm::Void,
        Builtin::Bool => TypeTerm::Bool,
        Builtin::Int => TypeTerm::Int,
        Builtin::Int2 => TypeTerm::Vector(Scalar::Int, 2),
        Builtin::Int3 => TypeTerm::Vector(Scalar::Int, 3),
        Builtin::Int4 => TypeTerm::Vector(Scalar::Int, 4),
        Builtin::Uint => TypeTerm::Uint,
        Builtin::Uint2 => TypeTerm::Vector(Scalar::Uint, 2),
        Builtin::Uint3 => TypeTerm::Vector(Scalar::Uint, 3),
        Builtin::Uint4 => TypeTerm::Vector(Scalar::Uint, 4),
    }
}

/// What an operator between two operands does.
pub fn operator_kind(operator: BinaryOperator) -> OperatorKind
    ensures { result ≡ asked.operator_kind operator }
{
    match operator {
        BinaryOperator::Or => OperatorKind::Or,
        BinaryOperator::And => OperatorKind::And,
        BinaryOperator::BitOr => OperatorKind::Arithmetic(BinaryOp::BitOr),
        BinaryOperator::BitXor => OperatorKind::Arithmetic(BinaryOp::BitXor),
        BinaryOperator::BitAnd => OperatorKind::Arithmetic(BinaryOp::BitAnd),
        BinaryOperator::Equal => OperatorKind::Equality(BinaryOp::Equal),
        BinaryOperator::NotEqual => OperatorKind::Equality(BinaryOp::NotEqual),
        BinaryOperator::Less => OperatorKind::Order(BinaryOp::Less),
        BinaryOperator::Greater => OperatorKind::Order(BinaryOp::Greater),
        BinaryOperator::LessEqual => OperatorKind::Order(BinaryOp::LessEqual),
        BinaryOperator::GreaterEqual => OperatorKind::Order(BinaryOp::GreaterEqual),
        BinaryOperator::ShiftLeft => OperatorKind::Shift(BinaryOp::ShiftLeft),
        BinaryOperator::ShiftRight => OperatorKind::Shift(BinaryOp::ShiftRight),
        BinaryOperator::Add => OperatorKind::Arithmetic(BinaryOp::Add),
        BinaryOperator::Subtract => OperatorKind::Arithmetic(BinaryOp::Subtract),
        BinaryOperator::Multiply => OperatorKind::Arithmetic(BinaryOp::Multiply),
        BinaryOperator::Divide => OperatorKind::Arithmetic(BinaryOp::Divide),
        BinaryOperator::Remainder => OperatorKind::Arithmetic(BinaryOp::Remainder),
    }
}

pub fn is_uint_number(kind: NumberKind) -> bool
    ensures { result ≡ asked.is_uint_number kind }
{
    match kind {
        NumberKind::Int => false,
        NumberKind::Uint => true,
    }
}

pub fn is_value(role: Use) -> bool
    ensures { result ≡ asked.is_value role }
{
    match role {
        Use::Value => true,
        _ => false,
    }
}

pub fn is_called(role: Use) -> bool
    ensures { result ≡ asked.is_called role }
{
    match role {
        Use::Called => true,
        _ => false,
    }
}

/// What stands in parentheses is used for: a place or a buffer stays one, and a function or a type is neither called nor
/// before a dot.
pub fn inner_use(role: Use) -> Use
    ensures { result ≡ asked.inner_use role }
{
    match role {
        Use::Value => Use::Value,
        _ => Use::Indexed,
    }
}

/// Whether `void` is refused there by itself.
pub fn bars_void(standing: Standing) -> bool
    ensures { result ≡ asked.bars_void standing }
{
    match standing {
        Standing::Parameter | Standing::AliasRight | Standing::BufferData => true,
        _ => false,
    }
}

pub fn is_global(standing: Standing) -> bool
    ensures { result ≡ asked.is_global standing }
{
    match standing {
        Standing::Global => true,
        _ => false,
    }
}

pub fn is_field(standing: Standing) -> bool
    ensures { result ≡ asked.is_field standing }
{
    match standing {
        Standing::Field => true,
        _ => false,
    }
}

fn literals_of<'a>(name: &[u8], node: &'a AttributeNode) -> Option<&'a [Literal]>
    ensures { option_copied result ≡ asked.literals_of name.now node.now }
{
    match node {
        AttributeNode::Named(own, literals) => {
            if own.name.as_bytes() == name {
                Some(literals.as_slice())
            } else {
                None
            }
        }
        AttributeNode::Binding(_, _) => None,
    }
}

/// What stands in the parentheses of the first attribute of that name.
pub fn attribute_named<'a>(name: &[u8], attributes: &'a [Attribute]) -> Option<&'a [Literal]>
    ensures { option_copied result ≡ asked.attribute_named name.now attributes.now }
{
    let mut left = attributes;
    while let Some((first, rest)) = left.split_first() {
        match literals_of(name, &first.node) {
            Some(literals) => return Some(literals),
            None => left = rest,
        }
    }
    None
}

pub fn has_attribute(name: &[u8], attributes: &[Attribute]) -> bool
    ensures { result ≡ asked.has_attribute name.now attributes.now }
{
    match attribute_named(name, attributes) {
        Some(_) => true,
        None => false,
    }
}

/// Whether a function has an attribute of entries.
pub fn has_entry_word(attributes: &[Attribute]) -> bool
    ensures { result ≡ asked.has_entry_word attributes.now }
{
    has_attribute(b"shader", attributes) || has_attribute(b"numthreads", attributes)
}
