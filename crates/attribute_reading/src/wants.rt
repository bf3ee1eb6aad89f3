// What an attribute wants between its parentheses.

ghost use Rattle.std.specs.Prelude.{◌≡◌};
ghost use Rattle.slang_tree.specs.declared.statements.Literal.TheVariants as l;
ghost use Rattle.statement_grammar.specs.AttributeRules as rules;
ghost use Rattle.statement_grammar.specs.AttributesDescent as spec;

use slang_tree::Literal;
use statement_grammar::KnownAttribute;
use std::marker::Model;

/// What may still be wanted.
#[derive(Clone, Copy)]
enum Left {
    Nothing,
    /// `"compute"`
    Compute,
    OneNumber,
    TwoNumbers,
    ThreeNumbers,
}

/// The literals that an attribute wants, in order. A contract sees the list.
#[derive(Drop)]
pub(crate) struct Wants {
    left: Left,
}

impl Model for Wants {
    ghost use Rattle.std.specs.Prelude.{List};
    ghost use Rattle.statement_grammar.specs.AttributeRules.{Want};

    ghost Value = { List Want };

    ghost use Rattle.attribute_reading.specs.Wanted.{wants_in};

    ghost view = { wants_in };
}

impl Wants {
    /// What that attribute wants.
    pub fn of(known: Option<KnownAttribute>) -> Wants
        ensures { result ≡ rules.wants_of known }
    {
        let left = match known {
            Some(KnownAttribute::Shader) => Left::Compute,
            Some(KnownAttribute::NumThreads) => Left::ThreeNumbers,
            _ => Left::Nothing,
        };
        Wants { left }
    }

    /// Whether more is wanted.
    pub fn more(&self) -> bool
        ensures { result ≡ spec.wants_more self.now }
    {
        !matches!(&self.left, Left::Nothing)
    }

    /// Whether the literal is what is wanted next.
    pub fn met_by(&self, literal: &Literal) -> bool
        ensures { result ≡ spec.wanted self.now literal.now }
    {
        match literal {
            Literal::Number(_, _) => matches!(
                &self.left,
                Left::OneNumber | Left::TwoNumbers | Left::ThreeNumbers
            ),
            Literal::String(_, text) => {
                matches!(&self.left, Left::Compute) && b"compute".as_slice() == text.as_bytes()
            }
        }
    }

    /// What is wanted behind the next.
    pub fn later(&self) -> Wants
        ensures { result ≡ spec.later self.now }
    {
        let left = match self.left {
            Left::ThreeNumbers => Left::TwoNumbers,
            Left::TwoNumbers => Left::OneNumber,
            _ => Left::Nothing,
        };
        Wants { left }
    }
}
