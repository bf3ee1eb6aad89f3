// Expressions and places in which no other one stands, from their bytes.

ghost use Rattle.std.specs.Prelude.{◌≡◌};
ghost use Rattle.form_grammar.specs.Trees.{◌▸◌, nested, tagged, list_of};
ghost use Rattle.form_grammar.specs.Grammar as form;
ghost use Rattle.form_grammar.specs.Numbers.{after};
ghost use Rattle.form_grammar.specs.Reading.{Gives, form_at, nested_at, behind};
ghost use Rattle.slang_core.specs.DeclarationTrees.{term_tree};
ghost use Rattle.slang_core.specs.BodyTrees.{expr_tree, place_tree};

use form_grammar::{Level, ReadFault, number_at};
use form_types::{ref_of, term_of, value_of};
use slang_core::{Expr, PlaceTerm, TypeTerm};
use sqlite_items::Items;

/// An integer behind its tag.
#[tactic(auto, unfolding(form_grammar::specs::Reading::form_at, form_grammar::specs::Numbers::after))]
pub fn int_of(level: Level, bytes: &[u8]) -> Result<(Expr, &[u8]), ReadFault>
    ensures { Gives (λ x. (expr_tree x.0, x.1.now)) result (behind (nested_at level.depth) 0 form.num bytes.now) }
{
    let (bits, rest) = number_at(bytes)?;
    Ok((Expr::Int(bits), rest))
}

/// An integer without a sign behind its tag.
#[tactic(auto, unfolding(form_grammar::specs::Reading::form_at, form_grammar::specs::Numbers::after))]
pub fn uint_of(level: Level, bytes: &[u8]) -> Result<(Expr, &[u8]), ReadFault>
    ensures { Gives (λ x. (expr_tree x.0, x.1.now)) result (behind (nested_at level.depth) 1 form.num bytes.now) }
{
    let (bits, rest) = number_at(bytes)?;
    Ok((Expr::Uint(bits), rest))
}

/// The zero of a type behind its tag.
#[tactic(auto, unfolding(form_grammar::specs::Reading::form_at, form_grammar::specs::Numbers::after))]
pub fn zero_of(level: Level, bytes: &[u8]) -> Result<(Expr, &[u8]), ReadFault>
    ensures { Gives (λ x. (expr_tree x.0, x.1.now)) result (behind (nested_at level.depth) 18 (form.part form.Term) bytes.now) }
{
    let (of, rest) = term_of(level, bytes)?;
    Ok((Expr::Zero(of), rest))
}

/// A number that a type has, behind its tag.
#[tactic(auto, unfolding(form_grammar::specs::Reading::form_at, form_grammar::specs::Numbers::after))]
pub fn fixed_of(level: Level, bytes: &[u8]) -> Result<(Expr, &[u8]), ReadFault>
    ensures { Gives (λ x. (expr_tree x.0, x.1.now)) result (behind (nested_at level.depth) 19 form.value bytes.now) }
{
    let (value, rest) = value_of(level, bytes)?;
    Ok((Expr::Fixed(value), rest))
}

/// A vector of these components.
#[tactic(auto, using(crate::proofs::Lists::vector_tree))]
pub fn vector(of: TypeTerm, items: Items<Expr>) -> Expr
    ensures { expr_tree result ≡ tagged 11 (term_tree of ▸ list_of (λ x. nested (expr_tree x)) items) }
{
    Expr::Vector(of, items)
}

/// A list of these items.
#[tactic(auto, using(crate::proofs::Lists::array_tree))]
pub fn array(of: TypeTerm, items: Items<Expr>) -> Expr
    ensures { expr_tree result ≡ tagged 17 (term_tree of ▸ list_of (λ x. nested (expr_tree x)) items) }
{
    Expr::List(of, items)
}

/// A local or parameter behind its tag.
#[tactic(auto, unfolding(form_grammar::specs::Reading::form_at, form_grammar::specs::Numbers::after))]
pub fn local_of(level: Level, bytes: &[u8]) -> Result<(PlaceTerm, &[u8]), ReadFault>
    ensures { Gives (λ x. (place_tree x.0, x.1.now)) result (behind (nested_at level.depth) 0 form.num bytes.now) }
{
    let (number, rest) = number_at(bytes)?;
    Ok((PlaceTerm::Local(number), rest))
}

/// A global variable behind its tag.
#[tactic(auto, unfolding(form_grammar::specs::Reading::form_at, form_grammar::specs::Numbers::after))]
pub fn global_of(level: Level, bytes: &[u8]) -> Result<(PlaceTerm, &[u8]), ReadFault>
    ensures { Gives (λ x. (place_tree x.0, x.1.now)) result (behind (nested_at level.depth) 2 form.ref bytes.now) }
{
    let (name, rest) = ref_of(level, bytes)?;
    Ok((PlaceTerm::Global(name), rest))
}
