// Laws, each the contract of a function that does nothing.

ghost use Rattle.std.specs.Prelude.{◌≡◌, ◌↔◌, ℕ, Bool, true, Some};
ghost use Rattle.slang_core.specs.declared.types.TypeTerm.{TypeTerm};
ghost use Rattle.type_terms.specs.Types.{same, numeric, numeric_of, type_of_numeric};

/// Two types are the same where they are equal, node by node.
pub fn sameness_is_equality()
    ensures { (a b : TypeTerm) → (same a b ≡ true) ↔ (a ≡ b) }
{}

/// The type of a sign and a size has them.
pub fn numbers_have_their_types()
    ensures { (is_unsigned : Bool) (size : ℕ) → numeric_of (type_of_numeric (numeric is_unsigned size)) ≡ Some (numeric is_unsigned size) }
{}
