// Laws, each the contract of a function that does nothing.

ghost use Rattle.std.specs.Prelude.{◌≡◌, ◌<◌, ◌/◌, ℕ, Bool, true, nat_lt, List, [], ◌∷◌};
ghost use Rattle.slang_core.specs.declared.bodies.BinaryOp.{BinaryOp};
ghost use Rattle.slang_core.specs.declared.bodies.BinaryOp.TheVariants.{Divide, Less};
ghost use Rattle.slang_core.specs.declared.bodies.Expr.{Expr};
ghost use Rattle.slang_core.specs.declared.bodies.Expr.TheVariants.{Binary};
ghost use Rattle.type_terms.specs.declared.typings.Worth.TheVariants.{Words, Truth, Undefined};
ghost use Rattle.type_terms.specs.Values.{binary_worth, value_of};

/// The words that an operator makes have the sign of its first operand.
pub fn operators_keep_the_sign()
    ensures { (op : BinaryOp) (s t u : Bool) (xs ys zs : List ℕ) → binary_worth op (Words s xs) (Words t ys) ≡ Words u zs → u ≡ s }
{}

/// Unsigned numbers are divided and compared as natural numbers, and a quotient by 0 is undefined.
pub fn unsigned_numbers_are_naturals()
    ensures quotient { (x y : Expr) (a b : ℕ) → value_of x ≡ Words true (a ∷ []) → value_of y ≡ Words true (b ∷ []) → 0 < b → value_of (Binary Divide x y) ≡ Words true (a / b ∷ []) }
    ensures by_zero { (x y : Expr) (a : ℕ) → value_of x ≡ Words true (a ∷ []) → value_of y ≡ Words true (0 ∷ []) → value_of (Binary Divide x y) ≡ Undefined }
    ensures order { (x y : Expr) (a b : ℕ) → value_of x ≡ Words true (a ∷ []) → value_of y ≡ Words true (b ∷ []) → value_of (Binary Less x y) ≡ Truth (nat_lt a b) }
{}
