// Laws of the cutting, each the contract of a function that does nothing.

ghost use Rattle.std.specs.Prelude.{◌≡◌, List, ℕ};
ghost use Rattle.slang_names.specs.declared.places.Place.{Place};
ghost use Rattle.slang_names.specs.declared.codes.ModuleCode.{ModuleCode};
ghost use Rattle.slang_tokens.specs.declared.tokens.Token.{Token};
ghost use Rattle.slang_tokens.specs.Cutting.{Tokens, Refuses, IsWhole};

/// A text has at most one list of tokens.
pub fn one_cutting()
    ensures { (text : List ℕ) (a b : List Token) → Tokens text a → Tokens text b → a ≡ b }
{}

/// A text has tokens or a first lexeme that is refused, and not both.
pub fn cut_or_refused()
    ensures one { (text : List ℕ) → IsWhole text 0 }
    ensures not_both { (text : List ℕ) (list : List Token) (place : Place) (code : ModuleCode)
        → Tokens text list → Refuses text 0 place code → ⊥ }
{}
