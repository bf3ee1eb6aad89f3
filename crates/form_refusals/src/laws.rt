// Laws.

ghost use Rattle.std.specs.Prelude.{◌≡◌, ◌+◌, ◌<◌, ◌≤◌, ◌⊎◌, ◌∷◌, List, ℕ, length, Ok, Err};
ghost use Rattle.slang_names.specs.declared.form_codes.FormCode as codes;
ghost use Rattle.form_grammar.specs.declared.codes.Stop.{Stop};
ghost use Rattle.form_grammar.specs.Trees.{Tree, spelling};
ghost use Rattle.form_grammar.specs.Grammar.{module_form};
ghost use Rattle.form_grammar.specs.Reading.{form_at, nested_at};
ghost use Rattle.form_laws.specs.Limits.{LimitAt};
ghost use Rattle.form_laws.specs.Refusals.{IsBytes};
ghost use Rattle.form_refusals.specs.Refused.{RefusedAt, Spells, most_bytes};

use slang_names::FormCode;

/// Where a module passes a limit first, reading stops by that limit.
pub fn limit_is_refused()
    ensures { (bytes : List ℕ) (s : Stop) → LimitAt bytes s → form_at (nested_at 128) module_form bytes ≡ Err (record { code = FormCode.FormLimit; left = s.left }) }
{}

/// Where reading stops, the bytes are refused with that code, if they are not too many before.
pub fn refusal_stands()
    ensures { (bytes : List ℕ) (s : Stop) (place : ℕ) → IsBytes bytes → form_at (nested_at 128) module_form bytes ≡ Err s → place + s.left ≡ length bytes
        → (place < most_bytes) ⊎ (length bytes ≤ most_bytes) → RefusedAt bytes place s.code }
{}

/// The byte behind a whole module is refused.
pub fn trailing_is_refused()
    ensures { (bytes : List ℕ) (x : Tree) (b : ℕ) (rest : List ℕ) → IsBytes bytes → form_at (nested_at 128) module_form bytes ≡ Ok (x, b ∷ rest)
        → length (spelling x) < most_bytes → RefusedAt bytes (length (spelling x)) FormCode.Trailing }
{}

/// Too many bytes are refused at the first that is too many, where reading stops no earlier.
pub fn long_reading_is_refused()
    ensures { (bytes : List ℕ) (s : Stop) → IsBytes bytes → form_at (nested_at 128) module_form bytes ≡ Err s
        → most_bytes + s.left ≤ length bytes → most_bytes < length bytes → RefusedAt bytes most_bytes FormCode.FormLimit }
{}

/// The same where reading finds a module.
pub fn long_module_is_refused()
    ensures { (bytes : List ℕ) (x : Tree) (rest : List ℕ) → IsBytes bytes → form_at (nested_at 128) module_form bytes ≡ Ok (x, rest)
        → most_bytes ≤ length (spelling x) → most_bytes < length bytes → RefusedAt bytes most_bytes FormCode.FormLimit }
{}

/// Bytes are refused at one place, with one code.
pub fn one_refusal()
    ensures { (bytes : List ℕ) (p q : ℕ) (c d : codes.FormCode) → RefusedAt bytes p c → RefusedAt bytes q d → (p ≡ q) × (c ≡ d) }
{}

/// No module within the limits is refused.
pub fn no_module_is_refused()
    ensures { (bytes : List ℕ) (x : Tree) (place : ℕ) (code : codes.FormCode) → Spells x bytes → RefusedAt bytes place code → ⊥ }
{}

/// Bytes are a module within the limits, or they are refused.
pub fn all_are_answered()
    ensures { (bytes : List ℕ) → IsBytes bytes → ((x : Tree) × Spells x bytes) ⊎ ((place : ℕ) × (code : codes.FormCode) × RefusedAt bytes place code) }
{}
