// Laws.

ghost use Rattle.std.specs.Prelude.{◌≡◌, List, ℕ, ◌++◌, Ok, Err};
ghost use Rattle.form_grammar.specs.declared.codes.Stop.{Stop};
ghost use Rattle.form_grammar.specs.Trees.{Tree, spelling};
ghost use Rattle.form_grammar.specs.Grammar.{module_form};
ghost use Rattle.form_grammar.specs.Reading.{form_at, nested_at};
ghost use Rattle.form_laws.specs.Forms.{IsForm, Fits};
ghost use Rattle.form_laws.specs.Limits.{LimitAt};
ghost use Rattle.form_laws.specs.Refusals.{IsBytes, StopsAt};

use slang_names::FormCode;

/// No stored module begins another, and each is of one tree.
pub fn one_form()
    ensures { (x y : Tree) (a b : List ℕ) → IsForm x module_form → IsForm y module_form → spelling x ++ a ≡ spelling y ++ b → (x ≡ y) × (a ≡ b) }
{}

/// What is read is a module of the grammar within the limits, and was spelled so.
pub fn read_is_spelled()
    ensures { (bytes rest : List ℕ) (x : Tree) → IsBytes bytes → form_at (nested_at 128) module_form bytes ≡ Ok (x, rest)
        → IsForm x module_form × Fits x 128 × (bytes ≡ spelling x ++ rest) }
{}

/// What is spelled within the limits is read, whatever follows.
pub fn spelled_is_read()
    ensures { (x : Tree) (rest : List ℕ) → IsForm x module_form → Fits x 128 → form_at (nested_at 128) module_form (spelling x ++ rest) ≡ Ok (x, rest) }
{}

/// Reading stops at the first byte after which no stored module goes on, at the end or at a limit.
pub fn first_refusal()
    ensures { (bytes : List ℕ) (s : Stop) → IsBytes bytes → form_at (nested_at 128) module_form bytes ≡ Err s → StopsAt bytes s }
{}

/// Reading stops with a limit's code only where a module passes a limit there, and none earlier.
pub fn limit_refusal()
    ensures { (bytes : List ℕ) (s : Stop) → IsBytes bytes → form_at (nested_at 128) module_form bytes ≡ Err s → s.code ≡ FormCode.FormLimit → LimitAt bytes s }
{}
