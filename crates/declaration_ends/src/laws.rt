// Laws of the descent against the grammar, each the contract of a function that does nothing.

ghost use Rattle.std.specs.Prelude.{◌≡◌, ◌+◌, ◌<◌, ◌≤◌, ◌++◌, List, ℕ, length, take};
ghost use Rattle.slang_names.specs.declared.places.Place.{Place};
ghost use Rattle.slang_names.specs.declared.codes.ModuleCode.{ModuleCode};
ghost use Rattle.slang_tree.specs.declared.file.File.{File};
ghost use Rattle.slang_reading.specs.Lexed.{Lexed};
ghost use Rattle.slang_reading.specs.Reading.{Done, Stop, Past};
ghost use Rattle.slang_grammar.specs.Descent.{Limits};
ghost use Rattle.declaration_grammar.specs.Declarations.{FileAt};
ghost use Rattle.declaration_grammar.specs.DeclarationsDescent.{files};

/// Of whole files: where the descent stops at a token, some file begins with the tokens before it, and none with that token
/// too, whatever the limits. Where it stops behind the last token, `at` is how many tokens there are, and so some file begins
/// with all of them. It looks at one token at least.
pub fn files_go_on()
    ensures looked { (ts : List Lexed) (limits : Limits) (nodes seen : ℕ) → files limits nodes ts 0 0 ≡ Stop seen → 0 < seen }
    ensures goes_on { (ts : List Lexed) (limits : Limits) (nodes at : ℕ) → files limits nodes ts 0 0 ≡ Stop (at + 1)
        → (more : List Lexed) × (x : File) × FileAt (take at ts ++ more) x }
    ensures within { (ts : List Lexed) (limits : Limits) (nodes at : ℕ) → files limits nodes ts 0 0 ≡ Stop (at + 1) → at ≤ length ts }
    ensures goes_no_further { (ts : List Lexed) (limits : Limits) (nodes at : ℕ) (more : List Lexed) (x : File)
        → files limits nodes ts 0 0 ≡ Stop (at + 1) → at < length ts → FileAt (take (at + 1) ts ++ more) x → ⊥ }
{}

/// What the descent answers of a whole text is spelled, whatever the limits.
pub fn files_are_spelled()
    ensures of_files { (ts : List Lexed) (limits : Limits) (nodes seen to seen1 : ℕ) (x : File)
        → files limits nodes ts 0 seen ≡ Done x to seen1 → FileAt ts x }
{}

/// Where the descent into a whole text passes a limit, or finds a rule on attributes broken, some file begins with the tokens
/// before the last one that it looked at, and it does the same with each text that begins with all that it looked at.
pub fn limits_go_on()
    ensures looked { (ts : List Lexed) (limits : Limits) (nodes seen : ℕ) (code : ModuleCode) (place : Place)
        → files limits nodes ts 0 0 ≡ Past code place seen → 0 < seen }
    ensures goes_on { (ts : List Lexed) (limits : Limits) (nodes at : ℕ) (code : ModuleCode) (place : Place)
        → files limits nodes ts 0 0 ≡ Past code place (at + 1) → (more : List Lexed) × (x : File) × FileAt (take at ts ++ more) x }
    ensures decides { (ts : List Lexed) (limits : Limits) (nodes at : ℕ) (code : ModuleCode) (place : Place) (more : List Lexed)
        → files limits nodes ts 0 0 ≡ Past code place (at + 1) → at < length ts → files limits nodes (take (at + 1) ts ++ more) 0 0 ≡ Past code place (at + 1) }
{}
