// Laws of the descent against the grammar, each the contract of a function that does nothing.

ghost use Rattle.std.specs.Prelude.{◌≡◌, List, ℕ, drop, None};
ghost use Rattle.slang_tree.specs.declared.file.File.{File};
ghost use Rattle.slang_reading.specs.Lexed.{Lexed};
ghost use Rattle.slang_reading.specs.Reading.{Done, Stop, first};
ghost use Rattle.slang_grammar.specs.Descent.{Limits};
ghost use Rattle.declaration_grammar.specs.Declarations.{FileAt};
ghost use Rattle.declaration_grammar.specs.DeclarationsDescent.{files};

/// Of whole texts: where one spells a file, the descent does not stop, whatever the limits; and what it answers there is that
/// file, up to where no token stands.
pub fn files_are_read()
    ensures not_stopped { (ts : List Lexed) (limits : Limits) (nodes seen seen1 : ℕ) (x : File)
        → FileAt ts x → files limits nodes ts 0 seen ≡ Stop seen1 → ⊥ }
    ensures answered { (ts : List Lexed) (limits : Limits) (nodes seen end seen1 : ℕ) (x y : File)
        → FileAt ts x → files limits nodes ts 0 seen ≡ Done y end seen1 → (y ≡ x) × (first (drop end ts) ≡ None) }
{}
