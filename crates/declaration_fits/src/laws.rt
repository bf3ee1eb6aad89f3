// Laws of the descent against the grammar, each the contract of a function that does nothing.

ghost use Rattle.std.specs.Prelude.{◌≡◌, ◌≤◌, List, length, ℕ};
ghost use Rattle.slang_tree.specs.declared.file.File.{File};
ghost use Rattle.slang_reading.specs.Lexed.{Lexed};
ghost use Rattle.slang_reading.specs.Reading.{Done};
ghost use Rattle.slang_grammar.specs.Descent.{Limits};
ghost use Rattle.declaration_grammar.specs.Declarations.{FileAt};
ghost use Rattle.declaration_grammar.specs.DeclarationsDescent.{files};
ghost use Rattle.declaration_fits.specs.Sizes.{FileFits};

/// A whole text that spells a file within the limits, whose attributes obey the rules where the limits are not free, is
/// answered, where there are as many turns as tokens, as nodes may stand on a path and as items in a list.
pub fn files_are_answered()
    ensures { (ts : List Lexed) (limits : Limits) (nodes seen : ℕ) (x : File)
        → FileAt ts x → FileFits limits nodes x → length ts ≤ limits.turns → nodes ≤ limits.turns → limits.items ≤ limits.turns
        → (to seen1 : ℕ) × (files limits nodes ts 0 seen ≡ Done x to seen1) }
{}
