// Laws of which limit is told, each the contract of a function that does nothing.

ghost use Rattle.std.specs.Prelude.{◌≡◌, ◌≤◌, List, ℕ, length, Option, Some, None, false};
ghost use Rattle.slang_tree.specs.declared.file.File.{File};
ghost use Rattle.slang_reading.specs.Lexed.{Lexed};
ghost use Rattle.slang_reading.specs.Reading.{Done, Past};
ghost use Rattle.slang_grammar.specs.Descent.{Limits};
ghost use Rattle.declaration_grammar.specs.Declarations.{FileAt};
ghost use Rattle.declaration_grammar.specs.DeclarationsDescent.{files};
ghost use Rattle.declaration_fits.specs.Sizes.{FileFits};
ghost use Rattle.expression_limits.specs.Breaks.{Break};
ghost use Rattle.statement_limits.specs.Order.{IsKnownFirst};
ghost use Rattle.declaration_limits.specs.Declarations.{file_break, file_breaks};

/// Where a whole text spells a file, the descent with limits that are not free and as many turns as tokens answers it
/// exactly where it breaks no limit and no rule on attributes, and else tells what it breaks first, in the order of the
/// tokens at which that is known: with the place of that token, or, of a rule on an attribute, that of the attribute's name.
/// Nothing that it breaks is known at an earlier token; and, where a node may stand on a path at all, no list or name that
/// is too long is told at a token at which a node is too deep.
pub fn files_tell_the_limit()
    ensures answered { (ts : List Lexed) (limits : Limits) (nodes seen : ℕ) (x : File) (spelled : FileAt ts x)
        → limits.free ≡ false → length ts ≤ limits.turns → file_break ts limits spelled nodes ≡ None
        → (to seen1 : ℕ) × (files limits nodes ts 0 seen ≡ Done x to seen1) }
    ensures told { (ts : List Lexed) (limits : Limits) (nodes seen : ℕ) (x : File) (spelled : FileAt ts x) (b : Break)
        → limits.free ≡ false → length ts ≤ limits.turns → file_break ts limits spelled nodes ≡ Some b
        → (seen1 : ℕ) × (files limits nodes ts 0 seen ≡ Past b.code b.place seen1) }
    ensures goes_first { (ts : List Lexed) (limits : Limits) (nodes : ℕ) (x : File) (spelled : FileAt ts x) (b : Break)
        → 1 ≤ nodes → file_break ts limits spelled nodes ≡ Some b → IsKnownFirst ts 0 (length ts) b (file_breaks ts limits spelled nodes) }
{}

/// A file within the limits, whose attributes obey the rules, breaks nothing.
pub fn what_fits_breaks_nothing()
    ensures { (ts : List Lexed) (limits : Limits) (nodes : ℕ) (x : File) (spelled : FileAt ts x)
        → FileFits limits nodes x → limits.free ≡ false → length ts ≤ limits.turns → nodes ≤ limits.turns → limits.items ≤ limits.turns
        → file_break ts limits spelled nodes ≡ None }
{}
