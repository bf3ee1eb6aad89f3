// Laws of limits, each the contract of a function that does nothing.

ghost use Rattle.std.specs.Prelude.{◌≡◌, List, ℕ, false};
ghost use Rattle.slang_tree.specs.declared.statements.StatTree.{StatTree};
ghost use Rattle.slang_tree.specs.declared.statements.Block.{Block};
ghost use Rattle.slang_tree.specs.declared.file.File.{File};
ghost use Rattle.slang_reading.specs.Lexed.{Lexed};
ghost use Rattle.slang_reading.specs.Reading.{Done};
ghost use Rattle.slang_grammar.specs.Descent.{Limits};
ghost use Rattle.slang_grammar.specs.Sizes.{TypeFits};
ghost use Rattle.slang_grammar.specs.TypesDescent.{types, Type_};
ghost use Rattle.slang_grammar.specs.ExpressionsDescent.{expressions, Value};
ghost use Rattle.expression_grammar.specs.Sizes.{Fits};
ghost use Rattle.statement_grammar.specs.StatementsDescent.{statements, blocks};
ghost use Rattle.statement_fits.specs.Sizes.{StatFits, BlockFits};
ghost use Rattle.declaration_grammar.specs.DeclarationsDescent.{files};
ghost use Rattle.declaration_fits.specs.Sizes.{FileFits};

/// What the descent answers is within its limits, where they are not free: of types, expressions, statements, blocks and
/// files. The attributes in it obey the rules.
pub fn what_is_read_fits()
    ensures of_types { (ts : List Lexed) (limits : Limits) (d at seen to seen1 : ℕ) (x : Type_)
        → limits.free ≡ false → types limits d ts at seen ≡ Done x to seen1 → TypeFits limits d x.0 }
    ensures of_expressions { (ts : List Lexed) (limits : Limits) (d at seen to seen1 : ℕ) (x : Value)
        → limits.free ≡ false → expressions limits d ts at seen ≡ Done x to seen1 → Fits limits d x.0 }
    ensures of_statements { (ts : List Lexed) (limits : Limits) (d at seen to seen1 : ℕ) (x : StatTree)
        → limits.free ≡ false → statements limits d ts at seen ≡ Done x to seen1 → StatFits limits d x }
    ensures of_blocks { (ts : List Lexed) (limits : Limits) (d at seen to seen1 : ℕ) (x : Block)
        → limits.free ≡ false → blocks limits d ts at seen ≡ Done x to seen1 → BlockFits limits d x }
    ensures of_files { (ts : List Lexed) (limits : Limits) (nodes at seen to seen1 : ℕ) (x : File)
        → limits.free ≡ false → files limits nodes ts at seen ≡ Done x to seen1 → FileFits limits nodes x }
{}
