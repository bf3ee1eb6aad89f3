// Laws of nesting, each the contract of a function that does nothing.

ghost use Rattle.std.specs.Prelude.{◌≡◌, ◌≤◌, ◌+◌, List, ℕ, None, false};
ghost use Rattle.slang_tree.specs.declared.types.TypeTree.{TypeTree};
ghost use Rattle.slang_tree.specs.declared.expressions.ExprTree.{ExprTree};
ghost use Rattle.slang_tree.specs.declared.statements.Block.{Block};
ghost use Rattle.slang_tree.specs.declared.file.File.{File};
ghost use Rattle.slang_tree.specs.Nesting.{deep_type, deep_expr, deep_block, first_too_deep};
ghost use Rattle.slang_reading.specs.Lexed.{Lexed};
ghost use Rattle.slang_reading.specs.Reading.{Done};
ghost use Rattle.slang_grammar.specs.Descent.{Limits};
ghost use Rattle.slang_grammar.specs.Heights.{height};
ghost use Rattle.expression_grammar.specs.Heights.{expr_height};
ghost use Rattle.statement_grammar.specs.StatementsDescent.{blocks};
ghost use Rattle.declaration_grammar.specs.DeclarationsDescent.{files};

/// Of types and of expressions: no node is too deep exactly where those on the longest path and those around it are at
/// most 64.
pub fn heights_tell_the_nesting()
    ensures types_fit { (x : TypeTree) (around : ℕ) → height x + around ≤ 64 → deep_type x around ≡ None }
    ensures types_low { (x : TypeTree) (around : ℕ) → deep_type x around ≡ None → height x + around ≤ 64 }
    ensures expressions_fit { (x : ExprTree) (around : ℕ) → expr_height x + around ≤ 64 → deep_expr x around ≡ None }
    ensures expressions_low { (x : ExprTree) (around : ℕ) → deep_expr x around ≡ None → expr_height x + around ≤ 64 }
{}

/// Of what the descent answers with limits that are not free: no node of a block is too deep, where the nodes that it was
/// given and those around it are at most 64; and none of a file that was given 64.
pub fn what_is_read_is_nested()
    ensures of_blocks { (ts : List Lexed) (limits : Limits) (d at seen end seen1 around : ℕ) (x : Block)
        → limits.free ≡ false → blocks limits d ts at seen ≡ Done x end seen1 → d + around ≤ 64 → deep_block x around ≡ None }
    ensures of_files { (ts : List Lexed) (limits : Limits) (at seen end seen1 : ℕ) (x : File)
        → limits.free ≡ false → files limits 64 ts at seen ≡ Done x end seen1 → first_too_deep x ≡ None }
{}
