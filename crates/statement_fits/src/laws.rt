// Laws of the descent against the grammar, each the contract of a function that does nothing.

ghost use Rattle.std.specs.Prelude.{◌≡◌, ◌≤◌, List, length, ℕ};
ghost use Rattle.slang_tree.specs.declared.statements.Block.{Block};
ghost use Rattle.slang_tree.specs.declared.statements.StatTree.{StatTree};
ghost use Rattle.slang_reading.specs.Lexed.{Lexed};
ghost use Rattle.slang_reading.specs.Reading.{Done};
ghost use Rattle.slang_grammar.specs.Descent.{Limits};
ghost use Rattle.statement_grammar.specs.Statements.{BlockAt, StatAt};
ghost use Rattle.statement_grammar.specs.StatementsDescent.{blocks, statements};
ghost use Rattle.statement_fits.specs.Sizes.{BlockFits, StatFits};

/// A statement, and the body of a function, that is spelled within the limits, and whose attributes obey the rules where the
/// limits are not free, is answered, where there are as many turns as tokens, as nodes may stand on a path and as items in a
/// list.
pub fn statements_are_answered()
    ensures of_statements { (ts : List Lexed) (limits : Limits) (d at seen to : ℕ) (x : StatTree)
        → StatAt ts x at to → StatFits limits d x → length ts ≤ limits.turns → d ≤ limits.turns → limits.items ≤ limits.turns
        → (seen1 : ℕ) × (statements limits d ts at seen ≡ Done x to seen1) }
    ensures of_blocks { (ts : List Lexed) (limits : Limits) (d at seen to : ℕ) (x : Block)
        → BlockAt ts x at to → BlockFits limits d x → length ts ≤ limits.turns → d ≤ limits.turns → limits.items ≤ limits.turns
        → (seen1 : ℕ) × (blocks limits d ts at seen ≡ Done x to seen1) }
{}
