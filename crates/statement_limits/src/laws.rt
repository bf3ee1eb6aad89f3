// Laws of which limit is told, each the contract of a function that does nothing.

ghost use Rattle.std.specs.Prelude.{◌≡◌, ◌≤◌, List, ℕ, length, Option, Some, None, false};
ghost use Rattle.slang_tree.specs.declared.statements.Block.{Block};
ghost use Rattle.slang_tree.specs.declared.statements.StatTree.{StatTree};
ghost use Rattle.slang_reading.specs.Lexed.{Lexed};
ghost use Rattle.slang_reading.specs.Reading.{Done, Past};
ghost use Rattle.slang_grammar.specs.Descent.{Limits};
ghost use Rattle.statement_grammar.specs.Statements.{BlockAt, StatAt};
ghost use Rattle.statement_grammar.specs.StatementsDescent.{blocks, statements};
ghost use Rattle.expression_limits.specs.Breaks.{Break};
ghost use Rattle.statement_limits.specs.Order.{IsKnownFirst};
ghost use Rattle.statement_limits.specs.Statements.{block_break, block_breaks, stat_break, stat_breaks};

/// Where a statement is spelled, the descent with limits that are not free and as many turns as tokens answers it exactly
/// where it breaks no limit and no rule on attributes, and else tells what it breaks first, in the order of the tokens at
/// which that is known: with the place of that token, or, of a rule on an attribute, that of the attribute's name. Nothing
/// that it breaks is known at an earlier token; and where a node is too deep at that token, no list or name that is too long
/// is told.
pub fn statements_tell_the_limit()
    ensures answered { (ts : List Lexed) (limits : Limits) (d at seen to : ℕ) (x : StatTree) (spelled : StatAt ts x at to)
        → limits.free ≡ false → length ts ≤ limits.turns → stat_break ts limits spelled d ≡ None
        → (seen1 : ℕ) × (statements limits d ts at seen ≡ Done x to seen1) }
    ensures told { (ts : List Lexed) (limits : Limits) (d at seen to : ℕ) (x : StatTree) (spelled : StatAt ts x at to) (b : Break)
        → limits.free ≡ false → length ts ≤ limits.turns → stat_break ts limits spelled d ≡ Some b
        → (seen1 : ℕ) × (statements limits d ts at seen ≡ Past b.code b.place seen1) }
    ensures goes_first { (ts : List Lexed) (limits : Limits) (d at to : ℕ) (x : StatTree) (spelled : StatAt ts x at to) (b : Break)
        → stat_break ts limits spelled d ≡ Some b → IsKnownFirst ts at to b (stat_breaks ts limits spelled d) }
{}

/// The same of the body of a function.
pub fn blocks_tell_the_limit()
    ensures answered { (ts : List Lexed) (limits : Limits) (d at seen to : ℕ) (x : Block) (spelled : BlockAt ts x at to)
        → limits.free ≡ false → length ts ≤ limits.turns → block_break ts limits spelled d ≡ None
        → (seen1 : ℕ) × (blocks limits d ts at seen ≡ Done x to seen1) }
    ensures told { (ts : List Lexed) (limits : Limits) (d at seen to : ℕ) (x : Block) (spelled : BlockAt ts x at to) (b : Break)
        → limits.free ≡ false → length ts ≤ limits.turns → block_break ts limits spelled d ≡ Some b
        → (seen1 : ℕ) × (blocks limits d ts at seen ≡ Past b.code b.place seen1) }
    ensures goes_first { (ts : List Lexed) (limits : Limits) (d at to : ℕ) (x : Block) (spelled : BlockAt ts x at to) (b : Break)
        → block_break ts limits spelled d ≡ Some b → IsKnownFirst ts at to b (block_breaks ts limits spelled d) }
{}
