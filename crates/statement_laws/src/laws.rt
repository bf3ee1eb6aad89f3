// Laws of the descent against the grammar, each the contract of a function that does nothing.

ghost use Rattle.std.specs.Prelude.{◌≡◌, List, ℕ};
ghost use Rattle.slang_tree.specs.declared.statements.Block.{Block};
ghost use Rattle.slang_tree.specs.declared.statements.StatTree.{StatTree};
ghost use Rattle.slang_reading.specs.Lexed.{Lexed};
ghost use Rattle.slang_reading.specs.Reading.{Done, Stop};
ghost use Rattle.slang_grammar.specs.Descent.{Limits};
ghost use Rattle.statement_grammar.specs.Statements.{BlockAt, StatAt};
ghost use Rattle.statement_grammar.specs.StatementsDescent.{blocks, statements};

/// Of statements: where one is spelled, the descent does not stop, whatever the limits; and what it answers there is that
/// statement, up to its end.
pub fn statements_are_read()
    ensures not_stopped { (ts : List Lexed) (limits : Limits) (d at seen to seen1 : ℕ) (x : StatTree)
        → StatAt ts x at to → statements limits d ts at seen ≡ Stop seen1 → ⊥ }
    ensures answered { (ts : List Lexed) (limits : Limits) (d at seen to end seen1 : ℕ) (x y : StatTree)
        → StatAt ts x at to → statements limits d ts at seen ≡ Done y end seen1 → (y ≡ x) × (end ≡ to) }
{}

/// The same of the body of a function.
pub fn blocks_are_read()
    ensures not_stopped { (ts : List Lexed) (limits : Limits) (d at seen to seen1 : ℕ) (x : Block)
        → BlockAt ts x at to → blocks limits d ts at seen ≡ Stop seen1 → ⊥ }
    ensures answered { (ts : List Lexed) (limits : Limits) (d at seen to end seen1 : ℕ) (x y : Block)
        → BlockAt ts x at to → blocks limits d ts at seen ≡ Done y end seen1 → (y ≡ x) × (end ≡ to) }
{}
