// Laws of the descent against the grammar, each the contract of a function that does nothing.

ghost use Rattle.std.specs.Prelude.{◌≡◌, ◌+◌, ◌<◌, ◌++◌, List, ℕ, length, take};
ghost use Rattle.slang_tree.specs.declared.statements.Block.{Block};
ghost use Rattle.slang_tree.specs.declared.statements.StatTree.{StatTree};
ghost use Rattle.slang_reading.specs.Lexed.{Lexed};
ghost use Rattle.slang_reading.specs.Reading.{Done, Stop};
ghost use Rattle.slang_grammar.specs.Descent.{Limits};
ghost use Rattle.statement_grammar.specs.Statements.{BlockAt, StatAt};
ghost use Rattle.statement_grammar.specs.StatementsDescent.{blocks, statements};

/// Of statements: where the descent stops at a token, some statement begins with the tokens before it, and none with these and
/// that token, whatever the limits.
pub fn statements_go_on()
    ensures goes_on { (ts : List Lexed) (limits : Limits) (d at : ℕ) → statements limits d ts 0 0 ≡ Stop (at + 1)
        → (more : List Lexed) × (x : StatTree) × StatAt (take at ts ++ more) x 0 (length (take at ts ++ more)) }
    ensures goes_no_further { (ts : List Lexed) (limits : Limits) (d at to : ℕ) (more : List Lexed) (x : StatTree)
        → statements limits d ts 0 0 ≡ Stop (at + 1) → at < length ts → StatAt (take (at + 1) ts ++ more) x 0 to → ⊥ }
{}

/// The same of the body of a function.
pub fn blocks_go_on()
    ensures goes_on { (ts : List Lexed) (limits : Limits) (d at : ℕ) → blocks limits d ts 0 0 ≡ Stop (at + 1)
        → (more : List Lexed) × (x : Block) × BlockAt (take at ts ++ more) x 0 (length (take at ts ++ more)) }
    ensures goes_no_further { (ts : List Lexed) (limits : Limits) (d at to : ℕ) (more : List Lexed) (x : Block)
        → blocks limits d ts 0 0 ≡ Stop (at + 1) → at < length ts → BlockAt (take (at + 1) ts ++ more) x 0 to → ⊥ }
{}

/// What the descent answers of statements and of bodies of functions is spelled, whatever the limits.
pub fn statements_are_spelled()
    ensures of_statements { (ts : List Lexed) (limits : Limits) (d at seen to seen1 : ℕ) (x : StatTree)
        → statements limits d ts at seen ≡ Done x to seen1 → StatAt ts x at to }
    ensures of_blocks { (ts : List Lexed) (limits : Limits) (d at seen to seen1 : ℕ) (x : Block)
        → blocks limits d ts at seen ≡ Done x to seen1 → BlockAt ts x at to }
{}
