// Laws of the descent against the grammar, each the contract of a function that does nothing.

ghost use Rattle.std.specs.Prelude.{◌≡◌, ◌≤◌, ◌+◌, ◌++◌, false, List, ℕ, drop, length, take};
ghost use Rattle.slang_tree.specs.declared.expressions.ExprTree.{ExprTree};
ghost use Rattle.slang_reading.specs.Lexed.{Lexed};
ghost use Rattle.slang_reading.specs.Reading.{Done, Stop, first};
ghost use Rattle.slang_grammar.specs.Expressions.{ExprAt};
ghost use Rattle.slang_grammar.specs.Descent.{Limits};
ghost use Rattle.slang_grammar.specs.ExpressionsDescent.{expressions, Value};
ghost use Rattle.expression_grammar.specs.Heights.{expr_height};
ghost use Rattle.expression_grammar.specs.Sizes.{Fits};
ghost use Rattle.expression_grammar.specs.Ends.{goes_on};

/// Of expressions: what the descent answers is spelled, and the number beside it is how many nodes stand on its longest
/// path; it stops nowhere in what is spelled, where nothing stands behind the expression with which it would go on; and
/// where it stops at a token, some expression begins with the tokens before it. An expression within the limits that is
/// spelled is answered, where there are as many turns as tokens, as nodes may stand on a path and as items in a list. So from
/// one token on at most one expression is spelled behind which none goes on.
pub fn expressions_are_read()
    ensures spelled { (ts : List Lexed) (limits : Limits) (d at seen to seen1 : ℕ) (x : Value)
        → expressions limits d ts at seen ≡ Done x to seen1 → ExprAt ts x.0 at to }
    ensures tall { (ts : List Lexed) (limits : Limits) (d at seen to seen1 : ℕ) (x : Value)
        → expressions limits d ts at seen ≡ Done x to seen1 → expr_height x.0 ≡ x.1 }
    ensures not_stopped { (ts : List Lexed) (limits : Limits) (d at seen to seen1 : ℕ) (x : ExprTree)
        → ExprAt ts x at to → goes_on (first (drop to ts)) ≡ false → expressions limits d ts at seen ≡ Stop seen1 → ⊥ }
    ensures goes_on { (ts : List Lexed) (limits : Limits) (d at : ℕ) → expressions limits d ts 0 0 ≡ Stop (at + 1)
        → (more : List Lexed) × (x : ExprTree) × ExprAt (take at ts ++ more) x 0 (length (take at ts ++ more)) }
    ensures answered { (ts : List Lexed) (limits : Limits) (d at seen to : ℕ) (x : ExprTree)
        → ExprAt ts x at to → goes_on (first (drop to ts)) ≡ false → Fits limits d x
        → length ts ≤ limits.turns → d ≤ limits.turns → limits.items ≤ limits.turns
        → (seen1 : ℕ) × (expressions limits d ts at seen ≡ Done (x, expr_height x) to seen1) }
    ensures one_tree { (ts : List Lexed) (at to end : ℕ) (x y : ExprTree) → ExprAt ts x at to → ExprAt ts y at end
        → goes_on (first (drop to ts)) ≡ false → goes_on (first (drop end ts)) ≡ false → (x ≡ y) × (to ≡ end) }
{}
