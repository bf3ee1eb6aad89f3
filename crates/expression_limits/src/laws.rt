// Laws of which limit is told, each the contract of a function that does nothing.

ghost use Rattle.std.specs.Prelude.{◌≡◌, ◌≤◌, List, ℕ, length, drop, Option, Some, None, false};
ghost use Rattle.slang_tree.specs.declared.types.TypeTree.{TypeTree};
ghost use Rattle.slang_tree.specs.declared.expressions.ExprTree.{ExprTree};
ghost use Rattle.slang_reading.specs.Lexed.{Lexed};
ghost use Rattle.slang_reading.specs.Reading.{Done, Past, first};
ghost use Rattle.slang_grammar.specs.Types.{TypeAt, Quiet};
ghost use Rattle.slang_grammar.specs.Descent.{Limits};
ghost use Rattle.slang_grammar.specs.Heights.{height};
ghost use Rattle.slang_grammar.specs.Sizes.{TypeFits};
ghost use Rattle.slang_grammar.specs.TypesDescent.{types};
ghost use Rattle.slang_grammar.specs.Expressions.{ExprAt};
ghost use Rattle.slang_grammar.specs.ExpressionsDescent.{expressions};
ghost use Rattle.expression_grammar.specs.Heights.{expr_height};
ghost use Rattle.expression_grammar.specs.Sizes.{Fits};
ghost use Rattle.expression_grammar.specs.Ends.{goes_on};
ghost use Rattle.expression_limits.specs.Breaks.{Break, IsFirst};
ghost use Rattle.expression_limits.specs.Types.{type_breaks, type_break};
ghost use Rattle.expression_limits.specs.Expressions.{expr_breaks, expr_break};

/// Where a type is spelled and nothing stands behind it with which it would go on, the descent with limits that are not
/// free and as many turns as tokens answers it where it breaks no limit, and else tells the first limit that it breaks,
/// with the place of the token that breaks it. No token before that one breaks a limit; and where a node is too deep at
/// it, that is told rather than a list or a name that is too long. It breaks no limit exactly where it is within them.
pub fn types_tell_the_limit()
    ensures answered { (ts : List Lexed) (limits : Limits) (d at seen to : ℕ) (x : TypeTree) (spelled : TypeAt ts x at to)
        → Quiet ts to → limits.free ≡ false → length ts ≤ limits.turns → type_break ts limits spelled d ≡ None
        → (seen1 : ℕ) × (types limits d ts at seen ≡ Done (x, height x) to seen1) }
    ensures told { (ts : List Lexed) (limits : Limits) (d at seen to : ℕ) (x : TypeTree) (spelled : TypeAt ts x at to) (b : Break)
        → Quiet ts to → limits.free ≡ false → length ts ≤ limits.turns → type_break ts limits spelled d ≡ Some b
        → (seen1 : ℕ) × (types limits d ts at seen ≡ Past b.code b.place seen1) }
    ensures goes_first { (ts : List Lexed) (limits : Limits) (d at to : ℕ) (x : TypeTree) (spelled : TypeAt ts x at to) (b : Break)
        → type_break ts limits spelled d ≡ Some b → IsFirst ts at to b (type_breaks ts limits spelled d) }
    ensures what_fits { (ts : List Lexed) (limits : Limits) (d at to : ℕ) (x : TypeTree) (spelled : TypeAt ts x at to)
        → TypeFits limits d x → type_break ts limits spelled d ≡ None }
    ensures only_what_fits { (ts : List Lexed) (limits : Limits) (d at to : ℕ) (x : TypeTree) (spelled : TypeAt ts x at to)
        → type_break ts limits spelled d ≡ None → TypeFits limits d x }
{}

/// The same of an expression behind which nothing stands with which one would go on.
pub fn expressions_tell_the_limit()
    ensures answered { (ts : List Lexed) (limits : Limits) (d at seen to : ℕ) (x : ExprTree) (spelled : ExprAt ts x at to)
        → goes_on (first (drop to ts)) ≡ false → limits.free ≡ false → length ts ≤ limits.turns → expr_break ts limits spelled d ≡ None
        → (seen1 : ℕ) × (expressions limits d ts at seen ≡ Done (x, expr_height x) to seen1) }
    ensures told { (ts : List Lexed) (limits : Limits) (d at seen to : ℕ) (x : ExprTree) (spelled : ExprAt ts x at to) (b : Break)
        → goes_on (first (drop to ts)) ≡ false → limits.free ≡ false → length ts ≤ limits.turns → expr_break ts limits spelled d ≡ Some b
        → (seen1 : ℕ) × (expressions limits d ts at seen ≡ Past b.code b.place seen1) }
    ensures goes_first { (ts : List Lexed) (limits : Limits) (d at to : ℕ) (x : ExprTree) (spelled : ExprAt ts x at to) (b : Break)
        → expr_break ts limits spelled d ≡ Some b → IsFirst ts at to b (expr_breaks ts limits spelled d) }
    ensures what_fits { (ts : List Lexed) (limits : Limits) (d at to : ℕ) (x : ExprTree) (spelled : ExprAt ts x at to)
        → Fits limits d x → expr_break ts limits spelled d ≡ None }
    ensures only_what_fits { (ts : List Lexed) (limits : Limits) (d at to : ℕ) (x : ExprTree) (spelled : ExprAt ts x at to)
        → expr_break ts limits spelled d ≡ None → Fits limits d x }
{}
