// Laws of the descent against the grammar, each the contract of a function that does nothing.

ghost use Rattle.std.specs.Prelude.{◌≡◌, ◌≤◌, ◌+◌, ◌++◌, List, ℕ, length, take};
ghost use Rattle.slang_tree.specs.declared.types.TypeTree.{TypeTree};
ghost use Rattle.slang_reading.specs.Lexed.{Lexed};
ghost use Rattle.slang_reading.specs.Reading.{Done, Stop};
ghost use Rattle.slang_grammar.specs.Types.{TypeAt, Quiet};
ghost use Rattle.slang_grammar.specs.Heights.{height};
ghost use Rattle.slang_grammar.specs.Descent.{Limits};
ghost use Rattle.slang_grammar.specs.Sizes.{TypeFits};
ghost use Rattle.slang_grammar.specs.TypesDescent.{types, Type_};

/// Of types: what the descent answers is spelled, and the number beside it is how many nodes stand on its longest path; it
/// stops nowhere in what is spelled, where nothing stands behind the type with which it would go on; and where it stops
/// at a token, some type begins with the tokens before it. A type within the limits that is spelled is answered, where there
/// are as many turns as nodes may stand on a path and as items in a list. So from one token on at most one type is spelled
/// behind which none goes on.
pub fn types_are_read()
    ensures spelled { (ts : List Lexed) (limits : Limits) (d at seen to seen1 : ℕ) (x : Type_)
        → types limits d ts at seen ≡ Done x to seen1 → TypeAt ts x.0 at to }
    ensures tall { (ts : List Lexed) (limits : Limits) (d at seen to seen1 : ℕ) (x : Type_)
        → types limits d ts at seen ≡ Done x to seen1 → height x.0 ≡ x.1 }
    ensures not_stopped { (ts : List Lexed) (limits : Limits) (d at seen to seen1 : ℕ) (x : TypeTree)
        → TypeAt ts x at to → Quiet ts to → types limits d ts at seen ≡ Stop seen1 → ⊥ }
    ensures goes_on { (ts : List Lexed) (limits : Limits) (d at : ℕ) → types limits d ts 0 0 ≡ Stop (at + 1)
        → (more : List Lexed) × (x : TypeTree) × TypeAt (take at ts ++ more) x 0 (length (take at ts ++ more)) }
    ensures answered { (ts : List Lexed) (limits : Limits) (d at seen to : ℕ) (x : TypeTree)
        → TypeAt ts x at to → Quiet ts to → TypeFits limits d x → d ≤ limits.turns → limits.items ≤ limits.turns
        → (seen1 : ℕ) × (types limits d ts at seen ≡ Done (x, height x) to seen1) }
    ensures one_tree { (ts : List Lexed) (at to end : ℕ) (x y : TypeTree) → TypeAt ts x at to → TypeAt ts y at end
        → Quiet ts to → Quiet ts end → (x ≡ y) × (to ≡ end) }
{}
