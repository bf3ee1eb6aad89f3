// Laws, each the contract of a function that does nothing.

ghost use Rattle.std.specs.Prelude.{◌≡◌, ◌≤◌, ◌+◌, true, List, ℕ, length};
ghost use Rattle.slang_reading.specs.Lexed.{Lexed};
ghost use Rattle.slang_grammar.specs.Descent.{Limits};
ghost use Rattle.slang_grammar.specs.TypesDescent.{arguments, types};
ghost use Rattle.type_reading.specs.Scanning.{scanned, erased};

/// Without limits of lists, names and chains, and with as many nodes and turns as there are tokens, the scan of generic
/// arguments has the outcome of their parser, but for its answer: it ends at the same index, having looked as far, or stops
/// at the same token.
pub fn arguments_are_scanned()
    ensures { (ts : List Lexed) (limits : Limits) (at seen : ℕ) → limits.free ≡ true → length ts ≤ limits.turns
        → erased (arguments limits true limits.turns (types limits limits.turns) ts at seen) ≡ scanned ts at seen }
{}
