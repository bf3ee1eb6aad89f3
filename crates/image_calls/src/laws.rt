// A law of calls, the contract of a function that does nothing.

ghost use Rattle.std.specs.Prelude.{◌≡◌, ℕ, List, None, true};
ghost use Rattle.spirv_words.specs.declared.images.Instruction.{Instruction};
ghost use Rattle.call_graph.specs.Edges.{calls_it, Leads};
ghost use Rattle.image_calls.specs.Edges.{calls};
ghost use Rattle.image_calls.specs.Calls.{BadCall};

/// Where no call is wrong, no function leads back to one that calls it.
pub fn calls_lead_nowhere_back()
    ensures { (code : List Instruction) (caller callee : ℕ) → ((place : ℕ) → BadCall code place → ⊥)
        → calls_it (calls None code) caller callee ≡ true → Leads (calls None code) callee caller → ⊥ }
{}
