// Laws of the rules, each the contract of a function that does nothing.

ghost use Rattle.std.specs.Prelude.{◌≡◌, ◌↔◌, ℕ, Bool, true, false, List, Option, None, ◌⊎◌};
ghost use Rattle.slang_names.specs.declared.places.Place.{Place};
ghost use Rattle.slang_names.specs.declared.codes.ModuleCode.{ModuleCode};
ghost use Rattle.slang_tree.specs.declared.file.File.{File};
ghost use Rattle.slang_core.specs.declared.declarations.CoreModule.{CoreModule};
ghost use Rattle.call_graph.specs.Edges.{calls_it, Leads};
ghost use Rattle.plans.specs.Plans.{Verdict, Fine, Wrong, run};
ghost use Rattle.plans.specs.Plans as plans;
ghost use Rattle.plans.specs.Lines.{demand};
ghost use Rattle.type_lines.specs.Classes.{Class, Answer, Does, modules};
ghost use Rattle.type_rules.specs.Leading.{leads};
ghost use Rattle.type_rules.specs.Modules.{ModuleOK, FirstWrong, module_plan};

/// A node of any class comes to one answer or is passed over, or has one first wrong node: what its plan runs to.
pub fn each_node_has_one_verdict()
    ensures comes { (c : Class) (p : Does c) (o : Option (Answer c)) → plans.Comes c p o ↔ (run p ≡ Fine o) }
    ensures wrong { (c : Class) (p : Does c) (at : Place) (k : ModuleCode) → plans.FirstWrong c p at k ↔ (run p ≡ Wrong at k) }
{}

/// A module has one core, or one first wrong node, and never both; its plan is never passed over.
pub fn a_module_is_typed_or_wrong()
    ensures either { (n : List ℕ) (f : File) → ((core : CoreModule) × ModuleOK n f core) ⊎ ((p : Place) × (k : ModuleCode) × FirstWrong n f p k) }
    ensures one_core { (n : List ℕ) (f : File) (a b : CoreModule) → ModuleOK n f a → ModuleOK n f b → a ≡ b }
    ensures one_place { (n : List ℕ) (f : File) (p q : Place) (k l : ModuleCode) → FirstWrong n f p k → FirstWrong n f q l → (p ≡ q) × (k ≡ l) }
    ensures never_both { (n : List ℕ) (f : File) (core : CoreModule) (p : Place) (k : ModuleCode) → ModuleOK n f core → FirstWrong n f p k → ⊥ }
    ensures never_open { (n : List ℕ) (f : File) → plans.Comes modules (module_plan n f) None → ⊥ }
{}

/// A rule of a line that holds leaves what comes behind it, and one that is broken is what the line says.
pub fn the_first_broken_rule_counts()
    ensures holds { (c : Class) (b : Bool) (p : Place) (k : ModuleCode) (v : Verdict (Answer c)) → b ≡ true → demand b p k v ≡ v }
    ensures broken { (c : Class) (b : Bool) (p : Place) (k : ModuleCode) (v : Verdict (Answer c)) → b ≡ false → demand b p k v ≡ Wrong p k }
{}

/// What leads on in a graph by the definition leads there by a list of edges, as the search in a graph finds it.
pub fn leading_back_is_by_edges()
    ensures { (es : List (ℕ × ℕ)) (m n : ℕ) → (leads es m n ≡ true) ↔ ((x : ℕ) × (calls_it es m x ≡ true) × Leads es x n) }
{}
