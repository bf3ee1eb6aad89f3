// Laws.

ghost use Rattle.std.specs.Prelude.{◌≡◌, ◌↔◌};
ghost use Rattle.slang_core.specs.declared.declarations.CoreModule.{CoreModule};
ghost use Rattle.slang_core.specs.ModuleTrees.{module_tree};
ghost use Rattle.form_grammar.specs.Grammar.{module_form};
ghost use Rattle.form_laws.specs.Forms.{IsForm};
ghost use Rattle.core_laws.specs.Plain.{IsPlain};

/// The tree of a core tells the core.
pub fn tree_tells_core()
    ensures { (x y : CoreModule) → module_tree x ≡ module_tree y → x ≡ y }
{}

/// The tree of a core is of the form exactly where names, numbers, counts and vectors are in their ranges.
pub fn plain_cores_are_spelled()
    ensures { (m : CoreModule) → IsForm (module_tree m) module_form ↔ IsPlain (module_tree m) }
{}
