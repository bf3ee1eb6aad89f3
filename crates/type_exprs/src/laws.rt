// A law of the definitions, as the contract of a function that does nothing.

ghost use Rattle.std.specs.Prelude.{◌≡◌};
ghost use Rattle.slang_tree.specs.declared.types.TypeTree.{TypeTree};
ghost use Rattle.slang_tree.specs.declared.expressions.ExprTree.{ExprTree};
ghost use Rattle.type_exprs.specs.TypePlans.{type_plan};
ghost use Rattle.type_exprs.specs.ExprPlans.{expr_plan};
ghost use Rattle.type_exprs.specs.Needs.{needed_type, needed_expr};

/// What a part denotes, where needs are told, is what its own plan comes to.
pub fn needs_are_told_by_the_plans()
    ensures types { (x : TypeTree) → (needed_type x).0 ≡ type_plan x }
    ensures exprs { (x : ExprTree) → (needed_expr x).0 ≡ expr_plan x }
{}
