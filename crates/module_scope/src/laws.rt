// What the look-up promises, in other words.

ghost use Rattle.module_scope.specs.Innermost.{InnermostFirst};

/// What is found for a name is the innermost local with it.
pub fn an_inner_local_is_found_first()
    ensures { InnermostFirst }
{}
