// Laws of what programs mean, each the contract of a function that does nothing.

ghost use Rattle.shader_kernel.specs.Extending.{IsExtended, IsDetermined};
ghost use Rattle.core_reading.specs.Programs.{CoreProgram};
ghost use Rattle.core_reading.specs.Source.{Bindings, source};

/// A higher bound and further answers to reads only extend what a program does: its events stay the first ones, and an end
/// other than a lack of bound or answers stays the end. So where it ends otherwise at two bounds, it does the same at both.
pub fn more_extends_a_source()
    ensures extends { (p : CoreProgram) (bindings : Bindings) → IsExtended (source p bindings) }
    ensures determined { (p : CoreProgram) (bindings : Bindings) → IsDetermined (source p bindings) }
{}
