// Laws of the meaning of programs, each the contract of a function that does nothing.

ghost use Rattle.std.specs.Prelude.{◌≡◌, ℕ, Bool, List, IsTrue};
ghost use Rattle.behavior.specs.Meanings.{Ids};
ghost use Rattle.shader_kernel.specs.Meaning.{means};
ghost use Rattle.shader_kernel.specs.Shader.{Shader, NumberedType};
ghost use Rattle.shader_kernel.specs.Alike.{AlikePrograms};
ghost use Rattle.shader_kernel.specs.Extending.{IsExtended, IsDetermined};

/// A higher bound and further answers to reads only extend what a program does: its events stay the first ones, and an end
/// other than a lack of bound or answers stays the end. So where it ends otherwise at two bounds, it does the same at both.
pub fn more_extends_a_run()
    ensures extends { (p : Shader) → IsExtended (means p) }
    ensures determined { (p : Shader) → IsDetermined (means p) }
{}

/// Programs that are alike up to the names of their functions and types do the same: only the functions that calls lead to from
/// the entry have to be alike, and types have to have one zero.
pub fn names_do_not_matter()
    ensures { (functions : ℕ → ℕ → Bool) (types : NumberedType → NumberedType → Bool) (p q : Shader)
        → AlikePrograms (λ c d. IsTrue (functions c d)) (λ t u. IsTrue (types t u)) p q
        → (ids : Ids) (lengths : ℕ → ℕ → ℕ) (answers : List ℕ) (n : ℕ) → means p ids lengths answers n ≡ means q ids lengths answers n }
{}
