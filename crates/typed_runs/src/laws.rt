// Laws of the runs of valid images, each the contract of a function that does nothing.

ghost use Rattle.std.specs.Prelude.{◌≢◌, ℕ, List};
ghost use Rattle.behavior.specs.Meanings.{Ids, Stuck};
ghost use Rattle.spirv_words.specs.declared.images.Image.{Image};
ghost use Rattle.spirv_words.specs.Step.{State, step};
ghost use Rattle.spirv_words.specs.Runs.{setting, start, words};
ghost use Rattle.spirv_check.specs.Valid.{Valid};
ghost use Rattle.typed_runs.specs.States.{IsTyped, Keeps};

/// A run of a valid image begins in a state in which all is of its type. From such a state each step goes to such a state, also
/// with any answer to a read, or it ends the run, or is undefined: it is not stuck.
pub fn states_stay_typed()
    ensures begins { (image : Image) → Valid image → (ids : Ids) (lengths : ℕ → ℕ → ℕ)
        → IsTyped image.instructions (start (setting image.instructions ids lengths)) }
    ensures step_keeps { (image : Image) → Valid image → (ids : Ids) (lengths : ℕ → ℕ → ℕ) (s : State)
        → IsTyped image.instructions s → Keeps image.instructions (step (setting image.instructions ids lengths) s) }
{}

/// No run of a valid image is stuck, whatever its built-in values, the lengths of its buffers, the answers to its reads and its
/// bound are.
pub fn a_valid_image_is_never_stuck()
    ensures { (image : Image) → Valid image → (ids : Ids) (lengths : ℕ → ℕ → ℕ) (answers : List ℕ) (n : ℕ)
        → (words image ids lengths answers n).ending ≢ Stuck }
{}
