// Laws of dispatches.

ghost use Rattle.std.specs.Prelude.{◌≡◌, ℕ, ◌<◌, ◌≤◌, List, Result, Err};
ghost use Rattle.slang_names.specs.declared.faults.RunCause.{RunCause};
ghost use Rattle.spirv_words.specs.declared.images.Image.{Image};
ghost use Rattle.run_buffers.specs.declared.buffer.Buffer.{Buffer};
ghost use Rattle.run_buffers.specs.declared.faults.RunFault.{RunFault};
ghost use Rattle.run_buffers.specs.declared.faults.RunFault.TheVariants.{Refused};
ghost use Rattle.spirv_check.specs.Entry.{entry_name, group_size};
ghost use Rattle.spirv_run.specs.declared.ran.Ran.{Ran};
ghost use Rattle.spirv_run.specs.Dispatch.{HasAll, FirstUndefined, FirstUnfinished, product, IsDispatch, HasRun, IsNoWant};

/// A dispatch has one answer, and leaves one memory.
pub fn one_dispatch()
    ensures { (image : Image) (entry groups : List ℕ) (steps : ℕ) (before a b : List Buffer) (p q : Result Ran RunFault)
        → IsDispatch image entry groups steps before p a → IsDispatch image entry groups steps before q b → (p ≡ q) × (a ≡ b) }
{}

/// A dispatch never answers want of memory, and what it refuses leaves the memory as it was. With the entry's name, not too many
/// invocations and each of the image's buffers it comes to its end, unless an invocation does what is undefined or does not
/// end within its steps.
pub fn dispatch_answers()
    ensures no_want { (image : Image) (entry groups : List ℕ) (steps : ℕ) (before after : List Buffer) (answer : Result Ran RunFault)
        → IsDispatch image entry groups steps before answer after → IsNoWant answer }
    ensures refused { (image : Image) (entry groups : List ℕ) (steps : ℕ) (before after : List Buffer) (cause : RunCause)
        → IsDispatch image entry groups steps before (Err (Refused cause)) after → after ≡ before }
    ensures runs { (image : Image) (entry groups : List ℕ) (steps : ℕ) (before after : List Buffer) (answer : Result Ran RunFault)
        → entry ≡ entry_name image.instructions → product image.instructions groups ≤ 65536 → HasAll image.instructions before
        → ((n step : ℕ) (last : List Buffer) → n < product image.instructions groups
        → FirstUndefined image (group_size image.instructions) groups steps n step before last → ⊥)
        → ((n : ℕ) (last : List Buffer) → n < product image.instructions groups
        → FirstUnfinished image (group_size image.instructions) groups steps n before last → ⊥)
        → IsDispatch image entry groups steps before answer after → HasRun answer }
{}
