// Laws of the two machines, each the contract of a function that does nothing.

ghost use Rattle.run_laws.specs.Together.{StepsTogether, BeginTogether};

/// Where a run of a valid image begins, the words hold its state: the built-in values stand where they are looked for, and zeros
/// where the variables of the entry stand.
pub fn the_machines_begin_together()
    ensures { BeginTogether }
{}

/// From a state that the words hold, an instruction does to values what its action does to words: it goes on to a state that the
/// words hold then, it reads or writes the same word of the same buffer, or it ends or is undefined as the action does. No word
/// of a buffer is read or written that is not there.
pub fn the_machines_step_together()
    ensures { StepsTogether }
{}
