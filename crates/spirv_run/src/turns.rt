// What a step gives.

/// Whether an invocation goes on after a step.
#[derive(Clone, Copy)]
pub enum Turn {
    Going,
    Ended,
    /// It did what is undefined.
    Undefined,
}
