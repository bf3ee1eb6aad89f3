// How one invocation of a dispatch ended.

/// How an invocation ended: with this step, by doing what is undefined with this step, or not within its steps.
#[derive(Clone, Copy)]
pub enum Finish {
    Ended(u64),
    Undefined(u64),
    Unfinished,
}
