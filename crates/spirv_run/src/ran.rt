// What a dispatch that came to its end did.

/// How many invocations a dispatch had, and how many steps they took together.
#[derive(Clone, Copy)]
pub struct Ran {
    pub invocations: u32,
    pub steps: u64,
}
