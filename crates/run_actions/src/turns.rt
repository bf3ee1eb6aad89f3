// What a step does.

/// What a step does, beside what it leaves in the words.
#[derive(Clone, Copy, Drop)]
pub enum Turn {
    /// It goes on at this place.
    Going { place: usize },
    /// It goes on at the next place once this word of a buffer was put into the words at `to`.
    Reading { buffer: u32, index: u32, to: u32 },
    /// It goes on at the next place once the word was put into the buffer.
    Writing { buffer: u32, index: u32, word: u32 },
    Ended,
    Undefined,
    /// There is nothing that it could do.
    Stuck,
}

/// Where the indices of an access chain lead.
#[derive(Clone, Copy, Drop)]
pub enum Followed {
    To(u32),
    /// Out of a range.
    Beyond,
}
