// One buffer.

use sqlite_items::Items;

/// The words of one buffer, with its set and its binding.
#[derive(Drop)]
pub struct Buffer {
    pub set: u32,
    pub binding: u32,
    pub words: Items<u32>,
}
