// How much the functions read.

use slang_names::limits::{LIST_ITEMS, NAME_BYTES, TEXT_BYTES};

/// How many turns a loop makes, items a list has, and bytes a name has, at most.
#[derive(Clone, Copy)]
pub struct Limits {
    pub turns: usize,
    pub items: usize,
    pub names: usize,
}

/// The limits of the language. Each turn takes a token, so no text has more turns than it may have bytes.
pub const LANGUAGE: Limits = Limits {
    turns: TEXT_BYTES,
    items: LIST_ITEMS,
    names: NAME_BYTES,
};
