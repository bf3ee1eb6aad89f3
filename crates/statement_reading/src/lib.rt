//! The functions that read statements from the tokens of a text: each runs its parser of the descent.
#![tactic(auto)]

mod ahead;
mod body;
mod braces;
mod branches;
mod changes;
mod descent;
mod lists;
mod locals;
mod loops;
mod nodes;
mod parts;
mod plain;
mod primaries;

pub use body::blocks;
