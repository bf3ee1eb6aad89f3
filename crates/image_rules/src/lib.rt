//! The rules on an image that need no types: the order of its instructions, what its ids stand for and where, and the form of
//! its blocks. Each is checked alone, with the first place at which it is broken.
#![tactic(auto)]

mod blocks;
mod ids;
mod order;
mod table;

pub use blocks::first_block_fault;
pub use ids::first_id_fault;
pub use order::first_order_fault;
