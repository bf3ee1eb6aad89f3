//! The grammar of statements and attributes: which tokens spell which tree. Its relation and its descent stand in the
//! definitions; the tables of what a token begins are code too.
#![tactic(auto)]

mod attributes;
mod tables;

pub use attributes::{KnownAttribute, Target, attribute_of, may_stand};
pub use tables::{ChangeUse, StatementUse, change_use, statement_use};
