//! The grammar of declarations and of whole files: which tokens spell which tree. Its relation and its descent stand in
//! the definitions; the tables of what a token begins are code too.
#![tactic(auto)]

mod tables;

pub use tables::{DeclarationUse, access_of, declaration_use, mode_of};
