// What is in force at a place of a body.

use name_lists::NameList;
use slang_core::TypeTerm;
use sqlite_items::Items;

/// What stands around: the struct whose members are in reach, whether there is a `this`, whether it can be written, and
/// whether a loop stands around.
#[derive(Clone, Copy)]
pub struct Within {
    pub subject: Option<u32>,
    pub has_this: bool,
    pub is_mutating: bool,
    pub in_loop: bool,
}

/// A local or a parameter.
#[derive(Drop)]
pub struct Local {
    pub number: u32,
    pub of: TypeTerm,
    pub is_const: bool,
}

/// The locals of one block that are in force.
#[derive(Drop)]
pub struct InForce {
    pub names: NameList,
    pub locals: Items<Local>,
}

/// The blocks around from the outside in, the parameters first; the types of all locals so far; and the number of the first
/// of them.
#[derive(Drop)]
pub struct Frame {
    pub blocks: Items<InForce>,
    pub types: Items<TypeTerm>,
    pub first: u32,
}
