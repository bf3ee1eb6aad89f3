// What is known of declarations without the bodies of functions.

use declared_names::Declared;
use slang_core::{Entry, Flags, Par, TypeTerm};
use slang_names::Ref;
use sqlite_items::Items;
use type_terms::Fixed;

/// What is known of a declaration without its body.
#[derive(Drop)]
pub enum Head {
    Struct,
    Alias(TypeTerm),
    Constant(Fixed),
    /// The types of the names of one declaration of fields.
    Fields(Items<TypeTerm>),
    Function(Signature),
    Global(TypeTerm),
}

/// How a function is called.
#[derive(Drop)]
pub struct Signature {
    pub target: Ref,
    /// The number of the struct of a method.
    pub owner: Option<u32>,
    pub flags: Flags,
    /// Whether it has an attribute of entries.
    pub is_entry: bool,
    pub parameters: Items<Par>,
    pub result: TypeTerm,
    /// What an entry is started with.
    pub entry: Option<Entry>,
}

/// What the spelling of a type tells: the struct that it is, and whether it names a typedef of a struct by a dot, where
/// each alias stands for its own spelling.
#[derive(Clone, Copy)]
pub struct Spelling {
    pub subject: Option<u32>,
    pub is_projected: bool,
}

/// The names of a module, and for each declaration its head, if it has a typing, and what its spelling tells.
#[derive(Drop)]
pub struct Outline {
    pub declared: Declared,
    pub heads: Items<Option<Head>>,
    pub spellings: Items<Spelling>,
}
