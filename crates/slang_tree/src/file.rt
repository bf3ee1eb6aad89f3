// The tree of a file.

use crate::{
    Alias, Attribute, Constant, Extension, Function, Global, Identifier, Interface, Struct,
};
use slang_names::{Access, Place};
use sqlite_items::Items;

/// `module name;` or `import name;`.
#[derive(Drop)]
pub struct ModuleLine {
    pub place: Place,
    pub name: Identifier,
}

/// A declaration of a module.
#[derive(Drop)]
pub struct Item {
    pub attributes: Items<Attribute>,
    pub access: Option<Access>,
    pub node: ItemNode,
}

#[derive(Drop)]
pub enum ItemNode {
    Struct(Struct),
    Interface(Interface),
    Extension(Extension),
    Alias(Alias),
    Function(Function),
    Constant(Constant),
    Global(Global),
}

/// A whole text.
#[derive(Drop)]
pub struct File {
    pub module: Option<ModuleLine>,
    pub imports: Items<ModuleLine>,
    pub items: Items<Item>,
}
