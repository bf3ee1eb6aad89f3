// The names that a text declares. A declaration has the number of its place in the list of all declarations, structs are
// numbered by themselves.

use name_lists::NameList;
use slang_names::{Access, Name, Place};
use sqlite_items::Items;

/// The names of a module and of its structs, known from the syntax alone.
#[derive(Drop)]
pub struct Declared {
    pub module: Name,
    /// The names of the module's own declarations.
    pub names: NameList,
    pub owns: Items<Own>,
    /// The paths of all structs.
    pub paths: NameList,
    pub structs: Items<StructNames>,
}

/// A declaration of the module.
#[derive(Clone, Copy)]
pub struct Own {
    /// It is there from that byte on: from its end for an alias or a constant, else from 0.
    pub seen: u32,
    pub kind: OwnKind,
}

/// What a name of the module is: its number among the structs, or among all declarations.
#[derive(Clone, Copy)]
pub enum OwnKind {
    Struct(u32),
    Function(u32),
    Alias(u32),
    Constant(u32),
    Global(u32),
}

/// The members of a struct.
#[derive(Drop)]
pub struct StructNames {
    /// The bytes in which its private members are seen.
    pub around: Place,
    pub names: NameList,
    pub members: Items<MemberName>,
    /// Its fields, in order.
    pub fields: Items<FieldAt>,
}

/// A member of a struct.
#[derive(Clone, Copy)]
pub struct MemberName {
    pub access: Access,
    /// It is there from that byte on.
    pub seen: u32,
    pub kind: MemberKind,
}

/// What a member is. A field has its number in the struct.
#[derive(Clone, Copy)]
pub enum MemberKind {
    Field(u32, FieldAt),
    Method(u32),
    Alias(u32),
    Struct(u32),
}

/// A field: its declaration, and which name of that declaration it is.
#[derive(Clone, Copy)]
pub struct FieldAt {
    pub declaration: u32,
    pub at: u32,
}
