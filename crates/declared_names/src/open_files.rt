// Who may see a declaration, and which declarations are plain.

ghost use Rattle.std.specs.Prelude.{◌≡◌};
ghost use Rattle.std.specs.List.{list_all};
ghost use Rattle.declared_names.specs.Declarations as spec;

use slang_names::Access;
use slang_tree::{
    Constraint, File, GenericParameter, Identifier, InnerMember, Item, ItemNode, Member, MemberNode,
};

fn has_no_word(access: Option<Access>) -> bool
    ensures { result ≡ spec.has_no_word access }
{
    match access {
        Some(_) => false,
        None => true,
    }
}

fn inner_members_wordless(list: &[InnerMember]) -> bool
    ensures { result ≡ list_all spec.inner_wordless list.now }
{
    for item in list {
        if !has_no_word(item.access) {
            return false;
        }
    }
    true
}

fn member_wordless(member: &Member) -> bool
    ensures { result ≡ spec.member_wordless member.now }
{
    if !has_no_word(member.access) {
        return false;
    }
    match &member.node {
        MemberNode::Struct(inner) => inner_members_wordless(inner.members.as_slice()),
        _ => true,
    }
}

fn members_wordless(list: &[Member]) -> bool
    ensures { result ≡ list_all spec.member_wordless list.now }
{
    for item in list {
        if !member_wordless(item) {
            return false;
        }
    }
    true
}

fn item_wordless(item: &Item) -> bool
    ensures { result ≡ spec.item_wordless item.now }
{
    if !has_no_word(item.access) {
        return false;
    }
    match &item.node {
        ItemNode::Struct(outer) => members_wordless(outer.members.as_slice()),
        ItemNode::Extension(extension) => inner_members_wordless(extension.members.as_slice()),
        _ => true,
    }
}

fn items_wordless(list: &[Item]) -> bool
    ensures { result ≡ list_all spec.item_wordless list.now }
{
    for item in list {
        if !item_wordless(item) {
            return false;
        }
    }
    true
}

/// A file without a module line and without access words is open to all.
pub fn is_open(file: &File) -> bool
    ensures { result ≡ spec.is_open file.now }
{
    match &file.module {
        Some(_) => false,
        None => items_wordless(file.items.as_slice()),
    }
}

/// The access that is written, or that of the file.
pub fn access_or(bare: bool, access: Option<Access>) -> Access
    ensures { result ≡ spec.access_or bare access }
{
    match access {
        Some(access) => access,
        None => {
            if bare {
                Access::Public
            } else {
                Access::Internal
            }
        }
    }
}

/// Without parameters between `<` and `>`, heads and constraints.
pub fn is_plain(generics: &[GenericParameter], heads: &[Identifier], wheres: &[Constraint]) -> bool
    ensures { result ≡ spec.is_plain generics.now heads.now wheres.now }
{
    generics.is_empty() && heads.is_empty() && wheres.is_empty()
}
