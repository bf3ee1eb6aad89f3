// Names of the module and of its structs, each found by its map.

ghost use Rattle.std.specs.Prelude.{◌≡◌};
ghost use Rattle.std.specs.Option.{option_copied};
ghost use Rattle.module_scope.specs.Sees as spec;

use declared_names::{Declared, MemberKind, MemberName, Own, OwnKind, StructNames};
use name_lists::NameList;
use slang_names::{Access, ModuleCode, Place};
use sqlite_items::at as item_at;

/// The item that the last equal name has.
pub fn item_named<'a, T>(names: &NameList, items: &'a [T], name: &[u8]) -> Option<&'a T>
    ensures { option_copied result ≡ spec.item_named name.now names.now items.now }
{
    match names.find(name) {
        Some(place) => item_at(items, place),
        None => None,
    }
}

/// Private members are seen in the bytes of their struct's declaration.
fn may_see(around: Place, access: Access, at: u32) -> bool
    ensures { result ≡ spec.may_see around access at }
{
    match access {
        Access::Private => around.start <= at && at < around.end,
        _ => true,
    }
}

/// What is not there yet is not there.
fn seen_member(around: Place, at: u32, member: MemberName) -> Result<MemberKind, ModuleCode>
    ensures { result ≡ spec.seen_member around at member }
{
    if member.seen > at {
        return Err(ModuleCode::NoMember);
    }
    if may_see(around, member.access, at) {
        Ok(member.kind)
    } else {
        Err(ModuleCode::NoAccess)
    }
}

fn member_in(members: &StructNames, name: &[u8], at: u32) -> Result<MemberKind, ModuleCode>
    ensures { result ≡ spec.member_in members.now name.now at }
{
    match item_named(&members.names, members.members.as_slice(), name) {
        Some(member) => seen_member(members.around, at, *member),
        None => Err(ModuleCode::NoMember),
    }
}

/// The member of that name of the struct of that number, for a name that stands at that byte.
pub fn member_named(
    declared: &Declared,
    number: usize,
    name: &[u8],
    at: u32,
) -> Result<MemberKind, ModuleCode>
    ensures { result ≡ spec.member_named declared.now number name.now at }
{
    match item_at(declared.structs.as_slice(), number) {
        Some(members) => member_in(members, name, at),
        None => Err(ModuleCode::NoMember),
    }
}

fn seen_own(at: u32, own: Own) -> Option<OwnKind>
    ensures { result ≡ spec.seen_own at own }
{
    if own.seen <= at { Some(own.kind) } else { None }
}

/// The module's declaration of that name, for a name that stands at that byte.
pub fn own_named(declared: &Declared, name: &[u8], at: u32) -> Option<OwnKind>
    ensures { result ≡ spec.own_named declared.now name.now at }
{
    match item_named(&declared.names, declared.owns.as_slice(), name) {
        Some(own) => seen_own(at, *own),
        None => None,
    }
}
