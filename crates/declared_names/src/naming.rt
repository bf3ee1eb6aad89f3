// The names that declarations declare.

ghost use Rattle.std.specs.Prelude.{◌≡◌, ◌++◌, fold, IfOk, OnOk};
ghost use Rattle.declared_names.specs.declared.declared.OwnKind.TheVariants as o;
ghost use Rattle.declared_names.specs.declared.declared.MemberKind.TheVariants as m;
ghost use Rattle.declared_names.specs.Declares as spec;
ghost use Rattle.declared_names.specs.Views.{declaration_of, declarations_of};
ghost use Rattle.declared_names.specs.Inside.{naming_of};

use crate::{
    Declaration, Declared, FieldAt, MemberKind, MemberName, Node, Own, OwnKind, StructNames,
    path_of,
};
use name_lists::NameList;
use slang_names::{Access, Name, Place};
use slang_tree::{DeclaredName, Identifier};
use sqlite_items::Items;
use std::alloc::{AllocError, Global};

/// The names so far.
#[derive(Drop)]
pub struct Naming {
    module: Name,
    names: NameList,
    owns: Items<Own>,
    paths: NameList,
    structs: Vec<StructNames>,
}

/// One more name of the module.
fn add_own(alloc: Global, naming: &mut Naming, name: &[u8], own: Own) -> Result<(), AllocError>
    ensures { OnOk result (naming_of naming.new ≡ spec.with_own name.now own.seen own.kind (naming_of naming.old)) }
{
    naming.names.push(alloc, name)?;
    naming.owns.push(own)?;
    Ok(())
}

/// One more member.
fn add_member(
    alloc: Global,
    members: &mut StructNames,
    name: &[u8],
    member: MemberName,
) -> Result<(), AllocError>
    ensures { OnOk result (members.new ≡ spec.one_member name.now member.access member.seen member.kind members.old) }
{
    members.names.push(alloc, name)?;
    members.members.push(member)?;
    Ok(())
}

/// One more field, which has the next number.
fn add_field(
    alloc: Global,
    members: &mut StructNames,
    name: &[u8],
    access: Access,
    at: FieldAt,
) -> Result<(), AllocError>
    ensures { OnOk result (members.new ≡ spec.one_field name.now access at members.old) }
{
    let Ok(number) = u32::try_from(members.fields.len()) else {
        return Err(AllocError);
    };
    members.names.push(alloc, name)?;
    members.members.push(MemberName {
        access,
        seen: 0,
        kind: MemberKind::Field(number, at),
    })?;
    members.fields.push(at)?;
    Ok(())
}

/// One more member of the struct of that number.
fn add_member_in(
    alloc: Global,
    naming: &mut Naming,
    owner: u32,
    name: &[u8],
    member: MemberName,
) -> Result<(), AllocError>
    ensures { OnOk result (naming_of naming.new ≡ spec.in_struct owner (spec.one_member name.now member.access member.seen member.kind) (naming_of naming.old)) }
{
    match naming.structs.get_mut(owner as usize) {
        Some(members) => add_member(alloc, members, name, member),
        None => Ok(()),
    }
}

/// One more field of the struct of that number.
fn add_field_in(
    alloc: Global,
    naming: &mut Naming,
    owner: u32,
    name: &[u8],
    access: Access,
    at: FieldAt,
) -> Result<(), AllocError>
    ensures { OnOk result (naming_of naming.new ≡ spec.in_struct owner (spec.one_field name.now access at) (naming_of naming.old)) }
{
    match naming.structs.get_mut(owner as usize) {
        Some(members) => add_field(alloc, members, name, access, at),
        None => Ok(()),
    }
}

/// One more name, of the module or of the struct around.
fn add_name(
    alloc: Global,
    naming: &mut Naming,
    declaration: &Declaration<'_>,
    name: &[u8],
    own: Own,
    kind: MemberKind,
) -> Result<(), AllocError>
    ensures { OnOk result (naming_of naming.new ≡ spec.with_name declaration.now.owner declaration.now.access name.now own.seen own.kind kind (naming_of naming.old)) }
{
    match declaration.owner {
        None => add_own(alloc, naming, name, own),
        Some(owner) => {
            let member = MemberName {
                access: declaration.access,
                seen: own.seen,
                kind,
            };
            add_member_in(alloc, naming, owner, name, member)
        }
    }
}

/// One more struct, without members yet.
fn add_struct(
    alloc: Global,
    naming: &mut Naming,
    path: &[u8],
    place: Place,
) -> Result<(), AllocError>
    ensures { OnOk result (naming_of naming.new ≡ spec.one_struct path.now place (naming_of naming.old)) }
{
    naming.paths.push(alloc, path)?;
    naming.structs.push(StructNames {
        around: place,
        names: NameList::new(alloc),
        members: Items::new(alloc),
        fields: Items::new(alloc),
    })?;
    Ok(())
}

/// The fields of one declaration.
fn add_fields(
    alloc: Global,
    naming: &mut Naming,
    owner: u32,
    access: Access,
    number: u32,
    names: &[DeclaredName],
) -> Result<(), AllocError>
    ensures { OnOk result (naming_of naming.new ≡ spec.fields_from owner access number 0 names.now (naming_of naming.old)) }
{
    let mut at: u32 = 0;
    for name in names {
        let field = FieldAt {
            declaration: number,
            at,
        };
        add_field_in(
            alloc,
            naming,
            owner,
            name.name.name.as_bytes(),
            access,
            field,
        )?;
        at = match at.checked_add(1) {
            Some(next) => next,
            None => return Err(AllocError),
        };
    }
    Ok(())
}

/// A struct and its name.
fn declare_struct(
    alloc: Global,
    naming: &mut Naming,
    declaration: &Declaration<'_>,
    number: u32,
    name: &Identifier,
    place: Place,
) -> Result<(), AllocError>
    ensures { OnOk result (naming_of naming.new ≡ spec.one_struct ((declaration_of declaration.now).prefix ++ name.now.name) place
        (spec.with_name declaration.now.owner declaration.now.access name.now.name 0 (o.Struct number) (m.Struct number) (naming_of naming.old))) }
{
    let own = Own {
        seen: 0,
        kind: OwnKind::Struct(number),
    };
    let kind = MemberKind::Struct(number);
    add_name(alloc, naming, declaration, name.name.as_bytes(), own, kind)?;
    let path = path_of(alloc, declaration.prefix, name.name.as_bytes())?;
    add_struct(alloc, naming, path.as_bytes(), place)
}

/// What a declaration declares.
fn declare(
    alloc: Global,
    naming: &mut Naming,
    declaration: &Declaration<'_>,
) -> Result<(), AllocError>
    ensures { OnOk result (naming_of naming.new ≡ spec.declare (naming_of naming.old) (declaration_of declaration.now)) }
{
    let number = declaration.number;
    match declaration.node {
        Node::Struct(at, name, place, _) => {
            declare_struct(alloc, naming, declaration, at, name, place)
        }
        Node::Alias(alias) => {
            let own = Own {
                seen: alias.place.end,
                kind: OwnKind::Alias(number),
            };
            let kind = MemberKind::Alias(number);
            add_name(
                alloc,
                naming,
                declaration,
                alias.name.name.as_bytes(),
                own,
                kind,
            )
        }
        Node::Function(_, function) => {
            let own = Own {
                seen: 0,
                kind: OwnKind::Function(number),
            };
            let kind = MemberKind::Method(number);
            add_name(
                alloc,
                naming,
                declaration,
                function.name.name.as_bytes(),
                own,
                kind,
            )
        }
        Node::Fields(field) => match declaration.owner {
            Some(owner) => {
                let names = field.names.as_slice();
                add_fields(alloc, naming, owner, declaration.access, number, names)
            }
            None => Ok(()),
        },
        Node::Constant(constant) => {
            let own = Own {
                seen: constant.place.end,
                kind: OwnKind::Constant(number),
            };
            add_own(alloc, naming, constant.name.name.as_bytes(), own)
        }
        Node::Global(_, global) => {
            let own = Own {
                seen: 0,
                kind: OwnKind::Global(number),
            };
            add_own(alloc, naming, global.name.name.as_bytes(), own)
        }
        Node::Unbuilt(_) => Ok(()),
    }
}

fn declare_all(
    alloc: Global,
    naming: &mut Naming,
    list: &[Declaration<'_>],
) -> Result<(), AllocError>
    ensures { OnOk result (naming_of naming.new ≡ fold spec.declare (naming_of naming.old) (declarations_of list.now)) }
{
    for declaration in list {
        declare(alloc, naming, declaration)?;
    }
    Ok(())
}

/// The names of a module of that name with these declarations.
pub fn declared_of(
    alloc: Global,
    name: &[u8],
    list: &[Declaration<'_>],
) -> Result<Declared, AllocError>
    ensures { IfOk result (λ declared. declared ≡ spec.declared_of name.now (declarations_of list.now)) }
{
    let mut naming = Naming {
        module: Name::from_slice(alloc, name)?,
        names: NameList::new(alloc),
        owns: Items::new(alloc),
        paths: NameList::new(alloc),
        structs: Vec::new(alloc),
    };
    declare_all(alloc, &mut naming, list)?;
    let Naming {
        module,
        names,
        owns,
        paths,
        structs,
    } = naming;
    Ok(Declared {
        module,
        names,
        owns,
        paths,
        structs: Items::from_vec(structs),
    })
}
