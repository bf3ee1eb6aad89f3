// The declarations of a file in text order, members behind their struct.

ghost use Rattle.std.specs.Prelude.{◌≡◌, [], None, Some, fold, IfOk, OnOk};
ghost use Rattle.declared_names.specs.Declarations as spec;
ghost use Rattle.declared_names.specs.Declarations.{dotted};
ghost use Rattle.declared_names.specs.Views.{node_of, prefix_of, declarations_of};
ghost use Rattle.declared_names.specs.Inside.{listing_of};

use crate::open_files::{access_or, is_open};
use crate::{Declaration, Node, Prefix, is_plain};
use slang_names::Access;
use slang_tree::{
    File, Identifier, InnerMember, InnerMemberNode, InnerStruct, Item, ItemNode, Member,
    MemberNode, Struct,
};
use std::alloc::{AllocError, Global};

/// The declarations so far, and how many of them are structs.
#[derive(Drop)]
pub struct Listing<'a> {
    list: Vec<Declaration<'a>>,
    structs: u32,
}

/// One more declaration.
fn add<'a>(
    listing: &mut Listing<'a>,
    owner: Option<u32>,
    prefix: Prefix<'a>,
    access: Access,
    node: Node<'a>,
) -> Result<(), AllocError>
    ensures { OnOk result (listing_of listing.new ≡ spec.with_one_more owner (prefix_of prefix.entry) access (node_of node.entry) (listing_of listing.old)) }
{
    let Ok(number) = u32::try_from(listing.list.len()) else {
        return Err(AllocError);
    };
    listing.list.push(Declaration {
        number,
        owner,
        prefix,
        access,
        node,
    })?;
    Ok(())
}

/// One more declaration of the module.
fn add_own<'a>(listing: &mut Listing<'a>, access: Access, node: Node<'a>) -> Result<(), AllocError>
    ensures { OnOk result (listing_of listing.new ≡ spec.with_one_more None [] access (node_of node.entry) (listing_of listing.old)) }
{
    add(listing, None, Prefix::Nothing, access, node)
}

/// One more struct.
fn count_struct(listing: &mut Listing<'_>) -> Result<(), AllocError>
    ensures { OnOk result (listing_of listing.new ≡ spec.with_struct (listing_of listing.old)) }
{
    match listing.structs.checked_add(1) {
        Some(structs) => {
            listing.structs = structs;
            Ok(())
        }
        None => Err(AllocError),
    }
}

fn inner_node<'a>(member: &'a InnerMember) -> Node<'a>
    ensures { node_of result ≡ spec.inner_node member.now.attributes member.now.node }
{
    match &member.node {
        InnerMemberNode::Alias(alias) => Node::Alias(alias),
        InnerMemberNode::Function(function) => {
            Node::Function(member.attributes.as_slice(), function)
        }
        InnerMemberNode::Field(field) => Node::Fields(field),
    }
}

fn list_inner_member<'a>(
    listing: &mut Listing<'a>,
    bare: bool,
    owner: u32,
    prefix: Prefix<'a>,
    member: &'a InnerMember,
) -> Result<(), AllocError>
    ensures { OnOk result (listing_of listing.new ≡ spec.list_inner_member bare owner (prefix_of prefix.entry) (listing_of listing.old) member.now) }
{
    let access = access_or(bare, member.access);
    add(listing, Some(owner), prefix, access, inner_node(member))
}

fn list_inner_members<'a>(
    listing: &mut Listing<'a>,
    bare: bool,
    owner: u32,
    prefix: Prefix<'a>,
    members: &'a [InnerMember],
) -> Result<(), AllocError>
    ensures { OnOk result (listing_of listing.new ≡ fold (spec.list_inner_member bare owner (prefix_of prefix.entry)) (listing_of listing.old) members.now) }
{
    for member in members {
        list_inner_member(listing, bare, owner, prefix, member)?;
    }
    Ok(())
}

/// A struct in the struct of that number and name.
fn list_inner<'a>(
    listing: &mut Listing<'a>,
    bare: bool,
    owner: u32,
    outer: &'a Identifier,
    access: Option<Access>,
    inner: &'a InnerStruct,
) -> Result<(), AllocError>
    ensures { OnOk result (listing_of listing.new ≡ spec.list_inner bare owner (dotted [] outer.now.name) access inner.now (listing_of listing.old)) }
{
    let number = listing.structs;
    let plain = is_plain(
        inner.generics.as_slice(),
        inner.heads.as_slice(),
        inner.wheres.as_slice(),
    );
    let node = Node::Struct(number, &inner.name, inner.place, plain);
    add(
        listing,
        Some(owner),
        Prefix::Outer(outer),
        access_or(bare, access),
        node,
    )?;
    count_struct(listing)?;
    let prefix = Prefix::Inner(outer, &inner.name);
    list_inner_members(listing, bare, number, prefix, inner.members.as_slice())
}

fn list_member<'a>(
    listing: &mut Listing<'a>,
    bare: bool,
    owner: u32,
    outer: &'a Identifier,
    member: &'a Member,
) -> Result<(), AllocError>
    ensures { OnOk result (listing_of listing.new ≡ spec.list_member bare owner (dotted [] outer.now.name) (listing_of listing.old) member.now) }
{
    let prefix = Prefix::Outer(outer);
    let access = access_or(bare, member.access);
    match &member.node {
        MemberNode::Struct(inner) => {
            list_inner(listing, bare, owner, outer, member.access, inner)
        }
        MemberNode::Alias(alias) => {
            add(listing, Some(owner), prefix, access, Node::Alias(alias))
        }
        MemberNode::Function(function) => {
            let node = Node::Function(member.attributes.as_slice(), function);
            add(listing, Some(owner), prefix, access, node)
        }
        MemberNode::Field(field) => {
            add(listing, Some(owner), prefix, access, Node::Fields(field))
        }
    }
}

fn list_members<'a>(
    listing: &mut Listing<'a>,
    bare: bool,
    owner: u32,
    outer: &'a Identifier,
    members: &'a [Member],
) -> Result<(), AllocError>
    ensures { OnOk result (listing_of listing.new ≡ fold (spec.list_member bare owner (dotted [] outer.now.name)) (listing_of listing.old) members.now) }
{
    for member in members {
        list_member(listing, bare, owner, outer, member)?;
    }
    Ok(())
}

fn list_struct<'a>(
    listing: &mut Listing<'a>,
    bare: bool,
    access: Option<Access>,
    outer: &'a Struct,
) -> Result<(), AllocError>
    ensures { OnOk result (listing_of listing.new ≡ spec.list_struct bare access outer.now (listing_of listing.old)) }
{
    let number = listing.structs;
    let plain = is_plain(
        outer.generics.as_slice(),
        outer.heads.as_slice(),
        outer.wheres.as_slice(),
    );
    let node = Node::Struct(number, &outer.name, outer.place, plain);
    add(
        listing,
        None,
        Prefix::Nothing,
        access_or(bare, access),
        node,
    )?;
    count_struct(listing)?;
    list_members(listing, bare, number, &outer.name, outer.members.as_slice())
}

fn list_item<'a>(listing: &mut Listing<'a>, bare: bool, item: &'a Item) -> Result<(), AllocError>
    ensures { OnOk result (listing_of listing.new ≡ spec.list_item bare (listing_of listing.old) item.now) }
{
    let access = access_or(bare, item.access);
    let attributes = item.attributes.as_slice();
    match &item.node {
        ItemNode::Struct(outer) => list_struct(listing, bare, item.access, outer),
        ItemNode::Interface(interface) => add_own(listing, access, Node::Unbuilt(interface.place)),
        ItemNode::Extension(extension) => add_own(listing, access, Node::Unbuilt(extension.place)),
        ItemNode::Alias(alias) => add_own(listing, access, Node::Alias(alias)),
        ItemNode::Function(function) => {
            add_own(listing, access, Node::Function(attributes, function))
        }
        ItemNode::Constant(constant) => add_own(listing, access, Node::Constant(constant)),
        ItemNode::Global(global) => add_own(listing, access, Node::Global(attributes, global)),
    }
}

fn list_items<'a>(
    listing: &mut Listing<'a>,
    bare: bool,
    items: &'a [Item],
) -> Result<(), AllocError>
    ensures { OnOk result (listing_of listing.new ≡ fold (spec.list_item bare) (listing_of listing.old) items.now) }
{
    for item in items {
        list_item(listing, bare, item)?;
    }
    Ok(())
}

/// All declarations of a file.
pub fn declarations<'a>(alloc: Global, file: &'a File) -> Result<Vec<Declaration<'a>>, AllocError>
    ensures { IfOk result (λ list. declarations_of list.items ≡ spec.declarations file.now) }
{
    let mut listing = Listing {
        list: Vec::new(alloc),
        structs: 0,
    };
    list_items(&mut listing, is_open(file), file.items.as_slice())?;
    Ok(listing.list)
}
