// Declarations and files.

ghost use Rattle.std.specs.Prelude.{◌≡◌, map};
ghost use Rattle.early_forms.specs.Early as early;

use crate::expressions::in_expr;
use crate::statements::in_block;
use crate::types::{in_type, is_buffer};
use slang_tree::{
    Attribute, AttributeNode, Constraint, Field, File, Function, GenericParameter, Identifier,
    InnerMember, InnerMemberNode, InnerStruct, Item, ItemNode, Member, MemberNode, Parameter,
    Struct,
};

/// Parameters between `<` and `>`, heads, or constraints.
fn has_extra(generics: &[GenericParameter], heads: &[Identifier], wheres: &[Constraint]) -> bool
    ensures { result ≡ early.has_extra generics.now heads.now wheres.now }
{
    !generics.is_empty() || !heads.is_empty() || !wheres.is_empty()
}

fn in_parameters(list: &[Parameter]) -> bool
    ensures { result ≡ early.some_of (map early.in_parameter list.now) }
{
    for item in list {
        if in_type(&item.kind) {
            return true;
        }
    }
    false
}

fn in_function(function: &Function) -> bool
    ensures { result ≡ early.in_function function.now }
{
    !function.generics.as_slice().is_empty()
        || !function.wheres.as_slice().is_empty()
        || in_type(&function.result)
        || in_parameters(function.parameters.as_slice())
        || in_block(&function.body)
}

fn in_field(field: &Field) -> bool
    ensures { result ≡ early.in_field field.now }
{
    is_buffer(&field.kind) || in_type(&field.kind)
}

fn in_inner_member(member: &InnerMember) -> bool
    ensures { result ≡ early.in_inner_member member.now }
{
    match &member.node {
        InnerMemberNode::Alias(alias) => in_type(&alias.kind),
        InnerMemberNode::Function(function) => in_function(function),
        InnerMemberNode::Field(field) => in_field(field),
    }
}

fn in_inner_members(list: &[InnerMember]) -> bool
    ensures { result ≡ early.some_of (map early.in_inner_member list.now) }
{
    for item in list {
        if in_inner_member(item) {
            return true;
        }
    }
    false
}

fn in_inner_struct(inner: &InnerStruct) -> bool
    ensures { result ≡ early.in_inner_struct inner.now }
{
    has_extra(
        inner.generics.as_slice(),
        inner.heads.as_slice(),
        inner.wheres.as_slice(),
    ) || in_inner_members(inner.members.as_slice())
}

fn in_member(member: &Member) -> bool
    ensures { result ≡ early.in_member member.now }
{
    match &member.node {
        MemberNode::Struct(inner) => in_inner_struct(inner),
        MemberNode::Alias(alias) => in_type(&alias.kind),
        MemberNode::Function(function) => in_function(function),
        MemberNode::Field(field) => in_field(field),
    }
}

fn in_members(list: &[Member]) -> bool
    ensures { result ≡ early.some_of (map early.in_member list.now) }
{
    for item in list {
        if in_member(item) {
            return true;
        }
    }
    false
}

fn in_struct(outer: &Struct) -> bool
    ensures { result ≡ early.in_struct outer.now }
{
    has_extra(
        outer.generics.as_slice(),
        outer.heads.as_slice(),
        outer.wheres.as_slice(),
    ) || in_members(outer.members.as_slice())
}

fn in_item_node(node: &ItemNode) -> bool
    ensures { result ≡ early.in_item_node node.now }
{
    match node {
        ItemNode::Struct(outer) => in_struct(outer),
        ItemNode::Interface(_) | ItemNode::Extension(_) => true,
        ItemNode::Alias(alias) => in_type(&alias.kind),
        ItemNode::Function(function) => in_function(function),
        ItemNode::Constant(constant) => in_type(&constant.kind) || in_expr(&constant.value),
        ItemNode::Global(global) => in_type(&global.kind),
    }
}

fn is_binding(attribute: &Attribute) -> bool
    ensures { result ≡ early.is_binding attribute.now }
{
    match &attribute.node {
        AttributeNode::Binding(_, _) => true,
        AttributeNode::Named(_, _) => false,
    }
}

fn has_binding(list: &[Attribute]) -> bool
    ensures { result ≡ early.some_of (map early.is_binding list.now) }
{
    for item in list {
        if is_binding(item) {
            return true;
        }
    }
    false
}

fn in_item(item: &Item) -> bool
    ensures { result ≡ early.in_item item.now }
{
    has_binding(item.attributes.as_slice()) || in_item_node(&item.node)
}

fn in_items(list: &[Item]) -> bool
    ensures { result ≡ early.some_of (map early.in_item list.now) }
{
    for item in list {
        if in_item(item) {
            return true;
        }
    }
    false
}

/// Whether a form that is not built yet stands in the file: it is a question about the tree alone.
pub fn has_early_form(file: &File) -> bool
    ensures { result ≡ early.has_early_form file.now }
{
    !file.imports.as_slice().is_empty() || in_items(file.items.as_slice())
}
