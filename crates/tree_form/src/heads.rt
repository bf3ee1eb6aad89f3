// What stands before the statements.

ghost use Rattle.std.specs.Prelude.{◌≡◌};
ghost use Rattle.first_form.specs.Finding.{Finds};
ghost use Rattle.tree_form.specs.Forms as form;
ghost use Rattle.tree_form.specs.Views.{seen};

use crate::attributes::group_of;
use crate::kinds::{is_buffer, is_uint3, is_void};
use crate::words::{are_names, is_word};
use first_form::GroupSize;
use slang_names::{Access, Mode};
use slang_tree::{File, Function, Identifier, Item, ItemNode, Parameter, StatTree};

fn has_no_access(access: &Option<Access>) -> bool
    ensures { result ≡ form.has_no_access access.now }
{
    match access {
        None => true,
        Some(_) => false,
    }
}

fn buffer_in(node: &ItemNode) -> Option<&[u8]>
    ensures { Finds (λ x. x.now) result (form.buffer_in node.now) }
{
    match node {
        ItemNode::Global(global) => {
            if is_buffer(&global.kind) {
                Some(global.name.name.as_bytes())
            } else {
                None
            }
        }
        _ => None,
    }
}

fn buffer_of(item: &Item) -> Option<&[u8]>
    ensures { Finds (λ x. x.now) result (form.buffer_of item.now) }
{
    if item.attributes.len() == 0 && has_no_access(&item.access) {
        buffer_in(&item.node)
    } else {
        None
    }
}

fn is_in(mode: Mode) -> bool
    ensures { result ≡ form.is_in mode }
{
    match mode {
        Mode::In => true,
        _ => false,
    }
}

fn is_thread_id(semantic: &Option<Identifier>) -> bool
    ensures { result ≡ form.is_thread_id semantic.now }
{
    match semantic {
        Some(identifier) => is_word(identifier, b"SV_DispatchThreadID"),
        None => false,
    }
}

fn is_thread(parameter: &Parameter) -> bool
    ensures { result ≡ form.is_thread parameter.now }
{
    is_in(parameter.mode)
        && is_uint3(&parameter.kind)
        && parameter.name.lengths.len() == 0
        && is_thread_id(&parameter.semantic)
}

fn parameter_of(parameters: &[Parameter]) -> Option<&[u8]>
    ensures { Finds (λ x. x.now) result (form.parameter_of parameters.now) }
{
    match parameters {
        [] => None,
        [parameter, others @ ..] => {
            if is_thread(parameter) && others.len() == 0 {
                Some(parameter.name.name.name.as_bytes())
            } else {
                None
            }
        }
    }
}

fn is_plain(function: &Function) -> bool
    ensures { result ≡ form.is_plain function.now }
{
    !function.is_static
        && is_void(&function.result)
        && function.generics.len() == 0
        && function.wheres.len() == 0
}

fn function_in(node: &ItemNode) -> Option<&Function>
    ensures { Finds (λ x. x.now) result (form.function_in node.now) }
{
    match node {
        ItemNode::Function(function) => {
            if is_plain(function) {
                Some(function)
            } else {
                None
            }
        }
        _ => None,
    }
}

fn function_of(item: &Item) -> Option<&Function>
    ensures { Finds (λ x. x.now) result (form.function_of item.now) }
{
    if has_no_access(&item.access) {
        function_in(&item.node)
    } else {
        None
    }
}

/// An entry, with the trees of its statements.
#[derive(Clone, Copy)]
pub struct Entry<'a> {
    pub name: &'a [u8],
    pub parameter: &'a [u8],
    pub group: GroupSize,
    pub statements: &'a [StatTree],
}

#[tactic(auto, unfolding(crate::specs::Forms::entry_of))]
fn entry_of(item: &Item) -> Option<Entry<'_>>
    ensures { Finds (λ x. seen x) result (form.entry_of item.now) }
{
    let function = function_of(item)?;
    let group = group_of(item.attributes.as_slice())?;
    let parameter = parameter_of(function.parameters.as_slice())?;
    Some(Entry {
        name: function.name.name.as_bytes(),
        parameter,
        group,
        statements: function.body.statements.as_slice(),
    })
}

fn buffer_first(items: &[Item]) -> Option<(&[u8], &[Item])>
    ensures { Finds (λ x. (x.0.now, x.1.now)) result (form.buffer_first items.now) }
{
    match items {
        [] => None,
        [item, others @ ..] => {
            let name = buffer_of(item)?;
            Some((name, others))
        }
    }
}

fn only_entry(items: &[Item]) -> Option<Entry<'_>>
    ensures { Finds (λ x. seen x) result (form.only_entry items.now) }
{
    match items {
        [] => None,
        [item, others @ ..] => {
            if others.len() == 0 {
                entry_of(item)
            } else {
                None
            }
        }
    }
}

#[tactic(auto, unfolding(crate::specs::Forms::head_in))]
fn head_in(items: &[Item]) -> Option<(&[u8], Entry<'_>)>
    ensures { Finds (λ x. (x.0.now, seen x.1)) result (form.head_in items.now) }
{
    let (buffer, rest) = buffer_first(items)?;
    let entry = only_entry(rest)?;
    if are_names(buffer, entry.name, entry.parameter) {
        Some((buffer, entry))
    } else {
        None
    }
}

/// The name of the buffer, and the entry.
pub fn head_of(file: &File) -> Option<(&[u8], Entry<'_>)>
    ensures { Finds (λ x. (x.0.now, seen x.1)) result (form.head_of file.now) }
{
    match &file.module {
        Some(_) => None,
        None => {
            if file.imports.len() == 0 {
                head_in(file.items.as_slice())
            } else {
                None
            }
        }
    }
}
