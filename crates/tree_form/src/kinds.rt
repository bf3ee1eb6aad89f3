// The types that a shader of the first form names.

ghost use Rattle.std.specs.Prelude.{◌≡◌};
ghost use Rattle.tree_form.specs.Forms as form;

use slang_tree::{Builtin, Resource, TypeNode, TypeTree};

/// Whether it is `void`.
pub fn is_void(tree: &TypeTree) -> bool
    ensures { result ≡ form.is_void tree.now.node }
{
    match &tree.node {
        TypeNode::Builtin(Builtin::Void) => true,
        _ => false,
    }
}

fn is_uint(tree: &TypeTree) -> bool
    ensures { result ≡ form.is_uint tree.now.node }
{
    match &tree.node {
        TypeNode::Builtin(Builtin::Uint) => true,
        _ => false,
    }
}

/// Whether it is `uint3`.
pub fn is_uint3(tree: &TypeTree) -> bool
    ensures { result ≡ form.is_uint3 tree.now.node }
{
    match &tree.node {
        TypeNode::Builtin(Builtin::Uint3) => true,
        _ => false,
    }
}

/// Whether it is `RWStructuredBuffer<uint>`.
pub fn is_buffer(tree: &TypeTree) -> bool
    ensures { result ≡ form.is_buffer tree.now.node }
{
    match &tree.node {
        TypeNode::Resource(Resource::RwStructuredBuffer, inner) => is_uint(inner.get()),
        _ => false,
    }
}
