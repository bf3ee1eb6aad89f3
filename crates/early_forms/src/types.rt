// Types.

ghost use Rattle.std.specs.Prelude.{◌≡◌};
ghost use Rattle.early_forms.specs.Early as early;

use slang_tree::{Builtin, Resource, TypeNode, TypeTree};

fn whole_word(word: Builtin) -> bool
    ensures { result ≡ early.whole_word word }
{
    match word {
        Builtin::Int | Builtin::Uint => true,
        _ => false,
    }
}

fn is_structured(resource: Resource) -> bool
    ensures { result ≡ early.is_structured resource }
{
    match resource {
        Resource::StructuredBuffer | Resource::RwStructuredBuffer => true,
        Resource::ConstantBuffer | Resource::ParameterBlock => false,
    }
}

/// `int` or `uint` alone.
fn is_whole(tree: &TypeTree) -> bool
    ensures { result ≡ early.is_whole tree.now }
{
    match &tree.node {
        TypeNode::Builtin(word) => whole_word(*word),
        _ => false,
    }
}

pub fn is_buffer(tree: &TypeTree) -> bool
    ensures { result ≡ early.is_buffer tree.now }
{
    match &tree.node {
        TypeNode::Resource(_, _) => true,
        _ => false,
    }
}

#[cycle(types_in)]
pub fn in_type(tree: &TypeTree) -> bool
    ensures { result ≡ early.in_type tree.now }
{
    in_type_node(&tree.node)
}

#[cycle(types_in)]
fn in_type_node(node: &TypeNode) -> bool
    ensures { result ≡ early.in_type_node node.now }
{
    match node {
        TypeNode::Builtin(_) | TypeNode::ThisType => false,
        TypeNode::Named(_, arguments) => !arguments.as_slice().is_empty(),
        TypeNode::Resource(resource, inner) => {
            !(is_structured(*resource) && is_whole(inner.get()))
        }
        TypeNode::Projection(inner, _) => in_type(inner.get()),
        TypeNode::Array(inner, _) => in_type(inner.get()),
    }
}
