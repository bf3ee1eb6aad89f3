// The nodes of types.

ghost use Rattle.std.specs.Prelude.{◌≡◌, IfOk};
ghost use Rattle.slang_tree.specs.declared.types.TypeNode.TheVariants as n;
ghost use Rattle.slang_grammar.specs.Types.{typed};

use slang_names::Place;
use slang_tree::{Builtin, GenericArgument, Identifier, Resource, Term, TypeNode, TypeTree};
use sqlite_items::{Boxed, Items};
use std::alloc::{AllocError, Global};

/// A type that has a word of its own.
pub fn builtin(place: Place, builtin: Builtin) -> TypeTree
    ensures { result ≡ typed place (n.Builtin builtin) }
{
    TypeTree {
        place,
        node: TypeNode::Builtin(builtin),
    }
}

/// `This`.
pub fn this_type(place: Place) -> TypeTree
    ensures { result ≡ typed place n.ThisType }
{
    TypeTree {
        place,
        node: TypeNode::ThisType,
    }
}

/// A name with its arguments.
pub fn named(place: Place, id: Identifier, args: Items<GenericArgument>) -> TypeTree
    ensures { result ≡ typed place (n.Named id args) }
{
    TypeTree {
        place,
        node: TypeNode::Named(id, args),
    }
}

/// A resource of that type.
pub fn resource(
    alloc: Global,
    place: Place,
    resource: Resource,
    inner: TypeTree,
) -> Result<TypeTree, AllocError>
    ensures { IfOk result (λ x. x ≡ typed place (n.Resource resource inner)) }
{
    Ok(TypeTree {
        place,
        node: TypeNode::Resource(resource, Boxed::new(alloc, inner)?),
    })
}

/// A name behind a dot.
pub fn projection(
    alloc: Global,
    place: Place,
    from: TypeTree,
    id: Identifier,
) -> Result<TypeTree, AllocError>
    ensures { IfOk result (λ x. x ≡ typed place (n.Projection from id)) }
{
    Ok(TypeTree {
        place,
        node: TypeNode::Projection(Boxed::new(alloc, from)?, id),
    })
}

/// A type with a length in brackets.
pub fn array(
    alloc: Global,
    place: Place,
    element: TypeTree,
    count: Term,
) -> Result<TypeTree, AllocError>
    ensures { IfOk result (λ x. x ≡ typed place (n.Array element count)) }
{
    Ok(TypeTree {
        place,
        node: TypeNode::Array(Boxed::new(alloc, element)?, count),
    })
}
