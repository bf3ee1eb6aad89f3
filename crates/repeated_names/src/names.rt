// The names of declarations with their groups.

ghost use Rattle.std.specs.Prelude.{◌≡◌, ◌++◌, [], ◌∷◌, map, IfOk, OnOk};
ghost use Rattle.declared_names.specs.Views.{node_of, declarations_of};
ghost use Rattle.repeated_names.specs.Twice as spec;
ghost use Rattle.repeated_names.specs.Views.{group_of, all_named};

use crate::Group;
use crate::groups::group_around;
use crate::statements::put_stats;
use declared_names::{Declaration, Node};
use slang_tree::{DeclaredName, Function, Identifier, Parameter};
use std::alloc::{AllocError, Global};

/// A name where it is declared, with its group.
#[derive(Clone, Copy)]
pub struct Named<'a> {
    pub group: Group,
    pub name: &'a Identifier,
}

/// One more name.
pub fn put<'a>(
    list: &mut Vec<Named<'a>>,
    group: Group,
    name: &'a Identifier,
) -> Result<(), AllocError>
    ensures { OnOk result (all_named list.new.items ≡ all_named list.old.items ++ spec.named (group_of group) name.now ∷ []) }
{
    list.push(Named { group, name })?;
    Ok(())
}

fn put_fields<'a>(
    list: &mut Vec<Named<'a>>,
    group: Group,
    names: &'a [DeclaredName],
) -> Result<(), AllocError>
    ensures { OnOk result (all_named list.new.items ≡ all_named list.old.items ++ map (λ n. spec.named (group_of group) n.name) names.now) }
{
    for name in names {
        put(list, group, &name.name)?;
    }
    Ok(())
}

fn put_parameters<'a>(
    list: &mut Vec<Named<'a>>,
    group: Group,
    parameters: &'a [Parameter],
) -> Result<(), AllocError>
    ensures { OnOk result (all_named list.new.items ≡ all_named list.old.items ++ map (spec.parameter_name (group_of group)) parameters.now) }
{
    for parameter in parameters {
        put(list, group, &parameter.name.name)?;
    }
    Ok(())
}

/// The name of a function, its parameters, and the locals of its body.
#[tactic(auto, using(std::proofs::lemmas::List::append_assoc))]
fn put_function<'a>(
    list: &mut Vec<Named<'a>>,
    group: Group,
    function: &'a Function,
) -> Result<(), AllocError>
    ensures { OnOk result (all_named list.new.items ≡ all_named list.old.items ++ spec.function_names (group_of group) function.now) }
{
    put(list, group, &function.name)?;
    let own = Group::Byte(function.place.start);
    put_parameters(list, own, function.parameters.as_slice())?;
    let inner = Group::Byte(function.body.place.start);
    put_stats(list, inner, function.body.statements.as_slice())
}

fn put_node<'a>(list: &mut Vec<Named<'a>>, group: Group, node: Node<'a>) -> Result<(), AllocError>
    ensures { OnOk result (all_named list.new.items ≡ all_named list.old.items ++ spec.node_names (group_of group) (node_of node.entry)) }
{
    match node {
        Node::Struct(_, name, _, _) => put(list, group, name),
        Node::Alias(alias) => put(list, group, &alias.name),
        Node::Function(_, function) => put_function(list, group, function),
        Node::Fields(field) => put_fields(list, group, field.names.as_slice()),
        Node::Constant(constant) => put(list, group, &constant.name),
        Node::Global(_, global) => put(list, group, &global.name),
        Node::Unbuilt(_) => Ok(()),
    }
}

/// All names that these declarations declare, in text order.
#[tactic(auto, using(crate::proofs::Walked::declarations_more))]
pub fn all_names<'a>(
    alloc: Global,
    declarations: &[Declaration<'a>],
) -> Result<Vec<Named<'a>>, AllocError>
    ensures { IfOk result (λ list. all_named list.items ≡ spec.all_names (declarations_of declarations.now)) }
{
    let mut list = Vec::new(alloc);
    for declaration in declarations {
        put_node(&mut list, group_around(declaration.owner), declaration.node)?;
    }
    Ok(list)
}
