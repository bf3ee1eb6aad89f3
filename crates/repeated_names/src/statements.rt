// The locals of statements with their groups.

ghost use Rattle.std.specs.Prelude.{◌≡◌, ◌++◌, map, OnOk};
ghost use Rattle.repeated_names.specs.Twice as spec;
ghost use Rattle.repeated_names.specs.Views.{group_of, all_named};

use crate::names::put;
use crate::{Group, Named};
use slang_names::Place;
use slang_tree::{Local, LocalName, LoopStart, StatNode, StatTree};
use std::alloc::AllocError;

fn put_local_names<'a>(
    list: &mut Vec<Named<'a>>,
    group: Group,
    names: &'a [LocalName],
) -> Result<(), AllocError>
    ensures { OnOk result (all_named list.new.items ≡ all_named list.old.items ++ map (λ n. spec.named (group_of group) n.name.name) names.now) }
{
    for name in names {
        put(list, group, &name.name.name)?;
    }
    Ok(())
}

fn put_local<'a>(
    list: &mut Vec<Named<'a>>,
    group: Group,
    local: &'a Local,
) -> Result<(), AllocError>
    ensures { OnOk result (all_named list.new.items ≡ all_named list.old.items ++ spec.local_names local.now (group_of group)) }
{
    put_local_names(list, group, local.names.as_slice())
}

fn put_start<'a>(
    list: &mut Vec<Named<'a>>,
    group: Group,
    start: &'a LoopStart,
) -> Result<(), AllocError>
    ensures { OnOk result (all_named list.new.items ≡ all_named list.old.items ++ spec.start_names start.now (group_of group)) }
{
    match start {
        LoopStart::Local(local) => put_local(list, group, local),
        LoopStart::Nothing | LoopStart::Change(_) => Ok(()),
    }
}

#[cycle(stats)]
fn put_stat<'a>(
    list: &mut Vec<Named<'a>>,
    group: Group,
    tree: &'a StatTree,
) -> Result<(), AllocError>
    ensures { OnOk result (all_named list.new.items ≡ all_named list.old.items ++ spec.stat_names tree.now (group_of group)) }
{
    put_stat_node(list, group, tree.place, &tree.node)
}

#[tactic(auto, using(std::proofs::lemmas::List::append_assoc))]
#[cycle(stats)]
fn put_stat_node<'a>(
    list: &mut Vec<Named<'a>>,
    group: Group,
    place: Place,
    node: &'a StatNode,
) -> Result<(), AllocError>
    ensures { OnOk result (all_named list.new.items ≡ all_named list.old.items ++ spec.stat_node_names node.now place (group_of group)) }
{
    match node {
        StatNode::Block(statements) => {
            put_stats(list, Group::Byte(place.start), statements.as_slice())
        }
        StatNode::Local(local) => put_local(list, group, local),
        StatNode::If(_, then) => put_stat(list, group, then.get()),
        StatNode::IfElse(_, then, otherwise) => {
            put_stat(list, group, then.get())?;
            put_stat(list, group, otherwise.get())
        }
        StatNode::For(_, start, _, _, body) => {
            let own = Group::Byte(place.start);
            put_start(list, own, start)?;
            put_stat(list, own, body.get())
        }
        StatNode::While(_, _, body) => put_stat(list, group, body.get()),
        _ => Ok(()),
    }
}

/// The locals of these statements, of which a block's own stand in that group.
#[tactic(auto, using(crate::proofs::Walked::stats_more, std::proofs::lemmas::List::append_assoc))]
#[cycle(stats)]
pub fn put_stats<'a>(
    list: &mut Vec<Named<'a>>,
    group: Group,
    statements: &'a [StatTree],
) -> Result<(), AllocError>
    ensures { OnOk result (all_named list.new.items ≡ all_named list.old.items ++ spec.in_group (map spec.stat_names statements.now) (group_of group)) }
{
    for statement in statements {
        put_stat(list, group, statement)?;
    }
    Ok(())
}
