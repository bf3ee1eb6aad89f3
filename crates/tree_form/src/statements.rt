// The statements of an entry.

ghost use Rattle.std.specs.Prelude.{◌≡◌, IfOk};
ghost use Rattle.first_form.specs.Finding.{Finds};
ghost use Rattle.tree_form.specs.Forms as form;

use crate::sums::sum_of;
use crate::words::is_named;
use first_form::Statement;
use slang_names::limits::SUM_ITEMS;
use slang_tree::{Change, ChangeNode, ExprNode, ExprTree, StatNode, StatTree};
use sqlite_items::Items;
use std::alloc::{AllocError, Global};

fn assigned_by(change: &Change) -> Option<(&ExprTree, &ExprTree)>
    ensures { Finds (λ x. (x.0.now, x.1.now)) result (form.assigned_by change.now.node) }
{
    match &change.node {
        ChangeNode::Assign(place, value) => Some((place, value)),
        _ => None,
    }
}

fn assigned(tree: &StatTree) -> Option<(&ExprTree, &ExprTree)>
    ensures { Finds (λ x. (x.0.now, x.1.now)) result (form.assigned tree.now.node) }
{
    match &tree.node {
        StatNode::Change(change) => assigned_by(change),
        _ => None,
    }
}

fn index_of<'a>(buffer: &[u8], tree: &'a ExprTree) -> Option<&'a ExprTree>
    ensures { Finds (λ x. x.now) result (form.index_of buffer.now tree.now.node) }
{
    match &tree.node {
        ExprNode::Index(value, index) => {
            if is_named(buffer, value.get()) {
                Some(index.get())
            } else {
                None
            }
        }
        _ => None,
    }
}

#[tactic(auto, unfolding(crate::specs::Forms::statement_of))]
fn statement_of(
    alloc: Global,
    buffer: &[u8],
    parameter: &[u8],
    tree: &StatTree,
) -> Result<Option<Statement>, AllocError>
    ensures { IfOk result (λ found. found ≡ form.statement_of buffer.now parameter.now tree.now) }
{
    let Some((place, value)) = assigned(tree) else {
        return Ok(None);
    };
    let Some(index) = index_of(buffer, place) else {
        return Ok(None);
    };
    let Some(index) = sum_of(alloc, parameter, index, SUM_ITEMS)? else {
        return Ok(None);
    };
    let Some(value) = sum_of(alloc, parameter, value, SUM_ITEMS)? else {
        return Ok(None);
    };
    Ok(Some(Statement { index, value }))
}

/// The statements that the trees are, in order.
pub fn statements_of(
    alloc: Global,
    buffer: &[u8],
    parameter: &[u8],
    trees: &[StatTree],
) -> Result<Option<Items<Statement>>, AllocError>
    ensures { IfOk result (λ found. found ≡ form.statements_of buffer.now parameter.now trees.now) }
{
    let mut statements = Items::new(alloc);
    for tree in trees {
        let Some(statement) = statement_of(alloc, buffer, parameter, tree)? else {
            return Ok(None);
        };
        statements.push(statement)?;
    }
    Ok(Some(statements))
}
