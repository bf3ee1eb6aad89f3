// Sums of numbers and of the parameter's first component.

ghost use Rattle.std.specs.Prelude.{◌≡◌, IfOk};
ghost use Rattle.first_form.specs.Finding.{Finds};
ghost use Rattle.tree_form.specs.Forms as form;

use crate::words::{is_named, is_word};
use first_form::{Item, Sum};
use slang_names::{Number, NumberKind};
use slang_tree::{BinaryOperator, ExprNode, ExprTree};
use sqlite_items::Items;
use std::alloc::{AllocError, Global};

fn literal_of(number: Number) -> Option<Item>
    ensures { result ≡ form.literal_of number }
{
    match number.kind {
        NumberKind::Uint => Some(Item::Number(number.value)),
        NumberKind::Int => None,
    }
}

fn item_of(parameter: &[u8], tree: &ExprTree) -> Option<Item>
    ensures { result ≡ form.item_of parameter.now tree.now.node }
{
    match &tree.node {
        ExprNode::Number(number) => literal_of(*number),
        ExprNode::Member(value, identifier, arguments) => {
            if is_named(parameter, value.get())
                && is_word(identifier, b"x")
                && arguments.len() == 0
            {
                Some(Item::X)
            } else {
                None
            }
        }
        _ => None,
    }
}

fn added(tree: &ExprTree) -> Option<(&ExprTree, &ExprTree)>
    ensures { Finds (λ x. (x.0.now, x.1.now)) result (form.added tree.now.node) }
{
    match &tree.node {
        ExprNode::Binary(BinaryOperator::Add, left, right) => Some((left.get(), right.get())),
        _ => None,
    }
}

/// The sum that the tree is, if it has at most so many items.
#[tactic(auto, unfolding(crate::specs::Forms::sum_of))]
pub fn sum_of(
    alloc: Global,
    parameter: &[u8],
    tree: &ExprTree,
    most: usize,
) -> Result<Option<Sum>, AllocError>
    ensures { IfOk result (λ found. found ≡ form.sum_of parameter.now most tree.now) }
{
    if most == 0 {
        return Ok(None);
    }
    let Some((left, right)) = added(tree) else {
        let Some(first) = item_of(parameter, tree) else {
            return Ok(None);
        };
        return Ok(Some(Sum {
            first,
            rest: Items::new(alloc),
        }));
    };
    let Some(mut sum) = sum_of(alloc, parameter, left, most - 1)? else {
        return Ok(None);
    };
    let Some(last) = item_of(parameter, right) else {
        return Ok(None);
    };
    sum.rest.push(last)?;
    Ok(Some(sum))
}
