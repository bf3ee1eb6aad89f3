// The attributes of an entry.

ghost use Rattle.std.specs.Prelude.{◌≡◌};
ghost use Rattle.first_form.specs.Shaders as shaders;
ghost use Rattle.first_form.specs.Finding.{Finds};
ghost use Rattle.tree_form.specs.Forms as form;

use crate::words::is_word;
use first_form::GroupSize;
use slang_names::NumberKind;
use slang_names::limits::{GROUP_DEPTH, GROUP_SIZE};
use slang_tree::{Attribute, AttributeNode, Literal};

fn is_compute(literal: &Literal) -> bool
    ensures { result ≡ form.is_compute literal.now }
{
    match literal {
        Literal::String(_, text) => text.as_bytes() == b"compute".as_slice(),
        Literal::Number(_, _) => false,
    }
}

fn are_compute(literals: &[Literal]) -> bool
    ensures { result ≡ form.are_compute literals.now }
{
    match literals {
        [] => false,
        [literal, others @ ..] => is_compute(literal) && others.len() == 0,
    }
}

fn is_stage(attribute: &Attribute) -> bool
    ensures { result ≡ form.is_stage attribute.now.node }
{
    match &attribute.node {
        AttributeNode::Named(identifier, literals) => {
            is_word(identifier, b"shader") && are_compute(literals.as_slice())
        }
        AttributeNode::Binding(_, _) => false,
    }
}

/// The value of a number without suffix.
fn plain(literal: &Literal) -> Option<u32>
    ensures { result ≡ form.plain literal.now }
{
    match literal {
        Literal::Number(_, number) => match number.kind {
            NumberKind::Int => Some(number.value),
            NumberKind::Uint => None,
        },
        Literal::String(_, _) => None,
    }
}

fn plain_first(literals: &[Literal]) -> Option<(u32, &[Literal])>
    ensures { Finds (λ x. (x.0, x.1.now)) result (form.plain_first literals.now) }
{
    match literals {
        [] => None,
        [literal, others @ ..] => {
            let number = plain(literal)?;
            Some((number, others))
        }
    }
}

fn is_group(group: GroupSize) -> bool
    ensures { result ≡ shaders.is_group group }
{
    let GroupSize { x, y, z } = group;
    let along_each = 1 <= x
        && x <= GROUP_SIZE
        && 1 <= y
        && y <= GROUP_SIZE
        && 1 <= z
        && z <= GROUP_DEPTH;
    along_each && x * y * z <= GROUP_SIZE
}

#[tactic(auto, unfolding(crate::specs::Forms::group_in))]
fn group_in(literals: &[Literal]) -> Option<GroupSize>
    ensures { result ≡ form.group_in literals.now }
{
    let (x, rest) = plain_first(literals)?;
    let (y, rest) = plain_first(rest)?;
    let (z, rest) = plain_first(rest)?;
    let group = GroupSize { x, y, z };
    if rest.len() == 0 && is_group(group) {
        Some(group)
    } else {
        None
    }
}

fn threads_of(attribute: &Attribute) -> Option<GroupSize>
    ensures { result ≡ form.threads_of attribute.now.node }
{
    match &attribute.node {
        AttributeNode::Named(identifier, literals) => {
            if is_word(identifier, b"numthreads") {
                group_in(literals.as_slice())
            } else {
                None
            }
        }
        AttributeNode::Binding(_, _) => None,
    }
}

fn behind_stage(attributes: &[Attribute]) -> Option<&[Attribute]>
    ensures { Finds (λ x. x.now) result (form.behind_stage attributes.now) }
{
    match attributes {
        [] => None,
        [stage, others @ ..] => { if is_stage(stage) { Some(others) } else { None } }
    }
}

fn only_threads(attributes: &[Attribute]) -> Option<GroupSize>
    ensures { result ≡ form.only_threads attributes.now }
{
    match attributes {
        [] => None,
        [threads, others @ ..] => {
            if others.len() == 0 {
                threads_of(threads)
            } else {
                None
            }
        }
    }
}

/// The size of a group, where the attributes are the stage and that size.
#[tactic(auto, unfolding(crate::specs::Forms::group_of))]
pub fn group_of(attributes: &[Attribute]) -> Option<GroupSize>
    ensures { result ≡ form.group_of attributes.now }
{
    let others = behind_stage(attributes)?;
    only_threads(others)
}
