// Which node of a file is the first that stands too deep. No function here takes memory, and none calls itself deeper
// than the nesting limit.

ghost use Rattle.std.specs.Prelude.{◌≡◌, ◌≤◌, map};
ghost use Rattle.slang_tree.specs.Nesting as nesting;
ghost use Rattle.slang_tree.specs.Nesting.{first_of};

use crate::{
    Block, Change, ChangeNode, ExprNode, ExprTree, Function, GenericArgument, Initializer,
    InnerMember, InnerMemberNode, Item, ItemNode, ListTree, Local, LocalName, LoopStart, Member,
    MemberNode, Parameter, Requirement, RequirementNode, StatNode, StatTree, TypeNode, TypeTree,
};
use slang_names::Place;
use slang_names::limits::NESTING;

#[cycle(types_in)]
fn in_type(tree: &TypeTree, around: usize) -> Option<Place>
    ensures { result ≡ nesting.deep_type tree.now around }
{
    if around >= NESTING {
        return Some(tree.place);
    }
    in_type_node(&tree.node, around + 1)
}

#[cycle(types_in)]
fn in_type_node(node: &TypeNode, around: usize) -> Option<Place>
    ensures { result ≡ nesting.deep_type_node node.now around }
{
    match node {
        TypeNode::Builtin(_) | TypeNode::ThisType => None,
        TypeNode::Named(_, arguments) => in_arguments(arguments.as_slice(), around),
        TypeNode::Resource(_, inner) => in_type(inner.get(), around),
        TypeNode::Projection(inner, _) => in_type(inner.get(), around),
        TypeNode::Array(inner, _) => in_type(inner.get(), around),
    }
}

#[cycle(types_in)]
fn in_argument(argument: &GenericArgument, around: usize) -> Option<Place>
    ensures { result ≡ nesting.deep_argument argument.now around }
{
    match argument {
        GenericArgument::Term(tree) => in_type(tree, around),
        GenericArgument::Number(_, _) => None,
    }
}

#[cycle(types_in)]
fn in_arguments(list: &[GenericArgument], around: usize) -> Option<Place>
    ensures { result ≡ first_of (map nesting.deep_argument list.now) around }
{
    for item in list {
        if let Some(place) = in_argument(item, around) {
            return Some(place);
        }
    }
    None
}

#[cycle(expressions_in)]
fn in_expr(tree: &ExprTree, around: usize) -> Option<Place>
    ensures { result ≡ nesting.deep_expr tree.now around }
{
    if around >= NESTING {
        return Some(tree.place);
    }
    in_expr_node(&tree.node, around + 1)
}

#[cycle(expressions_in)]
fn in_expr_node(node: &ExprNode, around: usize) -> Option<Place>
    ensures { result ≡ nesting.deep_expr_node node.now around }
{
    match node {
        ExprNode::Number(_) => None,
        ExprNode::True | ExprNode::False | ExprNode::ThisValue | ExprNode::ThisType => None,
        ExprNode::Name(_, arguments) => in_arguments(arguments.as_slice(), around),
        ExprNode::Construct(_, values) => in_exprs(values.as_slice(), around),
        ExprNode::Paren(inner) => in_expr(inner.get(), around),
        ExprNode::Member(value, _, arguments) => match in_expr(value.get(), around) {
            Some(place) => Some(place),
            None => in_arguments(arguments.as_slice(), around),
        },
        ExprNode::Index(value, index) => match in_expr(value.get(), around) {
            Some(place) => Some(place),
            None => in_expr(index.get(), around),
        },
        ExprNode::Call(callee, values) => match in_expr(callee.get(), around) {
            Some(place) => Some(place),
            None => in_exprs(values.as_slice(), around),
        },
        ExprNode::Unary(_, inner) => in_expr(inner.get(), around),
        ExprNode::Cast(_, inner) => in_expr(inner.get(), around),
        ExprNode::Binary(_, left, right) => match in_expr(left.get(), around) {
            Some(place) => Some(place),
            None => in_expr(right.get(), around),
        },
        ExprNode::Choice(condition, yes, no) => match in_expr(condition.get(), around) {
            Some(place) => Some(place),
            None => match in_expr(yes.get(), around) {
                Some(place) => Some(place),
                None => in_expr(no.get(), around),
            },
        },
    }
}

#[cycle(expressions_in)]
fn in_exprs(list: &[ExprTree], around: usize) -> Option<Place>
    ensures { result ≡ first_of (map nesting.deep_expr list.now) around }
{
    for item in list {
        if let Some(place) = in_expr(item, around) {
            return Some(place);
        }
    }
    None
}

fn in_two(left: &ExprTree, right: &ExprTree, around: usize) -> Option<Place>
    ensures { result ≡ nesting.before (nesting.deep_expr left.now) (nesting.deep_expr right.now) around }
{
    match in_expr(left, around) {
        Some(place) => Some(place),
        None => in_expr(right, around),
    }
}

#[cycle(lists_in)]
fn in_list(list: &ListTree, around: usize) -> Option<Place>
    ensures { result ≡ nesting.deep_list list.now around }
{
    if around >= NESTING {
        return Some(list.place);
    }
    in_initializers(list.items.as_slice(), around + 1)
}

#[cycle(lists_in)]
fn in_initializer(value: &Initializer, around: usize) -> Option<Place>
    ensures { result ≡ nesting.deep_initializer value.now around }
{
    match value {
        Initializer::Expression(tree) => in_expr(tree, around),
        Initializer::List(list) => in_list(list, around),
    }
}

#[cycle(lists_in)]
fn in_initializers(list: &[Initializer], around: usize) -> Option<Place>
    ensures { result ≡ first_of (map nesting.deep_initializer list.now) around }
{
    for item in list {
        if let Some(place) = in_initializer(item, around) {
            return Some(place);
        }
    }
    None
}

fn in_local_name(name: &LocalName, around: usize) -> Option<Place>
    ensures { result ≡ nesting.deep_local_name name.now around }
{
    match &name.value {
        Some(value) => in_initializer(value, around),
        None => None,
    }
}

fn in_local_names(list: &[LocalName], around: usize) -> Option<Place>
    ensures { result ≡ first_of (map nesting.deep_local_name list.now) around }
{
    for item in list {
        if let Some(place) = in_local_name(item, around) {
            return Some(place);
        }
    }
    None
}

fn in_local(local: &Local, around: usize) -> Option<Place>
    ensures { result ≡ nesting.deep_local local.now around }
{
    match in_type(&local.kind, around) {
        Some(place) => Some(place),
        None => in_local_names(local.names.as_slice(), around),
    }
}

fn in_change(change: &Change, around: usize) -> Option<Place>
    ensures { result ≡ nesting.deep_change change.now around }
{
    match &change.node {
        ChangeNode::Assign(place, value) => in_two(place, value, around),
        ChangeNode::Update(_, place, value) => in_two(place, value, around),
        ChangeNode::StepBefore(_, place) => in_expr(place, around),
        ChangeNode::StepBehind(place, _) => in_expr(place, around),
        ChangeNode::Call(call) => in_expr(call, around),
    }
}

fn in_start(start: &LoopStart, around: usize) -> Option<Place>
    ensures { result ≡ nesting.deep_start start.now around }
{
    match start {
        LoopStart::Nothing => None,
        LoopStart::Local(local) => in_local(local, around),
        LoopStart::Change(change) => in_change(change, around),
    }
}

fn in_value(value: &Option<ExprTree>, around: usize) -> Option<Place>
    ensures { result ≡ nesting.optional nesting.deep_expr value.now around }
{
    match value {
        Some(value) => in_expr(value, around),
        None => None,
    }
}

fn in_step(step: &Option<Change>, around: usize) -> Option<Place>
    ensures { result ≡ nesting.optional nesting.deep_change step.now around }
{
    match step {
        Some(step) => in_change(step, around),
        None => None,
    }
}

/// In the head of a `for`.
fn in_head(
    start: &LoopStart,
    condition: &Option<ExprTree>,
    step: &Option<Change>,
    around: usize,
) -> Option<Place>
    ensures { result ≡ nesting.before (nesting.deep_start start.now)
        (nesting.before (nesting.optional nesting.deep_expr condition.now) (nesting.optional nesting.deep_change step.now)) around }
{
    match in_start(start, around) {
        Some(place) => Some(place),
        None => match in_value(condition, around) {
            Some(place) => Some(place),
            None => in_step(step, around),
        },
    }
}

#[cycle(statements_in)]
fn in_stat(tree: &StatTree, around: usize) -> Option<Place>
    ensures { result ≡ nesting.deep_stat tree.now around }
{
    if around >= NESTING {
        return Some(tree.place);
    }
    in_stat_node(&tree.node, around + 1)
}

#[cycle(statements_in)]
fn in_stat_node(node: &StatNode, around: usize) -> Option<Place>
    ensures { result ≡ nesting.deep_stat_node node.now around }
{
    match node {
        StatNode::Block(list) => in_stats(list.as_slice(), around),
        StatNode::Local(local) => in_local(local, around),
        StatNode::Change(change) => in_change(change, around),
        StatNode::Empty | StatNode::Break | StatNode::Continue => None,
        StatNode::If(condition, then) => match in_expr(condition, around) {
            Some(place) => Some(place),
            None => in_stat(then.get(), around),
        },
        StatNode::IfElse(condition, then, otherwise) => match in_expr(condition, around) {
            Some(place) => Some(place),
            None => match in_stat(then.get(), around) {
                Some(place) => Some(place),
                None => in_stat(otherwise.get(), around),
            },
        },
        StatNode::For(_, start, condition, step, body) => match in_head(
            start, condition, step, around,
        ) {
            Some(place) => Some(place),
            None => in_stat(body.get(), around),
        },
        StatNode::While(_, condition, body) => match in_expr(condition, around) {
            Some(place) => Some(place),
            None => in_stat(body.get(), around),
        },
        StatNode::Return(value) => in_value(value, around),
    }
}

#[cycle(statements_in)]
fn in_stats(list: &[StatTree], around: usize) -> Option<Place>
    ensures { result ≡ first_of (map nesting.deep_stat list.now) around }
{
    for item in list {
        if let Some(place) = in_stat(item, around) {
            return Some(place);
        }
    }
    None
}

fn in_block(block: &Block, around: usize) -> Option<Place>
    ensures { result ≡ nesting.deep_block block.now around }
{
    if around >= NESTING {
        return Some(block.place);
    }
    in_stats(block.statements.as_slice(), around + 1)
}

fn in_parameter(parameter: &Parameter, around: usize) -> Option<Place>
    ensures { result ≡ nesting.deep_parameter parameter.now around }
{
    in_type(&parameter.kind, around)
}

fn in_parameters(list: &[Parameter], around: usize) -> Option<Place>
    ensures { result ≡ first_of (map nesting.deep_parameter list.now) around }
{
    for item in list {
        if let Some(place) = in_parameter(item, around) {
            return Some(place);
        }
    }
    None
}

fn in_function(function: &Function, around: usize) -> Option<Place>
    ensures { result ≡ nesting.deep_function function.now around }
{
    match in_type(&function.result, around) {
        Some(place) => Some(place),
        None => match in_parameters(function.parameters.as_slice(), around) {
            Some(place) => Some(place),
            None => in_block(&function.body, around),
        },
    }
}

fn in_inner_member(member: &InnerMember, around: usize) -> Option<Place>
    ensures { result ≡ nesting.deep_inner_member member.now around }
{
    match &member.node {
        InnerMemberNode::Alias(alias) => in_type(&alias.kind, around),
        InnerMemberNode::Function(function) => in_function(function, around),
        InnerMemberNode::Field(field) => in_type(&field.kind, around),
    }
}

fn in_inner_members(list: &[InnerMember], around: usize) -> Option<Place>
    ensures { result ≡ first_of (map nesting.deep_inner_member list.now) around }
{
    for item in list {
        if let Some(place) = in_inner_member(item, around) {
            return Some(place);
        }
    }
    None
}

fn in_member(member: &Member, around: usize) -> Option<Place>
    ensures { result ≡ nesting.deep_member member.now around }
{
    match &member.node {
        MemberNode::Struct(inner) => in_inner_members(inner.members.as_slice(), around),
        MemberNode::Alias(alias) => in_type(&alias.kind, around),
        MemberNode::Function(function) => in_function(function, around),
        MemberNode::Field(field) => in_type(&field.kind, around),
    }
}

fn in_members(list: &[Member], around: usize) -> Option<Place>
    ensures { result ≡ first_of (map nesting.deep_member list.now) around }
{
    for item in list {
        if let Some(place) = in_member(item, around) {
            return Some(place);
        }
    }
    None
}

fn in_requirement(requirement: &Requirement, around: usize) -> Option<Place>
    ensures { result ≡ nesting.deep_requirement requirement.now around }
{
    match &requirement.node {
        RequirementNode::Associated(_, _) => None,
        RequirementNode::Function(_, _, result, _, parameters) => match in_type(result, around) {
            Some(place) => Some(place),
            None => in_parameters(parameters.as_slice(), around),
        },
    }
}

fn in_requirements(list: &[Requirement], around: usize) -> Option<Place>
    ensures { result ≡ first_of (map nesting.deep_requirement list.now) around }
{
    for item in list {
        if let Some(place) = in_requirement(item, around) {
            return Some(place);
        }
    }
    None
}

fn in_item(item: &Item, around: usize) -> Option<Place>
    ensures { result ≡ nesting.deep_item item.now around }
{
    match &item.node {
        ItemNode::Struct(inner) => in_members(inner.members.as_slice(), around),
        ItemNode::Interface(inner) => in_requirements(inner.requirements.as_slice(), around),
        ItemNode::Extension(inner) => in_inner_members(inner.members.as_slice(), around),
        ItemNode::Alias(alias) => in_type(&alias.kind, around),
        ItemNode::Function(function) => in_function(function, around),
        ItemNode::Constant(constant) => match in_type(&constant.kind, around) {
            Some(place) => Some(place),
            None => in_expr(&constant.value, around),
        },
        ItemNode::Global(global) => in_type(&global.kind, around),
    }
}

pub fn in_items(list: &[Item], around: usize) -> Option<Place>
    ensures { result ≡ first_of (map nesting.deep_item list.now) around }
{
    for item in list {
        if let Some(place) = in_item(item, around) {
            return Some(place);
        }
    }
    None
}
