// Expressions.

ghost use Rattle.std.specs.Prelude.{◌≡◌, map};
ghost use Rattle.early_forms.specs.Early as early;

use slang_tree::{ExprNode, ExprTree};

#[cycle(expressions_in)]
pub fn in_expr(tree: &ExprTree) -> bool
    ensures { result ≡ early.in_expr tree.now }
{
    in_expr_node(&tree.node)
}

#[cycle(expressions_in)]
fn in_expr_node(node: &ExprNode) -> bool
    ensures { result ≡ early.in_expr_node node.now }
{
    match node {
        ExprNode::Number(_) | ExprNode::True | ExprNode::False => false,
        ExprNode::ThisValue | ExprNode::ThisType => false,
        ExprNode::Name(_, arguments) => !arguments.as_slice().is_empty(),
        ExprNode::Construct(_, values) => in_exprs(values.as_slice()),
        ExprNode::Paren(inner) => in_expr(inner.get()),
        ExprNode::Member(value, _, arguments) => {
            in_expr(value.get()) || !arguments.as_slice().is_empty()
        }
        ExprNode::Index(value, index) => in_expr(value.get()) || in_expr(index.get()),
        ExprNode::Call(callee, values) => in_expr(callee.get()) || in_exprs(values.as_slice()),
        ExprNode::Unary(_, inner) => in_expr(inner.get()),
        ExprNode::Cast(_, inner) => in_expr(inner.get()),
        ExprNode::Binary(_, left, right) => in_expr(left.get()) || in_expr(right.get()),
        ExprNode::Choice(condition, yes, no) => {
            in_expr(condition.get()) || in_expr(yes.get()) || in_expr(no.get())
        }
    }
}

#[cycle(expressions_in)]
fn in_exprs(list: &[ExprTree]) -> bool
    ensures { result ≡ early.some_of (map early.in_expr list.now) }
{
    for item in list {
        if in_expr(item) {
            return true;
        }
    }
    false
}

pub fn in_value(value: &Option<ExprTree>) -> bool
    ensures { result ≡ early.optional early.in_expr value.now }
{
    match value {
        Some(value) => in_expr(value),
        None => false,
    }
}
