// The names and words in a tree.

ghost use Rattle.std.specs.Prelude.{◌≡◌};
ghost use Rattle.std.specs.Str.{bytes_eq};
ghost use Rattle.tree_form.specs.Forms as form;

use first_form::is_free_name;
use slang_tree::{ExprNode, ExprTree, Identifier};

/// Whether the identifier is this word.
pub fn is_word(identifier: &Identifier, word: &[u8]) -> bool
    ensures { result ≡ bytes_eq identifier.now.name word.now }
{
    identifier.name.as_bytes() == word
}

/// Whether the expression is this name alone.
pub fn is_named(word: &[u8], tree: &ExprTree) -> bool
    ensures { result ≡ form.is_named word.now tree.now.node }
{
    match &tree.node {
        ExprNode::Name(identifier, arguments) => {
            is_word(identifier, word) && arguments.len() == 0
        }
        _ => false,
    }
}

/// Whether these are three different names that are no words of the language.
pub fn are_names(a: &[u8], b: &[u8], c: &[u8]) -> bool
    ensures { result ≡ form.are_names a.now b.now c.now }
{
    is_free_name(a) && is_free_name(b) && is_free_name(c) && a != b && a != c && b != c
}
