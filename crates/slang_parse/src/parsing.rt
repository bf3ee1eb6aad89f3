// A whole text.

ghost use Rattle.std.specs.Prelude.{◌≡◌, ◌≤◌, List, length, Some, None, Err, IfOk};
ghost use Rattle.slang_names.specs.declared.places.Place.{Place};
ghost use Rattle.slang_names.specs.declared.codes.ModuleCode.{ModuleCode};
ghost use Rattle.slang_names.specs.declared.faults.ModuleFault.TheVariants as fault;
ghost use Rattle.slang_tree.specs.declared.file.File.{File};
ghost use Rattle.slang_tree.specs.Nesting.{first_too_deep};
ghost use Rattle.slang_tokens.specs.declared.tokens.Token.{Token};
ghost use Rattle.slang_tokens.specs.Cutting.{Tokens};
ghost use Rattle.slang_reading.specs.Lexed.{lexed_all};
ghost use Rattle.type_reading.specs.Limited.{language};
ghost use Rattle.declaration_grammar.specs.Declarations.{FileAt};
ghost use Rattle.expression_limits.specs.Breaks.{Break};
ghost use Rattle.declaration_limits.specs.Declarations.{file_break};
ghost use Rattle.file_reading.specs.Wholes.{Answers, Refuses};
ghost use Rattle.slang_parse.specs.Parsing.{Spells, IsRefused, text_limit};

use crate::laws::{a_text_is_parsed_or_refused, the_first_break_is_told};
use file_reading::read_file;
use nesting_laws::what_is_read_is_nested;
use slang_names::ModuleFault;
use slang_tree::{File, Tree};
use std::alloc::Global;

/// The tree of a file of which no node is too deep.
fn tree_of(file: File) -> Tree
    requires { first_too_deep file ≡ None }
    ensures { result ≡ file }
{
    match Tree::new(file) {
        Ok(tree) => tree,
        Err(_) => unreachable!(),
    }
}

/// The tree of the file that a text spells, exactly where it spells one within the limits of the language: at most 1,048,576
/// bytes, 64 nodes on a path, 256 items in a list and 64 bytes in a name. Any other text is refused once, with a code and a
/// place in bytes: 112 at the limit for a text that is too long, then the first lexeme that is no token, then the first token
/// with which no file goes on, or that passes a limit or a rule on attributes. The time is linear in the length of the text,
/// which no clause says.
pub fn parse(alloc: Global, text: &[u8]) -> Result<Tree, ModuleFault>
    // Ok comes exactly where the text spells a file within the limits, and has its tree.
    ensures spelled { IfOk result (λ file. Spells text.now file) }
    ensures parsed { (file : File) → Spells text.now file → Answers file result }

    // Where the tokens spell a file that breaks a limit or a rule on attributes, the first that it breaks is told.
    ensures limited { (tokens : List Token) (file : File) (spelled : FileAt (lexed_all text.now tokens) file) (b : Break)
        → length text.now ≤ text_limit → Tokens text.now tokens → file_break (lexed_all text.now tokens) language spelled 64 ≡ Some b → Refuses b.place b.code result }

    // A refusal has the code and the place of the text's refusal.
    ensures refused { (place : Place) (code : ModuleCode) → result ≡ Err (fault.Refused place code) → IsRefused text.now place code }
    ensures each_refusal { (place : Place) (code : ModuleCode) → IsRefused text.now place code → Refuses place code result }
{
    a_text_is_parsed_or_refused();
    the_first_break_is_told();
    what_is_read_is_nested();
    match read_file(alloc, text) {
        Ok(file) => Ok(tree_of(file)),
        Err(fault) => Err(fault),
    }
}
