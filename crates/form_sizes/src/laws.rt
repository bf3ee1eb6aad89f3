// A law of shaders and the texts that they are read from, the contract of a function that does nothing.

ghost use Rattle.std.specs.Prelude.{◌≡◌, ◌≤◌, List, ℕ, Some, length};
ghost use Rattle.std.specs.List.{sum_by};
ghost use Rattle.slang_tree.specs.declared.file.File.{File};
ghost use Rattle.slang_tokens.specs.declared.tokens.Token.{Token};
ghost use Rattle.slang_tokens.specs.Cutting.{Tokens};
ghost use Rattle.slang_reading.specs.Lexed.{lexed_all};
ghost use Rattle.declaration_grammar.specs.Declarations.{FileAt};
ghost use Rattle.first_form.specs.declared.shader.Shader.{Shader};
ghost use Rattle.first_form.specs.Sizes.{statement_bytes};
ghost use Rattle.tree_form.specs.Forms.{form_of};

/// The statements of a shader of the first form take no more bytes than the text has, of whose tokens the tree is spelled
/// that is taken for the shader.
pub fn forms_are_short()
    ensures short { (text : List ℕ) (tokens : List Token) (file : File) (shader : Shader) → Tokens text tokens
        → FileAt (lexed_all text tokens) file → form_of file ≡ Some shader → sum_by statement_bytes shader.statements ≤ length text }
{}
