// A law of the definition, the contract of a function that does nothing.

ghost use Rattle.std.specs.Prelude.{◌≡◌, Some};
ghost use Rattle.slang_tree.specs.declared.file.File.{File};
ghost use Rattle.first_form.specs.declared.shader.Shader.{Shader};
ghost use Rattle.first_form.specs.Shaders.{IsShader};
ghost use Rattle.tree_form.specs.Forms.{form_of};

/// What a tree is taken for is a shader of the first form.
pub fn forms_are_shaders()
    ensures is_shader { (file : File) (shader : Shader) → form_of file ≡ Some shader → IsShader shader }
{}
