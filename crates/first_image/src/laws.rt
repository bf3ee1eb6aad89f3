// The theorem on the image of a shader, as the contract of a function that does nothing.

ghost use Rattle.std.specs.Prelude.{ℕ, List};
ghost use Rattle.behavior.specs.Meanings.{Agree};
ghost use Rattle.spirv_words.specs.Runs.{words};
ghost use Rattle.first_form.specs.declared.shader.Shader.{Shader};
ghost use Rattle.first_image.specs.Source.{source};
ghost use Rattle.first_image.specs.Image.{image_of};

/// The words of a shader's image do what the shader does, in both directions, and are never stuck.
pub fn words_mean_source()
    ensures { (home : List ℕ) (shader : Shader) → Agree (source shader) (words (image_of home shader)) }
{}
