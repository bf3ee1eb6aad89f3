// Laws on the words of images, each the contract of a function that does nothing.

ghost use Rattle.std.specs.Prelude.{◌+◌, ◌*◌, ◌≤◌, ℕ, List, length, sum_by};
ghost use Rattle.spirv_words.specs.Strings.{IsText};
ghost use Rattle.spirv_words.specs.Words.{image_words, CanBeSpelled};
ghost use Rattle.first_form.specs.declared.shader.Shader.{Shader};
ghost use Rattle.first_form.specs.Sizes.{statement_bytes};
ghost use Rattle.first_form.specs.Shaders.{IsShader};
ghost use Rattle.first_image.specs.Image.{image_of};

use spirv_words::{string_is_read, string_is_short};

/// Some words spell the image of a shader.
pub fn image_is_spelled()
    ensures { (home : List ℕ) (shader : Shader) → IsText home → length home ≤ 64 → IsShader shader → CanBeSpelled (image_of home shader) }
{
    string_is_read();
    string_is_short();
}

/// The words of a shader's image, of which at most seven stand for each two bytes that its statements take.
pub fn image_is_short()
    ensures { (home : List ℕ) (shader : Shader) → length home ≤ 64 → IsShader shader → 2 * length (image_words (image_of home shader)) ≤ 800 + 7 * sum_by statement_bytes shader.statements }
{
    string_is_short();
}
