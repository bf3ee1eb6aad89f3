// Laws of the images of shaders, the contracts of functions that do nothing or only cite another.

ghost use Rattle.std.specs.Prelude.{◌≡◌, ◌^◌, ◌<◌, ◌≤◌, ℕ, List, [], ◌∷◌, length};
ghost use Rattle.spirv_words.specs.Strings.{IsText};
ghost use Rattle.spirv_words.specs.Words.{image_words, Spells};
ghost use Rattle.spirv_words.specs.Bytes.{bytes_of_words, words_of_bytes};
ghost use Rattle.first_form.specs.declared.shader.Shader.{Shader};
ghost use Rattle.first_form.specs.Shaders.{IsShader};
ghost use Rattle.first_image.specs.Image.{image_of};
ghost use Rattle.spirv_check.specs.Valid.{Valid};
ghost use Rattle.spirv_check.specs.Entry.{entry_name, group_size};

use first_image::image_is_spelled;

/// The image of a shader that a module of this name declares keeps all rules of images, and the words that are read from the
/// bytes of its words spell it.
pub fn the_image_is_valid()
    ensures valid { (home : List ℕ) (shader : Shader) → IsText home → length home ≤ 64 → IsShader shader → Valid (image_of home shader) }
    ensures it_is_read_back { (home : List ℕ) (shader : Shader) → IsText home → length home ≤ 64 → IsShader shader → length shader.statements < 2 ^ 20
        → Spells (words_of_bytes (bytes_of_words (image_words (image_of home shader)))) (image_of home shader) }
{
    image_is_spelled();
}

/// The image of a shader names the entry as the shader does, and has its three sizes of a group, x first and z last.
pub fn the_entry_is_told()
    ensures name { (home : List ℕ) (shader : Shader) → IsShader shader → entry_name (image_of home shader).instructions ≡ shader.entry }
    ensures group { (home : List ℕ) (shader : Shader) → IsShader shader
        → group_size (image_of home shader).instructions ≡ shader.group.x ∷ shader.group.y ∷ shader.group.z ∷ [] }
{}
