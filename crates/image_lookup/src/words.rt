// Where instructions begin.

ghost use Rattle.std.specs.Prelude.{◌≡◌, ◌≤◌, ◌<◌, ◌^◌, length};
ghost use Rattle.image_places.specs.Places.{word_of};

use image_places::places_grow;
use spirv_words::Instruction;

/// The word at which the instruction with a number begins, counted from the first of the header.
pub fn word_of(code: &[Instruction], number: usize) -> usize
    requires within { number ≤ length code.now }
    requires short { word_of code.now (length code.now) < 2 ^ 64 }
    ensures { result ≡ word_of code.now number }
{
    places_grow();
    let mut word = 5;
    for at in 0..number {
        word += code[at].operands.len() + 1;
    }
    word
}
