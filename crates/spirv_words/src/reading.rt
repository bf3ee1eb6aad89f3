// Words read as an image.

ghost use Rattle.std.specs.Prelude.{◌≡◌, ℕ, ◌+◌, ◌<◌, ◌≤◌, ◌^◌, ◌∷◌, ◌++◌, length, drop, Ok, Err, IfOk, IfSome};
ghost use Rattle.spirv_words.specs.declared.images.Image.{Image};
ghost use Rattle.spirv_words.specs.declared.faults.ImageCode.{ImageCode};
ghost use Rattle.spirv_words.specs.declared.faults.ImageFault.TheVariants.{Refused};
ghost use Rattle.spirv_words.specs.Words.{instruction_words, body_words, IsInstruction, AreInstructions, Spells};
ghost use Rattle.spirv_words.specs.Refusals.{IfRefused, UnlessMemory};
ghost use Rattle.spirv_words.specs.Unread.{wrong_header, BeginsWrong, BreaksOff, FirstUnread};

use crate::layouts::{misfit, unless};
use crate::{Image, ImageCode, ImageFault, Instruction, Op};
use sqlite_items::Items;
use std::alloc::Global;

/// The image that words spell: a header with the magic number, version 1.5, generator 0, a bound other than 0 and schema
/// 0, and then each instruction. Words that spell none are refused at the first word that is wrong: the number of words
/// where there are too few for a header (401), a word of the header (402), and then, one instruction after the other, its
/// opcode (403), an end that lies behind the last word (401), or its operands (404).
pub fn read(alloc: Global, words: &[u32]) -> Result<Image, ImageFault>
    ensures spelled { IfOk result (λ image. Spells words.now image) }
    ensures unread { IfRefused result (λ place code. FirstUnread words.now place code) }
    ensures if_spelled { (image : Image) → Spells words.now image → UnlessMemory result (result ≡ Ok image) }
    ensures if_unread { (place : ℕ) (code : ImageCode) → FirstUnread words.now place code
        → UnlessMemory result (result ≡ Err (Refused place code)) }
{
    image_from(alloc, words)
}

fn image_from(alloc: Global, words: &[u32]) -> Result<Image, ImageFault>
    ensures spelled { IfOk result (λ image. Spells words.now image) }
    ensures unread { IfRefused result (λ place code. FirstUnread words.now place code) }
{
    if words.len() < 5 {
        return Err(refused(words.len(), ImageCode::Short));
    }
    match wrong_header(words) {
        Some(place) => return Err(refused(place, ImageCode::Header)),
        None => {}
    }
    let instructions = body_of(alloc, words)?;
    Ok(Image {
        bound: words[3],
        instructions,
    })
}

fn refused(place: usize, code: ImageCode) -> ImageFault
    ensures { result ≡ Refused place code }
{
    ImageFault::Refused {
        place: place as u64,
        code,
    }
}

/// The instruction that a word begins, which stands at a place, and whose operands are the first of the words after it.
fn instruction_from(
    alloc: Global,
    place: usize,
    first: u32,
    after: &[u32],
) -> Result<Instruction, ImageFault>
    requires { place < 2 ^ 63 }
    ensures spelled { IfOk result (λ i. first ∷ after.now ≡ instruction_words i ++ drop (length i.operands) after.now) }
    ensures is_one { IfOk result IsInstruction }
    ensures within { IfOk result (λ i. length i.operands ≤ length after.now) }
    ensures refused { IfRefused result (λ at code. (offset : ℕ) × (at ≡ place + offset) × BeginsWrong first after.now offset code) }
{
    let Some(op) = Op::from_number(first % 65536) else {
        return Err(refused(place, ImageCode::Opcode));
    };
    let length = (first / 65536) as usize;
    if after.len() + 1 < length {
        return Err(refused(place, ImageCode::Short));
    }
    if length == 0 {
        return Err(refused(place, ImageCode::Operands));
    }
    let operands = &after[..length - 1];
    match misfit(op, operands) {
        Some(offset) => return Err(refused(place + offset, ImageCode::Operands)),
        None => {}
    }
    let operands = Items::from_slice(alloc, operands).map_err(ImageFault::Memory)?;
    Ok(Instruction { op, operands })
}

/// The instructions that the words after the header spell.
fn body_of(alloc: Global, words: &[u32]) -> Result<Items<Instruction>, ImageFault>
    requires { 5 ≤ length words.now }
    ensures spelled { IfOk result (λ is. drop 5 words.now ≡ body_words is) }
    ensures are_some { IfOk result AreInstructions }
    ensures refused { IfRefused result (λ place code. (behind : ℕ) × (place ≡ 5 + behind) × BreaksOff (drop 5 words.now) behind code) }
{
    let mut instructions = Items::new(alloc);
    let mut rest = &words[5..];
    while let Some((first, after)) = rest.split_first() {
        let place = words.len() - rest.len();
        let instruction = instruction_from(alloc, place, *first, after)?;
        rest = &after[instruction.operands.len()..];
        instructions.push(instruction).map_err(ImageFault::Memory)?;
    }
    Ok(instructions)
}

/// The first word of a header that images of this profile do not have there.
fn wrong_header(words: &[u32]) -> Option<usize>
    requires { 5 ≤ length words.now }
    ensures { result ≡ wrong_header words.now }
{
    let schema = unless(words[4] == 0, 4, None);
    let bound = unless(words[3] != 0, 3, schema);
    let generator = unless(words[2] == 0, 2, bound);
    let version = unless(words[1] == 0x0001_0500, 1, generator);
    unless(words[0] == 0x0723_0203, 0, version)
}
