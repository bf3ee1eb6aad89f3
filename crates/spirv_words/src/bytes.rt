// Words as bytes.

ghost use Rattle.std.specs.Prelude.{◌≡◌, ◌≢◌, ℕ, ◌*◌, ◌%◌, ◌/◌, ◌<◌, ◌^◌, List, length, All, IfOk, IsOkAnd, OnOk};
ghost use Rattle.spirv_words.specs.declared.faults.ImageCode.TheVariants.{Short};
ghost use Rattle.spirv_words.specs.Bytes.{bytes_of_words, words_of_bytes};
ghost use Rattle.spirv_words.specs.Refusals.{IfRefused, UnlessMemory};

use crate::{ImageCode, ImageFault};
use byteorder::{ByteOrder, LittleEndian};
use std::alloc::{AllocError, Global};

/// The bytes of words: four for each, the lowest first.
pub fn to_bytes(alloc: Global, words: &[u32]) -> Result<Vec<u8>, AllocError>
    ensures { IfOk result (λ bytes. bytes.items ≡ bytes_of_words words.now) }
{
    let mut bytes = vec![in alloc; 0; 4 * words.len()]?;
    LittleEndian::write_u32_into(words, &mut bytes);
    Ok(bytes)
}

/// The words that bytes spell, four bytes for each, the lowest first. Bytes that are no whole words are refused as too
/// short, at the number of the whole words.
pub fn from_bytes(alloc: Global, bytes: &[u8]) -> Result<Vec<u32>, ImageFault>
    ensures words { IfOk result (λ words. words.items ≡ words_of_bytes bytes.now) }
    ensures whole { OnOk result (length bytes.now % 4 ≡ 0) }
    ensures undoes { (words : List ℕ) → All (λ w. w < 2 ^ 32) words → bytes.now ≡ bytes_of_words words
        → UnlessMemory result (IsOkAnd result (λ v. v.items ≡ words)) }
    ensures refused { IfRefused result (λ place code. (length bytes.now % 4 ≢ 0) × (place ≡ length bytes.now / 4) × (code ≡ Short)) }
{
    let count = bytes.len() / 4;
    if bytes.len() != 4 * count {
        return Err(ImageFault::Refused {
            place: count as u64,
            code: ImageCode::Short,
        });
    }
    let mut words = vec![in alloc; 0; count].map_err(ImageFault::Memory)?;
    read_into(bytes, &mut words);
    Ok(words)
}

fn read_into(bytes: &[u8], words: &mut [u32])
    requires { length bytes.now ≡ 4 * length words.old }
    ensures { words.new ≡ words_of_bytes bytes.now }
{
    LittleEndian::read_u32_into(bytes, words);
}
