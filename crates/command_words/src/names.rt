// Names, and files of the folder.

ghost use Rattle.std.specs.Prelude.{◌≡◌};
ghost use Rattle.std.specs.List.{list_all};
ghost use Rattle.command_words.specs.Words as spec;

use slang_names::{is_name, is_word_byte, limits};

/// Whether the word is a name of at most 64 bytes.
pub fn is_short_name(word: &[u8]) -> bool
    ensures { result ≡ spec.is_short_name word.now }
{
    is_name(word) && word.len() <= limits::NAME_BYTES
}

fn is_file_byte(b: u8) -> bool
    ensures { result ≡ spec.is_file_byte b }
{
    is_word_byte(b) || b == b'-' || b == b'.'
}

fn are_file_bytes(word: &[u8]) -> bool
    ensures { result ≡ list_all spec.is_file_byte word.now }
{
    word.iter().all(|b| is_file_byte(*b))
}

/// Whether the word is the folder itself, or the one around it.
fn is_folder(word: &[u8]) -> bool
    ensures { result ≡ spec.is_folder word.now }
{
    word == b".".as_slice() || word == b"..".as_slice()
}

/// Whether the word is a name of a file in the folder: 1 to 255 letters, digits, `_`, `-` and `.`, not `.` or `..`.
pub fn is_file_name(word: &[u8]) -> bool
    ensures { result ≡ spec.is_file_name word.now }
{
    are_file_bytes(word) && 1 <= word.len() && word.len() <= 255 && !is_folder(word)
}
