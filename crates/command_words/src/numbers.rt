// Numbers in decimal digits.

ghost use Rattle.std.specs.Prelude.{◌≡◌, string_bytes};
ghost use Rattle.std.specs.List.{list_all};
ghost use Rattle.slang_names.specs.Letters as letters;
ghost use Rattle.command_words.specs.Words as spec;

/// Whether the word has digits alone, at least one, and no 0 before others.
fn is_number(word: &[u8]) -> bool
    ensures { result ≡ spec.is_number word.now }
{
    are_digits(word) && 1 <= word.len() && (word.len() <= 1 || word[0] != b'0')
}

fn is_digit(b: u8) -> bool
    ensures { result ≡ letters.is_digit b }
{
    b.is_ascii_digit()
}

fn are_digits(word: &[u8]) -> bool
    ensures { result ≡ list_all letters.is_digit word.now }
{
    word.iter().all(|b| is_digit(*b))
}

fn up_to(number: u64, limit: u64) -> Option<u64>
    ensures { result ≡ spec.up_to limit number }
{
    if number <= limit { Some(number) } else { None }
}

/// The number that the word is in decimal digits without leading zeros, if it is at most the limit.
pub fn number_within(word: &str, limit: u64) -> Option<u64>
    ensures { result ≡ spec.number_within limit word.now }
{
    if !is_number(word.as_bytes()) {
        return None;
    }
    match word.parse::<u64>() {
        Ok(number) => up_to(number, limit),
        Err(_) => None,
    }
}
