// What a line of `slangc` says, by its first word.

/// What the words of a line say.
#[derive(Clone, Copy)]
pub enum Kind {
    /// No word: a file or the output could not be written.
    Nothing,
    /// `IMAGE WORDS`.
    Put,
    /// `INVOCATIONS STEPS`.
    Ran,
    Refused,
    Link,
    Words,
    Read,
    Memory,
    Undefined,
    Budget,
    Absent,
    Form,
    Image,
    Input,
    /// It is no line of `slangc`.
    Unknown,
}

/// The word at an index, which is empty where there is none.
pub fn word(words: &[String], index: usize) -> &str {
    match words.get(index) {
        Some(word) => word.as_str(),
        None => "",
    }
}

/// The number that a word is in decimal, if it is one.
pub fn number(words: &[String], index: usize) -> Option<u64> {
    match word(words, index).parse::<u64>() {
        Ok(number) => Some(number),
        Err(_) => None,
    }
}

/// What a line of one word says.
fn one_word(first: &str) -> Kind {
    match first {
        "words" => Kind::Words,
        "read" => Kind::Read,
        "memory" => Kind::Memory,
        _ => Kind::Unknown,
    }
}

/// What a line of two words says. An image may have any name, so `absent 7` and `budget 7` could be of one that was put.
fn two_words(words: &[String]) -> Kind {
    match word(words, 0) {
        "budget" => Kind::Budget,
        "absent" => Kind::Absent,
        _ => match (number(words, 0), number(words, 1)) {
            (Some(_), Some(_)) => Kind::Ran,
            (None, Some(_)) => Kind::Put,
            _ => Kind::Unknown,
        },
    }
}

/// What a line of three words or more says.
fn more_words(first: &str) -> Kind {
    match first {
        "refused" => Kind::Refused,
        "link" => Kind::Link,
        "undefined" => Kind::Undefined,
        "form" => Kind::Form,
        "image" => Kind::Image,
        "input" => Kind::Input,
        _ => Kind::Unknown,
    }
}

/// What the words of a line say.
pub fn kind_of(words: &[String]) -> Kind {
    match words.len() {
        0 => Kind::Nothing,
        1 => one_word(word(words, 0)),
        2 => two_words(words),
        _ => more_words(word(words, 0)),
    }
}

/// The exit status with which `slangc` printed the line; 3 of what is no line of it.
pub fn status(words: &[String]) -> u8 {
    match kind_of(words) {
        Kind::Put | Kind::Ran => 0,
        Kind::Refused => 1,
        Kind::Link => 2,
        Kind::Words | Kind::Unknown => 3,
        Kind::Read => 4,
        Kind::Nothing => 5,
        Kind::Memory => 6,
        Kind::Undefined => 7,
        Kind::Budget => 8,
        Kind::Absent => 9,
        Kind::Form => 10,
        Kind::Image => 11,
        Kind::Input => 12,
    }
}

/// The module of whose text the line speaks: none where it speaks of no place in a text.
pub fn module_of(words: &[String]) -> Option<&str> {
    match kind_of(words) {
        Kind::Refused => Some(word(words, 1)),
        _ => None,
    }
}
