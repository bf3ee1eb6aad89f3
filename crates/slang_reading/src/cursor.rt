// The tokens of a text, read one after the other.

ghost use Rattle.std.specs.Prelude.{◌≡◌, ◌<◌, ◌≤◌, ◌-◌, max, length, drop, IfSome};
ghost use Rattle.std.specs.Option.{option_map};
ghost use Rattle.slang_reading.specs.Lexed.{lexed_all, token_of, bytes_at};
ghost use Rattle.slang_reading.specs.Reading.{first, place_of};
ghost use Rattle.slang_reading.specs.Kinds.{sees, sees_word};
ghost use Rattle.slang_reading.specs.Cursor.{Cursor, looked, taken, moved};

use crate::kinds::{is_mark, is_word};
use slang_names::Place;
use slang_tokens::{Mark, Token, Word};
use std::marker::Model;

/// The tokens of a text with their bytes, the next of them, and how many have been looked at.
#[derive(Drop)]
pub struct Tokens<'a> {
    text: &'a [u8],
    tokens: &'a [Token],
    at: usize,
    seen: usize,
}

impl<'a> Model for Tokens<'a> {
    ghost use Rattle.slang_reading.specs.Cursor.{Cursor};

    ghost Value = { Cursor };

    ghost use Rattle.slang_reading.specs.Inside.{cursor_of, IsWithin};

    ghost view = { cursor_of };

    ghost invariant = { IsWithin };
}

/// The bytes of a text at a place; none where the place is outside of it.
fn cut(text: &[u8], place: Place) -> &[u8]
    ensures { result.now ≡ bytes_at text.now place }
{
    let start = (place.start as usize).min(text.len());
    let end = (place.end as usize).max(start).min(text.len());
    &text[start..end]
}

fn token_at(tokens: &[Token], at: usize) -> Option<Token>
    ensures { result ≡ first (drop at tokens.now) }
{
    tokens.get(at).copied()
}

impl<'a> Tokens<'a> {
    /// Before the first token.
    pub fn new(text: &'a [u8], tokens: &'a [Token]) -> Tokens<'a>
        ensures { result ≡ record { tokens = lexed_all text.now tokens.now; at = 0; seen = 0 } }
    {
        Tokens {
            text,
            tokens,
            at: 0,
            seen: 0,
        }
    }

    /// The next token, which is looked at and not taken.
    pub fn peek(&mut self) -> Option<Token>
        ensures token { result ≡ option_map token_of (first (drop self.old.at self.old.tokens)) }
        ensures after { self.new ≡ looked self.old }
    {
        let token = token_at(self.tokens, self.at);
        if self.seen < self.at + 1 {
            self.seen = self.at + 1;
        }
        token
    }

    /// The bytes of the next token.
    pub fn bytes(&self) -> &[u8]
        ensures { IfSome (first (drop self.now.at self.now.tokens)) (λ token. result.now ≡ token.bytes) }
    {
        match token_at(self.tokens, self.at) {
            Some(token) => cut(self.text, token.place),
            None => &self.text[..0],
        }
    }

    /// Where the next token lies; behind the last token the empty place at the start.
    pub fn place(&self) -> Place
        ensures { result ≡ place_of (first (drop self.now.at self.now.tokens)) }
    {
        match token_at(self.tokens, self.at) {
            Some(token) => token.place,
            None => Place { start: 0, end: 0 },
        }
    }

    /// Takes the next token.
    pub fn bump(&mut self)
        requires { self.old.at < length self.old.tokens }
        ensures { self.new ≡ taken self.old }
    {
        self.at += 1;
    }

    /// The index of the next token.
    pub fn at(&self) -> usize
        ensures is { result ≡ self.now.at }
        ensures within { result ≤ length self.now.tokens }
    {
        self.at
    }

    /// Back to an index that was there before.
    pub fn back_to(&mut self, at: usize)
        requires { at ≤ length self.old.tokens }
        ensures { self.new ≡ moved self.old at }
    {
        self.at = at;
    }

    /// So many tokens have been looked at.
    pub fn look_to(&mut self, seen: usize)
        ensures { self.new ≡ record self.old { seen = max self.old.seen seen } }
    {
        if self.seen < seen {
            self.seen = seen;
        }
    }

    /// The index of the last token that was looked at.
    pub fn last(&self) -> usize
        ensures { result ≡ self.now.seen - 1 }
    {
        self.seen.saturating_sub(1)
    }

    /// Whether the next token is this mark.
    pub fn sees(&mut self, mark: Mark) -> bool
        ensures is { result ≡ sees mark (first (drop self.old.at self.old.tokens)) }
        ensures after { self.new ≡ looked self.old }
    {
        match self.peek() {
            Some(token) => is_mark(mark, token.kind),
            None => false,
        }
    }

    /// Whether the next token is this word.
    pub fn sees_word(&mut self, word: Word) -> bool
        ensures is { result ≡ sees_word word (first (drop self.old.at self.old.tokens)) }
        ensures after { self.new ≡ looked self.old }
    {
        match self.peek() {
            Some(token) => is_word(word, token.kind),
            None => false,
        }
    }
}
