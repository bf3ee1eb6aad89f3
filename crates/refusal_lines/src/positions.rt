// Lines and columns.

ghost use Rattle.std.specs.Prelude.{◌≡◌, ◌+◌, ◌-◌, ◌≤◌, ℕ, length, take};
ghost use Rattle.refusal_lines.specs.Positions as spec;
ghost use Rattle.refusal_lines.specs.Positions.{IsLineStart, IsLineEnd};

/// Where a byte stands in a text, as editors count: both from 1.
#[derive(Clone, Copy)]
pub struct Position {
    /// One more than the line feeds before it.
    pub line: usize,
    /// One more than the bytes since the last line feed before it, or since the front.
    pub column: usize,
}

/// 1 of a line feed, 0 of any other byte.
fn feed(b: u8) -> usize
    ensures tells { result ≡ spec.feed b }
    ensures within { result ≤ 1 }
{
    if b == b'\n' { 1 } else { 0 }
}

/// How many line feeds there are.
#[tactic(auto, using(crate::proofs::Feeds::feeds_step, crate::proofs::Feeds::feeds_end))]
fn feeds(bytes: &[u8]) -> usize
    ensures count { result ≡ spec.feeds bytes.now }
    ensures within { result ≤ length bytes.now }
{
    let mut count: usize = 0;
    for (i, b) in bytes.iter().enumerate() {
        count += feed(*b);
    }
    count
}

/// Where the line of a place begins: behind the last line feed before it.
pub fn line_start(text: &[u8], place: usize) -> usize
    requires { place ≤ length text.now }
    ensures { IsLineStart text.now place result }
{
    let mut start: usize = 0;
    for i in 0..place {
        if text[i] == b'\n' {
            start = i + 1;
        }
    }
    start
}

/// Where the line of a place ends: at the first line feed from it on, or at the end of the text.
pub fn line_end(text: &[u8], place: usize) -> usize
    requires { place ≤ length text.now }
    ensures line { IsLineEnd text.now place result }
    ensures within { result ≤ length text.now }
{
    for i in place..text.len() {
        if text[i] == b'\n' {
            return i;
        }
    }
    text.len()
}

/// The line and the column of a place, which may be that behind the last byte.
pub fn locate(text: &[u8], place: usize) -> Position
    requires { place ≤ length text.now }
    ensures line { result.line ≡ spec.feeds (take place text.now) + 1 }
    ensures column { (start : ℕ) × IsLineStart text.now place start × (result.column ≡ place - start + 1) }
{
    let start = line_start(text, place);
    let feeds = feeds(&text[..place]);
    Position {
        line: feeds + 1,
        column: place - start + 1,
    }
}
