// A line of a text, and the row of marks below it.

ghost use Rattle.std.specs.Prelude.{◌≡◌, ◌≤◌, ◌++◌, ◌+◌, ◌∷◌, [], IfOk, length};
ghost use Rattle.std.specs.List.{cons_option};
ghost use Rattle.refusal_lines.specs.declared.rows.Row.TheVariants.{Blank, Mark};
ghost use Rattle.refusal_lines.specs.Pictures as spec;
ghost use Rattle.refusal_lines.specs.Pictures.{IsPicture};

use crate::positions::{line_end, line_start};
use std::alloc::{AllocError, Global};

/// What a row has for the bytes of a line.
#[derive(Clone, Copy)]
pub enum Row {
    /// The bytes, with a blank for each control byte other than the tab.
    Text,
    /// A blank for each character, and a tab for a tab.
    Blank,
    /// A mark for each character.
    Mark,
}

/// Whether a byte is one of a character of several bytes (UTF-8), other than the first.
fn is_behind_first(b: u8) -> bool
    ensures { result ≡ spec.is_behind_first b }
{
    b >= 128 && b <= 191
}

fn is_shown(b: u8) -> bool
    ensures { result ≡ spec.is_shown b }
{
    b == b'\t' || (b >= b' ' && b != 127)
}

/// What a row has for a byte.
fn piece(row: Row, b: u8) -> Option<u8>
    ensures { result ≡ spec.piece row b }
{
    match row {
        Row::Text => Some(if is_shown(b) { b } else { b' ' }),
        Row::Blank => {
            if is_behind_first(b) {
                None
            } else {
                Some(if b == b'\t' { b'\t' } else { b' ' })
            }
        }
        Row::Mark => { if is_behind_first(b) { None } else { Some(b'^') } }
    }
}

/// Puts a byte behind others, if there is one.
fn put_piece(out: &mut Vec<u8>, piece: Option<u8>) -> Result<(), AllocError>
    ensures { IfOk result (λ _. out.new.items ≡ out.old.items ++ cons_option piece []) }
{
    if let Some(b) = piece {
        out.push(b)?;
    }
    Ok(())
}

/// A row for bytes.
#[tactic(auto, using(crate::proofs::Pieces::one_more))]
fn pieces(alloc: Global, row: Row, bytes: &[u8]) -> Result<Vec<u8>, AllocError>
    ensures { IfOk result (λ r. r.items ≡ spec.pieces row bytes.now) }
{
    let mut out = Vec::new(alloc);
    for (i, b) in bytes.iter().enumerate() {
        put_piece(&mut out, piece(row, *b))?;
    }
    Ok(out)
}

/// The marks below bytes: one at least.
fn marks(alloc: Global, bytes: &[u8]) -> Result<Vec<u8>, AllocError>
    ensures { IfOk result (λ r. r.items ≡ spec.marks (spec.pieces Mark bytes.now)) }
{
    let row = pieces(alloc, Row::Mark, bytes)?;
    if row.len() >= 1 {
        return Ok(row);
    }
    Vec::from_slice(alloc, b"^")
}

/// Where what is shown of a line begins.
fn shown_from(start: usize, place: usize) -> usize
    requires { start ≤ place }
    ensures tells { result ≡ spec.shown_from start place }
    ensures within { result ≤ place }
    ensures near { place ≤ result + 60 }
{
    if place - start <= 60 {
        start
    } else {
        place - 60
    }
}

/// Where what is shown of a line ends.
fn shown_to(from: usize, place: usize, end: usize) -> usize
    requires within { from ≤ place }
    requires near { place ≤ from + 60 }
    requires ends { place ≤ end }
    ensures tells { result ≡ spec.shown_to from end }
    ensures behind { place ≤ result }
    ensures line { result ≤ end }
{
    if end - from <= 160 { end } else { from + 160 }
}

/// Where the marks end.
fn marked_to(place: usize, end: usize, to: usize) -> usize
    requires { place ≤ to }
    ensures tells { result ≡ spec.marked_to place end to }
    ensures behind { place ≤ result }
    ensures within { result ≤ to }
{
    if end <= place {
        place
    } else if end <= to {
        end
    } else {
        to
    }
}

/// The row of marks, with the blanks before them and a line feed.
fn mark_row(alloc: Global, before: &[u8], marked: &[u8]) -> Result<Vec<u8>, AllocError>
    ensures { IfOk result (λ r. r.items ≡ spec.pieces Blank before.now ++ (spec.marks (spec.pieces Mark marked.now) ++ (10 ∷ []))) }
{
    let mut row = pieces(alloc, Row::Blank, before)?;
    let marks = marks(alloc, marked)?;
    row.extend_from_slice(marks.as_slice())?;
    row.push(b'\n')?;
    Ok(row)
}

/// A line, and the marks below it.
fn rows(alloc: Global, line: &[u8], before: &[u8], marked: &[u8]) -> Result<Vec<u8>, AllocError>
    ensures { IfOk result (λ r. r.items ≡ spec.rows line.now before.now marked.now) }
{
    let mut rows = pieces(alloc, Row::Text, line)?;
    let below = mark_row(alloc, before, marked)?;
    rows.push(b'\n')?;
    rows.extend_from_slice(below.as_slice())?;
    Ok(rows)
}

/// The line of a place, and below it marks from the place up to before the end, or up to the end of what is shown: of a
/// long line at most 60 bytes before the place and 160 in all. There is one mark at least, so an empty place behind the
/// last byte has one too.
pub fn picture(alloc: Global, text: &[u8], place: usize, end: usize) -> Result<Vec<u8>, AllocError>
    requires { place ≤ length text.now }
    ensures { IfOk result (λ r. IsPicture text.now place end r.items) }
{
    let from = shown_from(line_start(text, place), place);
    let to = shown_to(from, place, line_end(text, place));
    let last = marked_to(place, end, to);
    rows(
        alloc,
        &text[from..to],
        &text[from..place],
        &text[place..last],
    )
}
