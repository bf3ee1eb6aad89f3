// Lines, read from the front of a text.

ghost use Rattle.std.specs.Prelude.{◌≡◌, ◌≤◌, ◌<◌, ◌+◌, ◌^◌, ◌++◌, ◌∷◌, ℕ, List, length, IfOk, IfErr};
ghost use Rattle.run_buffers.specs.Texts.{line, line_of};
ghost use Rattle.run_buffers.specs.declared.fields.Separator.TheVariants.{Space, BehindCount};
ghost use Rattle.run_buffers.specs.Parts.{Stops, field, IsWithin};
ghost use Rattle.run_buffers.specs.Lines as spec;
ghost use Rattle.run_buffers.specs.Lines.{ahead_of, MayHead, AreWords, MayFollow, IfStopped};

use crate::buffer::Buffer;
use crate::fields::{Field, Separator};
use crate::lines::{Header, Room, Stop};
use crate::steps::number;
use sqlite_items::Items;
use std::alloc::Global;

fn lowest_binding(room: Room, set: u32) -> u32
    ensures { result ≡ spec.lowest_binding (ahead_of room) set }
{
    if set == room.set { room.binding } else { 0 }
}

/// A number from the lowest on.
fn number_from(low: u32, bytes: &[u8]) -> Result<(u32, &[u8]), usize>
    ensures within { IfOk result (λ r. IsWithin low 4294967295 r.0) }
    ensures read { IfOk result (λ r. bytes.now ≡ field Space r.0 ++ r.1.now) }
    ensures stops { IfErr result (λ left. Stops (field Space) (IsWithin low 4294967295) bytes.now left) }
{
    number(
        Field {
            low,
            high: u32::MAX,
            separator: Separator::Space,
        },
        bytes,
    )
}

fn count(most: u32, bytes: &[u8]) -> Result<(u32, &[u8]), usize>
    ensures within { IfOk result (λ r. IsWithin 0 most r.0) }
    ensures read { IfOk result (λ r. bytes.now ≡ field BehindCount r.0 ++ r.1.now) }
    ensures stops { IfErr result (λ left. Stops (field BehindCount) (IsWithin 0 most) bytes.now left) }
{
    number(
        Field {
            low: 0,
            high: most,
            separator: Separator::BehindCount,
        },
        bytes,
    )
}

/// The numbers of a line before its words, and the bytes behind them.
fn header(room: Room, bytes: &[u8]) -> Result<(Header, &[u8]), usize>
    ensures may { IfOk result (λ r. MayHead (ahead_of room) r.0) }
    ensures read { IfOk result (λ r. bytes.now ≡ spec.header r.0 ++ r.1.now) }
    ensures stops { IfErr result (λ left. Stops spec.header (MayHead (ahead_of room)) bytes.now left) }
{
    let (set, rest) = number_from(room.set, bytes)?;
    let (binding, rest) = number_from(lowest_binding(room, set), rest)?;
    let (count, rest) = count(room.words, rest)?;
    Ok((
        Header {
            set,
            binding,
            count,
        },
        rest,
    ))
}

fn separator_before(more: u32) -> Separator
    ensures { result ≡ spec.separator_before more }
{
    if more == 0 {
        Separator::LineFeed
    } else {
        Separator::Space
    }
}

/// A word that so many words follow.
fn word(more: u32, bytes: &[u8]) -> Result<(u32, &[u8]), Stop>
    ensures narrow { IfOk result (λ r. r.0 < 2 ^ 32) }
    ensures read { IfOk result (λ r. bytes.now ≡ field (spec.separator_before more) r.0 ++ r.1.now) }
    ensures stops { IfStopped result (λ left. Stops line (AreWords (more + 1)) bytes.now left) }
    ensures goes_on { IfOk result (λ r. (left : ℕ) → Stops line (AreWords more) r.1.now left → Stops line (AreWords (more + 1)) bytes.now left) }
{
    let any = Field {
        low: 0,
        high: u32::MAX,
        separator: separator_before(more),
    };
    match number(any, bytes) {
        Ok(read) => Ok(read),
        Err(left) => Err(Stop::At(left)),
    }
}

/// So many words, and the bytes behind the line. No room is taken before a word is there.
fn words(alloc: Global, count: u32, bytes: &[u8]) -> Result<(Items<u32>, &[u8]), Stop>
    ensures words { IfOk result (λ r. AreWords count r.0) }
    ensures read { IfOk result (λ r. bytes.now ≡ line r.0 ++ r.1.now) }
    ensures stops { IfStopped result (λ left. Stops line (AreWords count) bytes.now left) }
{
    let mut words = Items::new(alloc);
    let mut rest = bytes;
    for i in 0..count {
        let (word, behind) = word(count - 1 - i, rest)?;
        words.push(word).map_err(Stop::Memory)?;
        rest = behind;
    }
    Ok((words, rest))
}

/// The buffer of the line at the front, and the bytes behind it.
pub fn line(alloc: Global, room: Room, bytes: &[u8]) -> Result<(Buffer, &[u8]), Stop>
    ensures may { IfOk result (λ r. MayFollow (ahead_of room) r.0) }
    ensures read { IfOk result (λ r. bytes.now ≡ line_of r.0 ++ r.1.now) }
    ensures stops { IfStopped result (λ left. Stops line_of (MayFollow (ahead_of room)) bytes.now left) }
{
    let (head, rest) = match header(room, bytes) {
        Ok(read) => read,
        Err(left) => return Err(Stop::At(left)),
    };
    let (words, rest) = words(alloc, head.count, rest)?;
    let buffer = Buffer {
        set: head.set,
        binding: head.binding,
        words,
    };
    Ok((buffer, rest))
}
