// A whole text, read line by line.

ghost use Rattle.std.specs.Prelude.{◌≡◌, ◌≤◌, ◌<◌, ◌++◌, ◌∷◌, ℕ, List, [], length, IfOk, OnOk};
ghost use Rattle.std.specs.Option.{option_map};
ghost use Rattle.run_buffers.specs.declared.buffer.Buffer.{Buffer};
ghost use Rattle.run_buffers.specs.Texts.{line_of, text_of, Fits};
ghost use Rattle.run_buffers.specs.Lines as spec;
ghost use Rattle.run_buffers.specs.Lines.{ahead_of, FitsIn, Breaks, IfStopped};

use crate::buffer::Buffer;
use crate::line_reading::line;
use crate::lines::{Room, Stop};
use slang_names::limits::BUFFER_WORDS;
use std::alloc::{AllocError, Global};

/// What may come behind a buffer.
fn room_behind(room: Room, buffer: &Buffer) -> Option<Room>
    requires { length buffer.now.words ≤ room.words }
    ensures { option_map ahead_of result ≡ spec.ahead_behind (ahead_of room) buffer.now }
{
    let words = room.words - buffer.words.len() as u32;
    if buffer.binding < u32::MAX {
        Some(Room {
            set: buffer.set,
            binding: buffer.binding + 1,
            words,
        })
    } else if buffer.set < u32::MAX {
        Some(Room {
            set: buffer.set + 1,
            binding: 0,
            words,
        })
    } else {
        None
    }
}

/// The buffer of the next line, what may come behind it, and the bytes that are left.
fn next(
    alloc: Global,
    room: Option<Room>,
    bytes: &[u8],
) -> Result<(Buffer, Option<Room>, &[u8]), Stop>
    requires { 0 < length bytes.now }
    ensures read { IfOk result (λ r. bytes.now ≡ line_of r.0 ++ r.2.now) }
    ensures fits { IfOk result (λ r. (bs : List Buffer) → FitsIn (option_map ahead_of r.1) bs → FitsIn (option_map ahead_of room) (r.0 ∷ bs)) }
    ensures breaks { IfStopped result (λ left. Breaks (FitsIn (option_map ahead_of room)) bytes.now left) }
    ensures goes_on { IfOk result (λ r. (left : ℕ) → Breaks (FitsIn (option_map ahead_of r.1)) r.2.now left → Breaks (FitsIn (option_map ahead_of room)) bytes.now left) }
{
    let Some(room) = room else {
        return Err(Stop::At(bytes.len()));
    };
    let (buffer, rest) = line(alloc, room, bytes)?;
    let behind = room_behind(room, &buffer);
    Ok((buffer, behind, rest))
}

fn push(buffers: &mut Vec<Buffer>, buffer: Buffer) -> Result<(), Stop>
    ensures pushed { OnOk result (buffers.new.items ≡ buffers.old.items ++ buffer ∷ []) }
    ensures never { IfStopped result (λ left. ⊥) }
{
    match buffers.push(buffer) {
        Ok(()) => Ok(()),
        Err(full) => Err(Stop::Memory(AllocError::from(full))),
    }
}

/// The buffers of a whole text, however long.
pub fn text(alloc: Global, bytes: &[u8]) -> Result<Vec<Buffer>, Stop>
    ensures text { IfOk result (λ bs. bytes.now ≡ text_of bs.items) }
    ensures fits { IfOk result (λ bs. Fits bs.items) }
    ensures breaks { IfStopped result (λ left. Breaks Fits bytes.now left) }
{
    let mut buffers = Vec::new(alloc);
    let mut room = Some(Room {
        set: 0,
        binding: 0,
        words: BUFFER_WORDS as u32,
    });
    let mut rest = bytes;
    while !rest.is_empty() {
        let (buffer, behind, bytes) = next(alloc, room, rest)?;
        push(&mut buffers, buffer)?;
        room = behind;
        rest = bytes;
    }
    Ok(buffers)
}
