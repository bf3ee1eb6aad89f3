// The decorations of an image.

ghost use Rattle.std.specs.Prelude.{◌≡◌, IfOk};
ghost use Rattle.image_declarations.specs.Decorations.{decoration_of, member_decoration_of, mark, member_mark, literal_of, stride_of, offset_of, Marks, MemberMarks};

use spirv_words::{Instruction, Op};
use std::alloc::{AllocError, Global};
use std::collections::HashMap;
use std::marker::Model;

/// A decoration with a literal: the place of its instruction, and the literal.
#[derive(Clone, Copy)]
pub struct Mark {
    pub place: usize,
    pub literal: u32,
}

/// The first decoration of each kind of each id, and the first Offset of each member of each struct. Contracts see the
/// instructions of the image.
#[derive(Drop)]
pub struct Decorations<'a> {
    code: &'a [Instruction],
    marks: HashMap<(u32, u32), Mark>,
    members: HashMap<(u32, usize), Mark>,
}

impl<'a> Model for Decorations<'a> {
    ghost use Rattle.std.specs.Prelude.{List};
    ghost use Rattle.spirv_words.specs.declared.images.Instruction.{Instruction};

    ghost Value = { List Instruction };

    ghost use Rattle.image_declarations.specs.Inside.{decorated_code, AreMarked};

    ghost view = { decorated_code };

    ghost invariant = { AreMarked };
}

fn literal_of(mark: Option<Mark>) -> u32
    ensures { result ≡ literal_of mark }
{
    match mark {
        Some(mark) => mark.literal,
        None => 0,
    }
}

/// What is decorated, how, and with which literal, if an instruction is a decoration with a literal.
fn decoration_of(instruction: &Instruction) -> Option<((u32, u32), u32)>
    ensures { result ≡ decoration_of instruction.now.op instruction.now.operands }
{
    match (instruction.op, instruction.operands.as_slice()) {
        (Op::Decorate, [target, kind, literal]) => Some(((*target, *kind), *literal)),
        _ => None,
    }
}

/// The same for the decoration of a member.
fn member_decoration_of(instruction: &Instruction) -> Option<((u32, usize), u32)>
    ensures { result ≡ member_decoration_of instruction.now.op instruction.now.operands }
{
    match (instruction.op, instruction.operands.as_slice()) {
        (Op::MemberDecorate, [target, member, _, literal]) => {
            Some(((*target, *member as usize), *literal))
        }
        _ => None,
    }
}

fn marks_of(alloc: Global, code: &[Instruction]) -> Result<HashMap<(u32, u32), Mark>, AllocError>
    ensures { IfOk result (λ marks. Marks marks code.now 0) }
{
    let mut marks = HashMap::new(alloc);
    let mut left = code;
    while let Some((last, before)) = left.split_last() {
        match decoration_of(last) {
            Some((key, literal)) => {
                let place = before.len();
                marks.insert(key, Mark { place, literal })?;
            }
            None => {}
        }
        left = before;
    }
    Ok(marks)
}

fn member_marks_of(
    alloc: Global,
    code: &[Instruction],
) -> Result<HashMap<(u32, usize), Mark>, AllocError>
    ensures { IfOk result (λ marks. MemberMarks marks code.now 0) }
{
    let mut marks = HashMap::new(alloc);
    let mut left = code;
    while let Some((last, before)) = left.split_last() {
        match member_decoration_of(last) {
            Some((key, literal)) => {
                let place = before.len();
                marks.insert(key, Mark { place, literal })?;
            }
            None => {}
        }
        left = before;
    }
    Ok(marks)
}

impl<'a> Decorations<'a> {
    /// The decorations of these instructions.
    pub fn new(alloc: Global, code: &'a [Instruction]) -> Result<Decorations<'a>, AllocError>
        ensures { IfOk result (λ d. d ≡ code.now) }
    {
        let marks = marks_of(alloc, code)?;
        let members = member_marks_of(alloc, code)?;
        Ok(Decorations {
            code,
            marks,
            members,
        })
    }

    /// The instructions.
    pub fn code(&self) -> &'a [Instruction]
        ensures { result.now ≡ self.now }
    {
        self.code
    }

    /// The first decoration of a kind of an id.
    pub fn mark(&self, id: u32, kind: u32) -> Option<Mark>
        ensures { result ≡ mark self.now 0 id kind }
    {
        self.marks.get(&(id, kind)).copied()
    }

    /// The first Offset of a member of a struct.
    pub fn member_mark(&self, id: u32, member: usize) -> Option<Mark>
        ensures { result ≡ member_mark self.now 0 id member }
    {
        self.members.get(&(id, member)).copied()
    }

    /// The bytes between the elements of an array: its ArrayStride, or 0.
    pub fn stride(&self, id: u32) -> u32
        ensures { result ≡ stride_of self.now id }
    {
        literal_of(self.mark(id, 6))
    }

    /// The Offset of a member of a struct, or 0.
    pub fn offset(&self, id: u32, member: usize) -> u32
        ensures { result ≡ offset_of self.now id member }
    {
        literal_of(self.member_mark(id, member))
    }
}
