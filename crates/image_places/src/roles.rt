// What each operand of an instruction is.

ghost use Rattle.std.specs.Prelude.{◌≡◌, ◌≤◌, ◌+◌, length};
ghost use Rattle.spirv_words.specs.Machine.{result_of};
ghost use Rattle.image_places.specs.Roles.{first_roles, later_role, goes_on, text_words, text_end, role_of};

use spirv_words::Op;

/// What an operand is (SPIR-V 1.5, section 3.37).
#[derive(Clone, Copy)]
pub enum Role {
    /// A word that is no id, or a word of a string.
    Literal,
    /// The id that the instruction defines.
    Result,
    /// An id whose type, value or block the instruction uses: the type of its result too.
    Use,
    /// An id that is named where nothing is used yet: by a name, a decoration, the entry point or its mode.
    Mention,
}

/// The id that an instruction defines, if it defines one.
pub fn result_of(op: Op, operands: &[u32]) -> Option<u32>
    ensures { result ≡ result_of op operands.now }
{
    match op {
        Op::Name
        | Op::MemoryModel
        | Op::EntryPoint
        | Op::ExecutionMode
        | Op::Capability
        | Op::FunctionEnd
        | Op::Store
        | Op::Decorate
        | Op::MemberDecorate
        | Op::LoopMerge
        | Op::SelectionMerge
        | Op::Branch
        | Op::BranchConditional
        | Op::Return
        | Op::ReturnValue
        | Op::Unreachable => None,
        Op::TypeVoid
        | Op::TypeBool
        | Op::TypeInt
        | Op::TypeVector
        | Op::TypeArray
        | Op::TypeRuntimeArray
        | Op::TypeStruct
        | Op::TypePointer
        | Op::TypeFunction
        | Op::Label => operands.first().copied(),
        _ => operands.get(1).copied(),
    }
}

/// The roles of an opcode's first operands; those that follow have its later role.
fn first_roles(op: Op) -> &'static [Role]
    ensures { result.now ≡ first_roles op }
{
    match op {
        Op::Name | Op::ExecutionMode | Op::Decorate | Op::MemberDecorate => &[Role::Mention],
        Op::EntryPoint => &[Role::Literal, Role::Mention],
        Op::TypeVoid
        | Op::TypeBool
        | Op::TypeInt
        | Op::TypeArray
        | Op::TypeRuntimeArray
        | Op::TypeStruct
        | Op::TypeFunction
        | Op::Label => &[Role::Result],
        Op::TypeVector => &[Role::Result, Role::Use],
        Op::TypePointer => &[Role::Result, Role::Literal],
        Op::Function => &[Role::Use, Role::Result, Role::Literal],
        Op::CompositeExtract => &[Role::Use, Role::Result, Role::Use],
        Op::LoopMerge => &[Role::Use, Role::Use],
        Op::SelectionMerge => &[Role::Use],
        Op::MemoryModel
        | Op::Capability
        | Op::FunctionEnd
        | Op::Store
        | Op::Branch
        | Op::BranchConditional
        | Op::Return
        | Op::ReturnValue
        | Op::Unreachable => &[],
        _ => &[Role::Use, Role::Result],
    }
}

fn later_role(op: Op) -> Role
    ensures { result ≡ later_role op }
{
    match op {
        Op::EntryPoint => Role::Mention,
        Op::Name
        | Op::MemoryModel
        | Op::ExecutionMode
        | Op::Capability
        | Op::TypeVoid
        | Op::TypeBool
        | Op::TypeInt
        | Op::TypeVector
        | Op::ConstantTrue
        | Op::ConstantFalse
        | Op::Constant
        | Op::ConstantNull
        | Op::FunctionParameter
        | Op::FunctionEnd
        | Op::Variable
        | Op::Decorate
        | Op::MemberDecorate
        | Op::CompositeExtract
        | Op::LoopMerge
        | Op::SelectionMerge
        | Op::Label
        | Op::Return
        | Op::Unreachable => Role::Literal,
        _ => Role::Use,
    }
}

/// The number of operands of an EntryPoint up to the end of its name, behind which it lists ids; 0 for other opcodes.
pub fn text_end(op: Op, operands: &[u32]) -> usize
    ensures { result ≡ text_end op operands.now }
{
    match op {
        Op::EntryPoint => entry_text_end(operands),
        _ => 0,
    }
}

fn entry_text_end(operands: &[u32]) -> usize
    ensures { result ≡ text_end Op.EntryPoint operands.now }
{
    if operands.len() < 2 {
        return 2;
    }
    2 + text_words(&operands[2..])
}

fn text_words(words: &[u32]) -> usize
    ensures value { result ≡ text_words words.now }
    ensures within { result ≤ length words.now }
{
    for (i, word) in words.iter().enumerate() {
        if !goes_on(*word) {
            return i + 1;
        }
    }
    words.len()
}

fn goes_on(word: u32) -> bool
    ensures { result ≡ goes_on word }
{
    word % 256 != 0 && word / 256 % 256 != 0 && word / 65536 % 256 != 0 && word / 16_777_216 != 0
}

/// What an operand is, by its number from 0 on. `text_end` is that of the instruction.
pub fn role_of(op: Op, text_end: usize, operand: usize) -> Role
    ensures { result ≡ role_of op text_end operand }
{
    if 2 <= operand && operand < text_end {
        return Role::Literal;
    }
    match first_roles(op).get(operand) {
        Some(role) => *role,
        None => later_role(op),
    }
}
