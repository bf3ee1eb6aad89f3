// Which operands an opcode has, and the first word that is wrong where an instruction has others.

ghost use Rattle.std.specs.Prelude.{◌≡◌, ◌≤◌, IsTrue, IfSome, cond};
ghost use Rattle.std.specs.Option.{option_map};
ghost use Rattle.spirv_words.specs.Layouts.{quarter, after_string, is_string, is_storage_class, is_bare_decoration};
ghost use Rattle.spirv_words.specs.Misfits.{ending_of, layout_of, meets, unless, wrong_size, wrong_decoration, wrong_literal, misfit};

use crate::Op;

/// The operands of an opcode, as far as their number and strings go.
#[derive(Clone, Copy)]
pub enum Layout {
    /// So many.
    Exactly(usize),
    /// So many, and any number more.
    AtLeast(usize),
    /// So many, and then a string to the end.
    EndsInString(usize),
    /// So many, then a string, and any number more.
    HasString(usize),
    /// An id and a decoration, and its literal if the decoration has one.
    OfDecoration,
}

/// How a word of a string goes on.
#[derive(Clone, Copy)]
pub enum Ending {
    /// Four bytes that are not 0.
    GoesOn,
    /// The string's last bytes, and then zeros.
    Ends,
    /// A byte that is not 0 behind one that is.
    Broken,
}

/// The word of an instruction that is wrong with these operands, counted from its first word: that one itself for the
/// number of operands and for a string, else the first literal that may not stand there.
pub fn misfit(op: Op, operands: &[u32]) -> Option<usize>
    ensures value { result ≡ misfit op operands.now }
    ensures near { IfSome result (λ word. word ≤ 5) }
{
    if !meets(layout_of(op), operands) {
        return Some(0);
    }
    wrong_literal(op, operands)
}

fn layout_of(op: Op) -> Layout
    ensures { result ≡ layout_of op }
{
    match op {
        Op::Name => Layout::EndsInString(1),
        Op::EntryPoint => Layout::HasString(2),
        Op::Decorate => Layout::OfDecoration,
        Op::FunctionEnd | Op::Return | Op::Unreachable => Layout::Exactly(0),
        Op::Capability | Op::TypeVoid | Op::TypeBool | Op::Label | Op::Branch | Op::ReturnValue => {
            Layout::Exactly(1)
        }
        Op::MemoryModel
        | Op::TypeRuntimeArray
        | Op::ConstantTrue
        | Op::ConstantFalse
        | Op::ConstantNull
        | Op::FunctionParameter
        | Op::Store
        | Op::SelectionMerge => Layout::Exactly(2),
        Op::TypeInt
        | Op::TypeVector
        | Op::TypeArray
        | Op::TypePointer
        | Op::Constant
        | Op::Variable
        | Op::Load
        | Op::Bitcast
        | Op::SNegate
        | Op::LogicalNot
        | Op::Not
        | Op::LoopMerge
        | Op::BranchConditional => Layout::Exactly(3),
        Op::ExecutionMode => Layout::Exactly(5),
        Op::TypeStruct => Layout::AtLeast(1),
        Op::TypeFunction | Op::CompositeConstruct => Layout::AtLeast(2),
        Op::FunctionCall | Op::AccessChain | Op::CompositeExtract => Layout::AtLeast(3),
        _ => Layout::Exactly(4),
    }
}

fn meets(layout: Layout, operands: &[u32]) -> bool
    ensures { result ≡ meets layout operands.now }
{
    match layout {
        Layout::Exactly(count) => operands.len() == count,
        Layout::AtLeast(count) => count <= operands.len(),
        Layout::EndsInString(count) => {
            count <= operands.len() && is_string(after_string(&operands[count..]))
        }
        Layout::HasString(count) => {
            count <= operands.len() && after_string(&operands[count..]).is_some()
        }
        Layout::OfDecoration => {
            2 <= operands.len() && operands.len() == decoration_length(operands[1])
        }
    }
}

fn is_string(rest: Option<&[u32]>) -> bool
    ensures { result ≡ is_string (option_map (λ rest. rest.now) rest.entry) }
{
    match rest {
        Some(words) => words.is_empty(),
        None => false,
    }
}

fn decoration_length(decoration: u32) -> usize
    ensures { result ≡ cond (is_bare_decoration decoration) 2 3 }
{
    if is_bare_decoration(decoration) { 2 } else { 3 }
}

/// Block and NonWritable, the decorations without a literal.
fn is_bare_decoration(decoration: u32) -> bool
    ensures { result ≡ is_bare_decoration decoration }
{
    decoration == 2 || decoration == 24
}

/// The words after the string that stands first, if one does (SPIR-V 1.5, section 2.2.1).
fn after_string(words: &[u32]) -> Option<&[u32]>
    ensures { option_map (λ rest. rest.now) result ≡ after_string words.now }
{
    for (i, word) in words.iter().enumerate() {
        match ending_of(*word) {
            Ending::GoesOn => {}
            Ending::Ends => return Some(&words[i + 1..]),
            Ending::Broken => return None,
        }
    }
    None
}

fn ending_of(word: u32) -> Ending
    ensures { result ≡ ending_of (quarter word) }
{
    if word % 256 == 0 {
        return if word == 0 {
            Ending::Ends
        } else {
            Ending::Broken
        };
    }
    if word / 256 % 256 == 0 {
        return if word < 256 {
            Ending::Ends
        } else {
            Ending::Broken
        };
    }
    if word / 65536 % 256 == 0 {
        return if word < 65536 {
            Ending::Ends
        } else {
            Ending::Broken
        };
    }
    if word < 16_777_216 {
        Ending::Ends
    } else {
        Ending::GoesOn
    }
}

fn wrong_literal(op: Op, operands: &[u32]) -> Option<usize>
    requires { IsTrue (meets (layout_of op) operands.now) }
    ensures value { result ≡ wrong_literal op operands.now }
    ensures near { IfSome result (λ word. word ≤ 5) }
{
    match op {
        Op::MemoryModel => unless(operands[0] == 0, 1, unless(operands[1] == 1, 2, None)),
        Op::EntryPoint => unless(operands[0] == 5, 1, None),
        Op::ExecutionMode => {
            let sizes = wrong_size(operands[2], operands[3], operands[4]);
            unless(operands[1] == 17, 2, sizes)
        }
        Op::Capability => unless(operands[0] == 1, 1, None),
        Op::TypeInt => unless(operands[1] == 32, 2, unless(operands[2] <= 1, 3, None)),
        Op::TypeVector => unless(2 <= operands[2] && operands[2] <= 4, 3, None),
        Op::TypePointer => unless(is_storage_class(operands[1]), 2, None),
        Op::Function => unless(operands[2] == 0, 3, None),
        Op::Variable => unless(is_storage_class(operands[2]), 3, None),
        Op::Decorate => wrong_decoration(operands[1], operands.get(2).copied().unwrap_or(0)),
        Op::MemberDecorate => unless(operands[2] == 35, 3, None),
        Op::LoopMerge => unless(operands[2] == 0, 3, None),
        Op::SelectionMerge => unless(operands[1] == 0, 2, None),
        _ => None,
    }
}

pub fn unless(right: bool, word: usize, later: Option<usize>) -> Option<usize>
    ensures { result ≡ unless right word later }
{
    if right { later } else { Some(word) }
}

fn is_storage_class(class: u32) -> bool
    ensures { result ≡ is_storage_class class }
{
    class == 1 || class == 2 || class == 7 || class == 12
}

fn wrong_size(x: u32, y: u32, z: u32) -> Option<usize>
    ensures value { result ≡ wrong_size x y z }
    ensures near { IfSome result (λ word. word ≤ 5) }
{
    if !(1 <= x && x <= 1024) {
        return Some(3);
    }
    if !(1 <= y && y <= 1024 && x * y <= 1024) {
        return Some(4);
    }
    unless(1 <= z && z <= 64 && x * y * z <= 1024, 5, None)
}

fn wrong_decoration(decoration: u32, word: u32) -> Option<usize>
    ensures value { result ≡ wrong_decoration decoration word }
    ensures near { IfSome result (λ word. word ≤ 5) }
{
    if is_bare_decoration(decoration) || decoration == 6 || decoration == 33 || decoration == 34 {
        return None;
    }
    unless(
        decoration == 11,
        2,
        unless(26 <= word && word <= 29, 3, None),
    )
}
