// The whole image of a shader.

ghost use Rattle.std.specs.Prelude.{◌≡◌, ◌+◌, ◌*◌, ◌^◌, ◌<◌, ◌≤◌, [], ◌∷◌, ◌++◌, length, IfOk, OnOk};
ghost use Rattle.std.specs.List.{AllByRecursion};
ghost use Rattle.spirv_words.specs.Strings.{string_words, IsText};
ghost use Rattle.spirv_words.specs.Words.{CanBeSpelled};
ghost use Rattle.first_image.specs.Templates.{ins};
ghost use Rattle.first_image.specs.Image.{qualified, buffer_types, more_types, variables, image_of};
ghost use Rattle.first_form.specs.Shaders.{IsShader, IsStatement};
ghost use Rattle.first_image.specs.Emitted.{array_at, pointers_at, buffer_at, entry_at, decorations, entry_start, image_with, preamble_at, declared_at};

use crate::body::emit_statements;
use crate::ids::Ids;
use crate::output::{Output, push};
use crate::sections::{
    FUNCTION, INPUT, STORAGE_BUFFER, UINT, UINT3, VOID, emit_beginning, emit_constants, emit_nulls,
    emit_plain_types, emit_pointer_types,
};
use crate::spelling::image_is_spelled;
use first_form::{GroupSize, Shader, Statement};
use slang_names::Name;
use spirv_words::{Image, Instruction, Op, string_words};
use sqlite_items::Items;
use std::alloc::{AllocError, Global};

/// The image of a shader that a module of this name declares: its words do what the shader means, and can be written.
pub fn emit(alloc: Global, home: &Name, shader: &Shader) -> Result<Image, AllocError>
    requires shader { IsShader shader.now }
    requires few { length shader.now.statements < 2 ^ 20 }
    requires home_is_text { IsText home.now }
    requires home_is_short { length home.now ≤ 64 }
    ensures image { IfOk result (λ image. image ≡ image_of home.now shader.now) }
    ensures spelled { IfOk result (λ image. CanBeSpelled image) }
{
    image_is_spelled();
    let ids = Ids::of(alloc, shader.statements.as_slice())?;
    let mut code = Items::new(alloc);
    emit_beginning(alloc, &mut code)?;
    emit_preamble(alloc, &mut code, &ids, home, shader)?;
    emit_declarations(alloc, &mut code, &ids)?;
    emit_entry(alloc, code, &ids, shader.statements.as_slice())
}

/// The entry point, with its name and the variables that it uses, and the size of its groups.
fn emit_entry_point(
    alloc: Global,
    code: &mut Items<Instruction>,
    ids: &Ids,
    name: &Name,
    group: GroupSize,
) -> Result<(), AllocError>
    ensures { OnOk result (code.new ≡ code.old ++ ins Op.EntryPoint (5 ∷ entry_at ids.now.numbers.items ∷ (string_words name.now ++ buffer_at ids.now.numbers.items ∷ (buffer_at ids.now.numbers.items + 1) ∷ [])) ∷ ins Op.ExecutionMode (entry_at ids.now.numbers.items ∷ 17 ∷ group.x ∷ group.y ∷ group.z ∷ []) ∷ []) }
{
    let mut operands = vec![in alloc; 5, ids.entry()]?;
    operands.extend_from_slice(string_words(alloc, name.as_bytes())?.as_slice())?;
    operands.extend_from_slice(&[ids.buffer(), ids.buffer() + 1])?;
    push(alloc, code, Op::EntryPoint, operands.as_slice())?;
    push(
        alloc,
        code,
        Op::ExecutionMode,
        &[ids.entry(), 17, group.x, group.y, group.z],
    )?;
    Ok(())
}

/// The name of what a module declares.
fn emit_name(
    alloc: Global,
    code: &mut Items<Instruction>,
    id: u32,
    home: &Name,
    name: &Name,
) -> Result<(), AllocError>
    ensures { OnOk result (code.new ≡ code.old ++ ins Op.Name (id ∷ string_words (qualified home.now name.now)) ∷ []) }
{
    let mut bytes = Vec::from_slice(alloc, home.as_bytes())?;
    bytes.push(b'.')?;
    bytes.extend_from_slice(name.as_bytes())?;
    let mut operands = vec![in alloc; id]?;
    operands.extend_from_slice(string_words(alloc, bytes.as_slice())?.as_slice())?;
    push(alloc, code, Op::Name, operands.as_slice())
}

/// The entry point, the names and the decorations.
fn emit_preamble(
    alloc: Global,
    code: &mut Items<Instruction>,
    ids: &Ids,
    home: &Name,
    shader: &Shader,
) -> Result<(), AllocError>
    ensures { OnOk result (code.new ≡ code.old ++ preamble_at ids.now.numbers.items home.now shader.now) }
{
    emit_entry_point(alloc, code, ids, &shader.entry, shader.group)?;
    emit_name(alloc, code, ids.buffer(), home, &shader.buffer)?;
    emit_name(alloc, code, ids.entry(), home, &shader.entry)?;
    emit_decorations(alloc, code, ids)?;
    Ok(())
}

/// How the buffer is laid out and bound, and that the second variable is the invocation's global id.
fn emit_decorations(
    alloc: Global,
    code: &mut Items<Instruction>,
    ids: &Ids,
) -> Result<(), AllocError>
    ensures { OnOk result (code.new ≡ code.old ++ decorations (array_at ids.now.numbers.items) (buffer_at ids.now.numbers.items)) }
{
    let array = ids.array();
    let buffer = ids.buffer();
    push(alloc, code, Op::Decorate, &[array, 6, 4])?;
    push(alloc, code, Op::Decorate, &[array + 1, 2])?;
    push(alloc, code, Op::MemberDecorate, &[array + 1, 0, 35, 0])?;
    push(alloc, code, Op::Decorate, &[buffer, 34, 0])?;
    push(alloc, code, Op::Decorate, &[buffer, 33, 0])?;
    push(alloc, code, Op::Decorate, &[buffer + 1, 11, 28])?;
    Ok(())
}

/// The buffer's types.
fn emit_buffer_types(
    alloc: Global,
    code: &mut Items<Instruction>,
    array: u32,
) -> Result<(), AllocError>
    requires { array + 1 < 2 ^ 32 }
    ensures { OnOk result (code.new ≡ code.old ++ buffer_types array) }
{
    push(alloc, code, Op::TypeRuntimeArray, &[array, UINT])?;
    push(alloc, code, Op::TypeStruct, &[array + 1, array])?;
    Ok(())
}

/// The pointer to the buffer, and the entry's type.
fn emit_more_types(
    alloc: Global,
    code: &mut Items<Instruction>,
    array: u32,
    pointers: u32,
) -> Result<(), AllocError>
    requires array { array + 1 < 2 ^ 32 }
    requires pointers { pointers + 16 < 2 ^ 32 }
    ensures { OnOk result (code.new ≡ code.old ++ more_types array pointers) }
{
    push(
        alloc,
        code,
        Op::TypePointer,
        &[pointers + 15, STORAGE_BUFFER, array + 1],
    )?;
    push(alloc, code, Op::TypeFunction, &[pointers + 16, VOID])?;
    Ok(())
}

/// The buffer's variable and that of the invocation's global id.
fn emit_variables(
    alloc: Global,
    code: &mut Items<Instruction>,
    pointers: u32,
    buffer: u32,
) -> Result<(), AllocError>
    requires pointers { pointers + 16 < 2 ^ 32 }
    requires buffer { buffer + 1 < 2 ^ 32 }
    ensures { OnOk result (code.new ≡ code.old ++ variables pointers buffer) }
{
    push(
        alloc,
        code,
        Op::Variable,
        &[pointers + 15, buffer, STORAGE_BUFFER],
    )?;
    push(
        alloc,
        code,
        Op::Variable,
        &[pointers + 13, buffer + 1, INPUT],
    )?;
    Ok(())
}

/// The types, constants and variables.
fn emit_declarations(
    alloc: Global,
    code: &mut Items<Instruction>,
    ids: &Ids,
) -> Result<(), AllocError>
    ensures { OnOk result (code.new ≡ code.old ++ declared_at ids.now.numbers.items) }
{
    emit_plain_types(alloc, code)?;
    emit_constants(alloc, code, ids.numbers.as_slice())?;
    emit_buffer_types(alloc, code, ids.array())?;
    emit_pointer_types(alloc, code, ids.pointers())?;
    emit_more_types(alloc, code, ids.array(), ids.pointers())?;
    emit_nulls(alloc, code, ids.nulls())?;
    emit_variables(alloc, code, ids.pointers(), ids.buffer())?;
    Ok(())
}

/// What stands before the statements: the entry, its label, and its parameter's variable with the global id in it.
fn emit_entry_start(
    alloc: Global,
    code: &mut Items<Instruction>,
    ids: &Ids,
) -> Result<(), AllocError>
    ensures { OnOk result (code.new ≡ code.old ++ entry_start (pointers_at ids.now.numbers.items) (buffer_at ids.now.numbers.items) (entry_at ids.now.numbers.items)) }
{
    let pointers = ids.pointers();
    let entry = ids.entry();
    push(alloc, code, Op::Function, &[VOID, entry, 0, pointers + 16])?;
    push(alloc, code, Op::Label, &[entry + 1])?;
    push(
        alloc,
        code,
        Op::Variable,
        &[pointers + 7, entry + 2, FUNCTION],
    )?;
    push(alloc, code, Op::Load, &[UINT3, entry + 3, ids.buffer() + 1])?;
    push(alloc, code, Op::Store, &[entry + 2, entry + 3])?;
    Ok(())
}

/// The entry, which ends the image.
fn emit_entry(
    alloc: Global,
    code: Items<Instruction>,
    ids: &Ids,
    statements: &[Statement],
) -> Result<Image, AllocError>
    requires short { AllByRecursion IsStatement statements.now }
    requires few { length statements.now < 2 ^ 20 }
    ensures { IfOk result (λ image. image ≡ image_with ids.now.numbers.items code statements.now) }
{
    let mut out = Output {
        instructions: code,
        next: ids.entry() + 4,
    };
    emit_entry_start(alloc, &mut out.instructions, ids)?;
    emit_statements(alloc, &mut out, ids, statements)?;
    push(alloc, &mut out.instructions, Op::Return, &[])?;
    push(alloc, &mut out.instructions, Op::FunctionEnd, &[])?;
    let Output { instructions, next } = out;
    Ok(Image {
        bound: next,
        instructions,
    })
}
