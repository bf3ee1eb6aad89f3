// From sums and statements to instructions.

ghost use Rattle.std.specs.Prelude.{◌≡◌, ◌+◌, ◌*◌, ◌^◌, ◌<◌, ◌≤◌, [], ◌∷◌, ◌++◌, length, IfOk, OnOk};
ghost use Rattle.std.specs.List.{AllByRecursion};
ghost use Rattle.first_image.specs.Templates.{pair_code, operator_code, component_code, item_code, sum_code, write_code, statement_code, statements_code};
ghost use Rattle.first_form.specs.Shaders.{IsStatement};
ghost use Rattle.first_image.specs.Emitted.{tables_at, emitted, emitted_piece, known};

use crate::ids::Ids;
use crate::output::{Output, fresh, push};
use first_form::{Item, Statement, Sum};
use spirv_words::Op;
use std::alloc::{AllocError, Global};

// The id of the type uint.
const UINT: u32 = 4;

/// The instructions of the statements, in order.
pub fn emit_statements(
    alloc: Global,
    out: &mut Output,
    ids: &Ids,
    statements: &[Statement],
) -> Result<(), AllocError>
    requires short { AllByRecursion IsStatement statements.now }
    requires room { out.old.next + 191 * length statements.now < 2 ^ 32 }
    ensures code { OnOk result (out.new ≡ emitted_piece out.old (statements_code (tables_at ids.now.numbers.items) statements.now out.old.next 0)) }
    ensures few { OnOk result (out.new.next ≤ out.old.next + 191 * length statements.now) }
{
    for statement in statements {
        emit_statement(alloc, out, ids, statement)?;
    }
    Ok(())
}

/// The instructions of a write to the buffer: the index, the value, a pointer to the word at the index, and the Store.
fn emit_statement(
    alloc: Global,
    out: &mut Output,
    ids: &Ids,
    statement: &Statement,
) -> Result<(), AllocError>
    requires short { IsStatement statement.now }
    requires room { out.old.next + 191 < 2 ^ 32 }
    ensures code { OnOk result (out.new ≡ emitted_piece out.old (statement_code (tables_at ids.now.numbers.items) statement.now out.old.next 0)) }
    ensures few { OnOk result (out.new.next ≤ out.old.next + 191) }
{
    let index = emit_sum(alloc, out, ids, &statement.index)?;
    let value = emit_sum(alloc, out, ids, &statement.value)?;
    let member = ids.constant(0);
    let cell = fresh(out);
    push(
        alloc,
        &mut out.instructions,
        Op::AccessChain,
        &[ids.cell_pointer(), cell, ids.buffer(), member, index],
    )?;
    push(alloc, &mut out.instructions, Op::Store, &[cell, value])?;
    Ok(())
}

/// The instructions of a sum, and the id of its value.
fn emit_sum(alloc: Global, out: &mut Output, ids: &Ids, sum: &Sum) -> Result<u32, AllocError>
    requires room { out.old.next + 3 * length sum.now.rest + 2 < 2 ^ 32 }
    ensures value { IfOk result (λ v. v ≡ (sum_code (tables_at ids.now.numbers.items) sum.now out.old.next 0).value) }
    ensures code { OnOk result (out.new ≡ emitted out.old (sum_code (tables_at ids.now.numbers.items) sum.now out.old.next 0)) }
    ensures few { OnOk result (out.new.next ≤ out.old.next + 3 * length sum.now.rest + 2) }
{
    let mut value = emit_item(alloc, out, ids, sum.first)?;
    for item in sum.rest.as_slice() {
        value = emit_plus(alloc, out, ids, value, *item)?;
    }
    Ok(value)
}

/// The instructions that add an item to a value, and the id of the sum.
fn emit_plus(
    alloc: Global,
    out: &mut Output,
    ids: &Ids,
    left: u32,
    item: Item,
) -> Result<u32, AllocError>
    requires room { out.old.next + 3 < 2 ^ 32 }
    ensures value { IfOk result (λ v. v ≡ (operator_code Op.IAdd 4 (pair_code (known left out.old.next 0) (item_code (tables_at ids.now.numbers.items) item))).value) }
    ensures code { OnOk result (out.new ≡ emitted out.old (operator_code Op.IAdd 4 (pair_code (known left out.old.next 0) (item_code (tables_at ids.now.numbers.items) item)))) }
    ensures few { OnOk result (out.new.next ≤ out.old.next + 3) }
{
    let right = emit_item(alloc, out, ids, item)?;
    let id = fresh(out);
    push(
        alloc,
        &mut out.instructions,
        Op::IAdd,
        &[UINT, id, left, right],
    )?;
    Ok(id)
}

/// The instructions of an item, and the id of its value.
fn emit_item(alloc: Global, out: &mut Output, ids: &Ids, item: Item) -> Result<u32, AllocError>
    requires room { out.old.next + 2 < 2 ^ 32 }
    ensures value { IfOk result (λ v. v ≡ (item_code (tables_at ids.now.numbers.items) item out.old.next 0).value) }
    ensures code { OnOk result (out.new ≡ emitted out.old (item_code (tables_at ids.now.numbers.items) item out.old.next 0)) }
    ensures few { OnOk result (out.new.next ≤ out.old.next + 2) }
{
    match item {
        Item::Number(number) => Ok(ids.constant(number)),
        Item::X => emit_component(alloc, out, ids, 0),
    }
}

/// The instructions that read a component of the entry's parameter, and the id of its value.
fn emit_component(
    alloc: Global,
    out: &mut Output,
    ids: &Ids,
    component: u32,
) -> Result<u32, AllocError>
    requires room { out.old.next + 2 < 2 ^ 32 }
    ensures value { IfOk result (λ v. v ≡ out.old.next + 1) }
    ensures code { OnOk result (out.new ≡ emitted out.old (component_code (tables_at ids.now.numbers.items) 0 component out.old.next 0)) }
{
    let number = ids.constant(component);
    let pointer = fresh(out);
    push(
        alloc,
        &mut out.instructions,
        Op::AccessChain,
        &[ids.word_pointer(), pointer, ids.variable(0), number],
    )?;
    let id = fresh(out);
    push(alloc, &mut out.instructions, Op::Load, &[UINT, id, pointer])?;
    Ok(id)
}
