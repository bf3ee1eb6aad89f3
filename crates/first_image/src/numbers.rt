// The constants that the instructions of a shader's image name.

ghost use Rattle.std.specs.Prelude.{◌≡◌, [], IfOk, OnOk};
ghost use Rattle.std.specs.List.Sorted.{IsStrictlyIncreasing};
ghost use Rattle.first_image.specs.Image.{insert, item_constants, items_constants, sum_constants, statement_constants, statements_constants};

use first_form::{Item, Statement, Sum};
use std::alloc::{AllocError, Global};
use std::collections::BTreeSet;

/// The constants, ascending and each once.
pub fn constants_of(alloc: Global, statements: &[Statement]) -> Result<Vec<u32>, AllocError>
    ensures numbers { IfOk result (λ ks. ks.items ≡ statements_constants statements.now []) }
    ensures ascending { IfOk result (λ ks. IsStrictlyIncreasing ks.items) }
{
    let mut numbers = BTreeSet::new(alloc);
    add_statements(&mut numbers, statements)?;
    numbers.into_iter().collect(alloc)
}

// From the last to the first, as the definitions go.
fn add_statements(numbers: &mut BTreeSet<u32>, statements: &[Statement]) -> Result<(), AllocError>
    ensures { OnOk result (numbers.new.keys ≡ statements_constants statements.now numbers.old.keys) }
{
    let mut left = statements;
    while let Some((last, before)) = left.split_last() {
        add_statement(numbers, last)?;
        left = before;
    }
    Ok(())
}

fn add_statement(numbers: &mut BTreeSet<u32>, statement: &Statement) -> Result<(), AllocError>
    ensures { OnOk result (numbers.new.keys ≡ statement_constants statement.now numbers.old.keys) }
{
    add_sum(numbers, &statement.value)?;
    add_sum(numbers, &statement.index)?;
    add_number(numbers, 0)
}

fn add_sum(numbers: &mut BTreeSet<u32>, sum: &Sum) -> Result<(), AllocError>
    ensures { OnOk result (numbers.new.keys ≡ sum_constants sum.now numbers.old.keys) }
{
    add_items(numbers, sum.rest.as_slice())?;
    add_item(numbers, sum.first)
}

fn add_items(numbers: &mut BTreeSet<u32>, items: &[Item]) -> Result<(), AllocError>
    ensures { OnOk result (numbers.new.keys ≡ items_constants items.now numbers.old.keys) }
{
    let mut left = items;
    while let Some((last, before)) = left.split_last() {
        add_item(numbers, *last)?;
        left = before;
    }
    Ok(())
}

fn add_item(numbers: &mut BTreeSet<u32>, item: Item) -> Result<(), AllocError>
    ensures { OnOk result (numbers.new.keys ≡ item_constants item numbers.old.keys) }
{
    match item {
        Item::Number(number) => add_number(numbers, number),
        Item::X => add_number(numbers, 0),
    }
}

fn add_number(numbers: &mut BTreeSet<u32>, number: u32) -> Result<(), AllocError>
    ensures { OnOk result (numbers.new.keys ≡ insert number numbers.old.keys) }
{
    numbers.insert(number)?;
    Ok(())
}
