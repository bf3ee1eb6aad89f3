// Values and places.

ghost use Rattle.std.specs.Prelude.{◌≡◌, [], ◌∷◌, IfOk};
ghost use Rattle.slang_core.specs.declared.bodies.Expr.TheVariants.{Swizzle, Element};
ghost use Rattle.slang_core.specs.declared.bodies.PlaceTerm.TheVariants.{ElementOf};
ghost use Rattle.type_terms.specs.Forms as forms;

use crate::{Barred, Fixed, Form, Numeric, Typing, is_uint, number_type};
use slang_core::{Call, Expr, PlaceTerm, TypeTerm};
use sqlite_items::{Boxed, Items};
use std::alloc::{AllocError, Global};

/// A value with its type.
pub fn value(of: TypeTerm, core: Expr) -> Typing
    ensures { result ≡ forms.value of core }
{
    Typing {
        of,
        form: Form::Value(core),
        literal: None,
    }
}

/// A place with its type.
pub fn place(of: TypeTerm, core: PlaceTerm, bar: Barred) -> Typing
    ensures { result ≡ forms.place of core bar }
{
    Typing {
        of,
        form: Form::Place(core, bar),
        literal: None,
    }
}

/// A form with its type.
pub fn typed(of: TypeTerm, form: Form) -> Typing
    ensures { result ≡ forms.typed of form }
{
    Typing {
        of,
        form,
        literal: None,
    }
}

/// The value of a form: a place is read.
pub fn read_of(alloc: Global, form: Form) -> Result<Expr, AllocError>
    ensures { IfOk result (λ core. core ≡ forms.read_of form) }
{
    match form {
        Form::Value(core) => Ok(core),
        Form::Place(core, _) => Ok(Expr::Read(Boxed::new(alloc, core)?)),
    }
}

/// The field of that number, as a value or as a place.
pub fn field_form(alloc: Global, number: u32, form: Form) -> Result<Form, AllocError>
    ensures { IfOk result (λ field. field ≡ forms.field_form number form) }
{
    match form {
        Form::Value(core) => Ok(Form::Value(Expr::Field(number, Boxed::new(alloc, core)?))),
        Form::Place(core, bar) => Ok(Form::Place(
            PlaceTerm::FieldOf(number, Boxed::new(alloc, core)?),
            bar,
        )),
    }
}

fn one_number(alloc: Global, number: u8) -> Result<Items<u8>, AllocError>
    ensures { IfOk result (λ list. list ≡ number ∷ []) }
{
    let mut list = Items::new(alloc);
    list.push(number)?;
    Ok(list)
}

fn component_value(alloc: Global, number: u8, core: Expr) -> Result<Expr, AllocError>
    ensures { IfOk result (λ component. component ≡ Swizzle (number ∷ []) core) }
{
    let numbers = one_number(alloc, number)?;
    Ok(Expr::Swizzle(numbers, Boxed::new(alloc, core)?))
}

/// The component of that number, as a value or as a place.
pub fn component_form(alloc: Global, number: u8, form: Form) -> Result<Form, AllocError>
    ensures { IfOk result (λ component. component ≡ forms.component_form number form) }
{
    match form {
        Form::Value(core) => Ok(Form::Value(component_value(alloc, number, core)?)),
        Form::Place(core, bar) => Ok(Form::Place(
            PlaceTerm::Component(number, Boxed::new(alloc, core)?),
            bar,
        )),
    }
}

fn element_value(alloc: Global, core: Expr, index: Expr) -> Result<Expr, AllocError>
    ensures { IfOk result (λ element. element ≡ Element core index) }
{
    let core = Boxed::new(alloc, core)?;
    let index = Boxed::new(alloc, index)?;
    Ok(Expr::Element(core, index))
}

fn element_place(alloc: Global, core: PlaceTerm, index: Expr) -> Result<PlaceTerm, AllocError>
    ensures { IfOk result (λ element. element ≡ ElementOf core index) }
{
    let core = Boxed::new(alloc, core)?;
    let index = Boxed::new(alloc, index)?;
    Ok(PlaceTerm::ElementOf(core, index))
}

/// The element at an index, as a value or as a place.
pub fn element_form(alloc: Global, form: Form, index: Expr) -> Result<Form, AllocError>
    ensures { IfOk result (λ element. element ≡ forms.element_form form index) }
{
    match form {
        Form::Value(core) => Ok(Form::Value(element_value(alloc, core, index)?)),
        Form::Place(core, bar) => Ok(Form::Place(element_place(alloc, core, index)?, bar)),
    }
}

/// A number as one of that sign.
pub fn with_sign(
    alloc: Global,
    is_unsigned: bool,
    number: Numeric,
    core: Expr,
) -> Result<Expr, AllocError>
    ensures { IfOk result (λ signed. signed ≡ forms.with_sign is_unsigned number core) }
{
    if is_unsigned == number.is_unsigned {
        Ok(core)
    } else {
        Ok(Expr::Convert(Boxed::new(alloc, core)?))
    }
}

/// A single number repeated where another size is wanted.
pub fn with_size(alloc: Global, size: u8, number: Numeric, core: Expr) -> Result<Expr, AllocError>
    ensures { IfOk result (λ sized. sized ≡ forms.with_size size number core) }
{
    if number.size == size {
        Ok(core)
    } else {
        Ok(Expr::Repeat(size, Boxed::new(alloc, core)?))
    }
}

/// A number of `int` or `uint`, in two's complement.
pub fn number_expr(is_unsigned: bool, bits: u32) -> Expr
    ensures { result ≡ forms.number_expr is_unsigned bits }
{
    if is_unsigned {
        Expr::Uint(bits)
    } else {
        Expr::Int(bits)
    }
}

pub fn truth_expr(truth: bool) -> Expr
    ensures { result ≡ forms.truth_expr truth }
{
    if truth { Expr::True } else { Expr::False }
}

/// What a constant's name is.
pub fn fixed_typing(constant: Fixed) -> Typing
    ensures { result ≡ forms.fixed_typing constant }
{
    let is_unsigned = is_uint(constant.scalar);
    value(
        number_type(is_unsigned),
        number_expr(is_unsigned, constant.bits),
    )
}

/// The call that an expression is.
pub fn call_of(core: Expr) -> Option<Call>
    ensures { result ≡ forms.call_of core }
{
    match core {
        Expr::Call(call) => Some(call.into_inner()),
        _ => None,
    }
}
