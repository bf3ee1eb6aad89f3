// Copies of types in memory of their own.

ghost use Rattle.std.specs.Prelude.{◌≡◌, IfOk};
ghost use Rattle.slang_core.specs.declared.types.TypeTerm.TheVariants.{Projection};

use slang_core::{Arg, TypeTerm};
use slang_names::{Name, Ref};
use sqlite_items::{Boxed, Items};
use std::alloc::{AllocError, Global};

pub fn copy_ref(alloc: Global, name: &Ref) -> Result<Ref, AllocError>
    ensures { IfOk result (λ copy. copy ≡ name.now) }
{
    let module = name.module.copy(alloc)?;
    let path = name.path.copy(alloc)?;
    Ok(Ref { module, path })
}

#[cycle(copies)]
fn copy_boxed(alloc: Global, term: &TypeTerm) -> Result<Boxed<TypeTerm>, AllocError>
    ensures { IfOk result (λ copy. copy ≡ term.now) }
{
    Boxed::new(alloc, copy_term(alloc, term)?)
}

#[cycle(copies)]
fn copy_args(alloc: Global, args: &[Arg]) -> Result<Items<Arg>, AllocError>
    ensures { IfOk result (λ copy. copy ≡ args.now) }
{
    let mut copies = Items::new(alloc);
    for arg in args {
        copies.push(copy_arg(alloc, arg)?)?;
    }
    Ok(copies)
}

/// An equal argument in memory of its own.
#[cycle(copies)]
pub fn copy_arg(alloc: Global, arg: &Arg) -> Result<Arg, AllocError>
    ensures { IfOk result (λ copy. copy ≡ arg.now) }
{
    match arg {
        Arg::Term(term) => Ok(Arg::Term(copy_term(alloc, term)?)),
        Arg::Fixed(value) => Ok(Arg::Fixed(*value)),
    }
}

#[cycle(copies)]
fn copy_projection(
    alloc: Global,
    subject: &TypeTerm,
    interface: &Ref,
    name: &Name,
) -> Result<TypeTerm, AllocError>
    ensures { IfOk result (λ copy. copy ≡ Projection subject.now interface.now name.now) }
{
    let subject = copy_boxed(alloc, subject)?;
    let interface = copy_ref(alloc, interface)?;
    let name = name.copy(alloc)?;
    Ok(TypeTerm::Projection(subject, interface, name))
}

/// An equal type in memory of its own.
#[cycle(copies)]
pub fn copy_term(alloc: Global, term: &TypeTerm) -> Result<TypeTerm, AllocError>
    ensures { IfOk result (λ copy. copy ≡ term.now) }
{
    match term {
        TypeTerm::Void => Ok(TypeTerm::Void),
        TypeTerm::Bool => Ok(TypeTerm::Bool),
        TypeTerm::Int => Ok(TypeTerm::Int),
        TypeTerm::Uint => Ok(TypeTerm::Uint),
        TypeTerm::Vector(scalar, size) => Ok(TypeTerm::Vector(*scalar, *size)),
        TypeTerm::Array(element, length) => {
            Ok(TypeTerm::Array(copy_boxed(alloc, element.get())?, *length))
        }
        TypeTerm::Struct(name, args) => {
            let name = copy_ref(alloc, name)?;
            let args = copy_args(alloc, args.as_slice())?;
            Ok(TypeTerm::Struct(name, args))
        }
        TypeTerm::Parameter(number) => Ok(TypeTerm::Parameter(*number)),
        TypeTerm::Projection(subject, interface, name) => {
            copy_projection(alloc, subject.get(), interface, name)
        }
        TypeTerm::StructuredBuffer(element) => {
            Ok(TypeTerm::StructuredBuffer(copy_boxed(alloc, element.get())?))
        }
        TypeTerm::RwStructuredBuffer(element) => {
            Ok(TypeTerm::RwStructuredBuffer(copy_boxed(alloc, element.get())?))
        }
        TypeTerm::ConstantBuffer(element) => {
            Ok(TypeTerm::ConstantBuffer(copy_boxed(alloc, element.get())?))
        }
        TypeTerm::ParameterBlock(element) => {
            Ok(TypeTerm::ParameterBlock(copy_boxed(alloc, element.get())?))
        }
    }
}
