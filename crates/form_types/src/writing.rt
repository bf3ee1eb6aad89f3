// Types and evidence as bytes.

ghost use Rattle.std.specs.Prelude.{◌≡◌, ◌++◌, ◌∷◌, [], OnOk, map};
ghost use Rattle.form_grammar.specs.Trees.{text, spelling, chain, list_of};
ghost use Rattle.slang_core.specs.TypeTrees.{ref_tree, value_tree, scalar_tree, type_tree, arg_tree};

use form_grammar::{put_count, put_num, put_text};
use slang_core::{Arg, Scalar, TypeTerm};
use slang_names::{Name, Ref, Value};
use std::alloc::AllocError;

/// Appends a name.
pub fn put_name(out: &mut Vec<u8>, name: &Name) -> Result<(), AllocError>
    ensures { OnOk result (out.new.items ≡ out.old.items ++ spelling (text name.now)) }
{
    put_text(out, name.as_bytes())
}

/// Appends a reference to a declaration.
#[tactic(auto, using(std::proofs::lemmas::List::append_assoc))]
pub fn put_ref(out: &mut Vec<u8>, name: &Ref) -> Result<(), AllocError>
    ensures { OnOk result (out.new.items ≡ out.old.items ++ spelling (ref_tree name.now)) }
{
    put_name(out, &name.module)?;
    put_name(out, &name.path)?;
    Ok(())
}

/// Appends a number in a type.
#[tactic(auto, using(std::proofs::lemmas::List::append_assoc))]
pub fn put_value(out: &mut Vec<u8>, value: Value) -> Result<(), AllocError>
    ensures { OnOk result (out.new.items ≡ out.old.items ++ spelling (value_tree value)) }
{
    match value {
        Value::Number(number) => {
            out.push(0)?;
            put_num(out, number)?;
        }
        Value::Parameter(number) => {
            out.push(1)?;
            put_num(out, number)?;
        }
    }
    Ok(())
}

/// The byte of a scalar type.
pub fn scalar_byte(scalar: Scalar) -> u8
    ensures { spelling (scalar_tree scalar) ≡ result ∷ [] }
{
    match scalar {
        Scalar::Int => 2,
        Scalar::Uint => 3,
    }
}

#[cycle(put_term)]
fn put_arg_items(out: &mut Vec<u8>, args: &[Arg]) -> Result<(), AllocError>
    ensures { OnOk result (out.new.items ≡ out.old.items ++ spelling (chain (map arg_tree args.now))) }
{
    for arg in args {
        put_arg(out, arg)?;
    }
    Ok(())
}

/// Appends arguments.
#[cycle(put_term)]
#[tactic(auto, using(std::proofs::lemmas::List::append_assoc, form_grammar::proofs::Chains::size_chain))]
pub fn put_args(out: &mut Vec<u8>, args: &[Arg]) -> Result<(), AllocError>
    ensures { OnOk result (out.new.items ≡ out.old.items ++ spelling (list_of arg_tree args.now)) }
{
    put_count(out, args.len())?;
    put_arg_items(out, args)?;
    Ok(())
}

/// Appends an argument.
#[cycle(put_term)]
#[tactic(auto, using(std::proofs::lemmas::List::append_assoc))]
pub fn put_arg(out: &mut Vec<u8>, arg: &Arg) -> Result<(), AllocError>
    ensures { OnOk result (out.new.items ≡ out.old.items ++ spelling (arg_tree arg.now)) }
{
    match arg {
        Arg::Term(term) => {
            out.push(0)?;
            put_term(out, term)?;
        }
        Arg::Fixed(value) => {
            out.push(1)?;
            put_value(out, *value)?;
        }
    }
    Ok(())
}

/// Appends a type.
#[cycle(put_term)]
#[tactic(auto, using(std::proofs::lemmas::List::append_assoc))]
pub fn put_term(out: &mut Vec<u8>, term: &TypeTerm) -> Result<(), AllocError>
    ensures { OnOk result (out.new.items ≡ out.old.items ++ spelling (type_tree term.now)) }
{
    match term {
        TypeTerm::Void => out.push(0)?,
        TypeTerm::Bool => out.push(1)?,
        TypeTerm::Int => out.push(2)?,
        TypeTerm::Uint => out.push(3)?,
        TypeTerm::Vector(scalar, lanes) => {
            out.push(4)?;
            out.push(scalar_byte(*scalar))?;
            out.push(*lanes)?;
        }
        TypeTerm::Array(element, length) => {
            out.push(5)?;
            put_term(out, element.get())?;
            put_value(out, *length)?;
        }
        TypeTerm::Struct(name, args) => {
            out.push(6)?;
            put_ref(out, name)?;
            put_args(out, args.as_slice())?;
        }
        TypeTerm::Parameter(number) => {
            out.push(7)?;
            put_num(out, *number)?;
        }
        TypeTerm::Projection(subject, interface, name) => {
            out.push(8)?;
            put_term(out, subject.get())?;
            put_ref(out, interface)?;
            put_name(out, name)?;
        }
        TypeTerm::StructuredBuffer(element) => {
            out.push(9)?;
            put_term(out, element.get())?;
        }
        TypeTerm::RwStructuredBuffer(element) => {
            out.push(10)?;
            put_term(out, element.get())?;
        }
        TypeTerm::ConstantBuffer(element) => {
            out.push(11)?;
            put_term(out, element.get())?;
        }
        TypeTerm::ParameterBlock(element) => {
            out.push(12)?;
            put_term(out, element.get())?;
        }
    }
    Ok(())
}
