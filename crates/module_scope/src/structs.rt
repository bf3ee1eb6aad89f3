// Structs as types, and their numbers.

ghost use Rattle.std.specs.Prelude.{◌≡◌, Some, IfOk};
ghost use Rattle.module_scope.specs.Known as spec;

use declared_names::{Declared, FieldAt};
use slang_core::TypeTerm;
use slang_names::{Name, Ref};
use sqlite_items::{Items, at as item_at};
use std::alloc::{AllocError, Global};
use type_terms::struct_of;

/// The declaration of that path.
pub fn struct_ref(alloc: Global, declared: &Declared, path: &[u8]) -> Result<Ref, AllocError>
    ensures { IfOk result (λ name. name ≡ spec.struct_ref declared.now path.now) }
{
    let module = declared.module.copy(alloc)?;
    let path = Name::from_slice(alloc, path)?;
    Ok(Ref { module, path })
}

/// A struct as a type, by its number.
pub fn struct_type(
    alloc: Global,
    declared: &Declared,
    number: usize,
) -> Result<Option<TypeTerm>, AllocError>
    ensures { IfOk result (λ of. of ≡ spec.struct_type declared.now number) }
{
    match declared.paths.get(number) {
        Some(path) => {
            let name = struct_ref(alloc, declared, path.as_bytes())?;
            Ok(Some(TypeTerm::Struct(name, Items::new(alloc))))
        }
        None => Ok(None),
    }
}

/// The number of the struct of that path.
pub fn number_of_struct(declared: &Declared, name: &Ref) -> Option<usize>
    ensures { result ≡ spec.number_of_struct declared.now (Some name.now) }
{
    declared.paths.find(name.path.as_bytes())
}

/// The number of the struct that a type is.
pub fn struct_number(declared: &Declared, of: &TypeTerm) -> Option<usize>
    ensures { result ≡ spec.struct_number declared.now of.now }
{
    match struct_of(of) {
        Some(name) => number_of_struct(declared, name),
        None => None,
    }
}

/// The fields of the struct of that number, in order.
pub fn fields_at(declared: &Declared, number: usize) -> &[FieldAt]
    ensures { result.now ≡ spec.fields_at declared.now number }
{
    match item_at(declared.structs.as_slice(), number) {
        Some(members) => members.fields.as_slice(),
        None => &[],
    }
}
