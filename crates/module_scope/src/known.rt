// What is known of a declaration, by its number.

ghost use Rattle.std.specs.Prelude.{◌≡◌};
ghost use Rattle.std.specs.Option.{option_copied};
ghost use Rattle.module_scope.specs.Known as spec;

use crate::{Head, Outline, Signature, Spelling};
use declared_names::FieldAt;
use slang_core::TypeTerm;
use sqlite_items::at as item_at;
use type_terms::Fixed;

/// The head of a declaration, where it has a typing.
pub fn head_at(outline: &Outline, number: u32) -> Option<&Head>
    ensures { option_copied result ≡ spec.head_at outline.now number }
{
    match item_at(outline.heads.as_slice(), number as usize) {
        Some(Some(head)) => Some(head),
        _ => None,
    }
}

/// The type that an alias is.
pub fn alias_at(outline: &Outline, number: u32) -> Option<&TypeTerm>
    ensures { option_copied result ≡ spec.alias_at outline.now number }
{
    match head_at(outline, number) {
        Some(Head::Alias(of)) => Some(of),
        _ => None,
    }
}

/// The value of a constant.
pub fn constant_at(outline: &Outline, number: u32) -> Option<Fixed>
    ensures { result ≡ spec.constant_at outline.now number }
{
    match head_at(outline, number) {
        Some(Head::Constant(value)) => Some(*value),
        _ => None,
    }
}

/// How a function is called.
pub fn function_at(outline: &Outline, number: u32) -> Option<&Signature>
    ensures { option_copied result ≡ spec.function_at outline.now number }
{
    match head_at(outline, number) {
        Some(Head::Function(signature)) => Some(signature),
        _ => None,
    }
}

/// The type of a global.
pub fn global_at(outline: &Outline, number: u32) -> Option<&TypeTerm>
    ensures { option_copied result ≡ spec.global_at outline.now number }
{
    match head_at(outline, number) {
        Some(Head::Global(of)) => Some(of),
        _ => None,
    }
}

/// The types of the names of one declaration of fields.
pub fn fields_in(head: Option<&Head>) -> &[TypeTerm]
    ensures { result.now ≡ spec.fields_in (option_copied head.entry) }
{
    match head {
        Some(Head::Fields(types)) => types.as_slice(),
        _ => &[],
    }
}

/// The type of a field.
pub fn field_type(outline: &Outline, field: FieldAt) -> Option<&TypeTerm>
    ensures { option_copied result ≡ spec.field_type outline.now field }
{
    item_at(
        fields_in(head_at(outline, field.declaration)),
        field.at as usize,
    )
}

/// What the spelling of an alias tells.
pub fn spelling_at(outline: &Outline, number: u32) -> Spelling
    ensures { result ≡ spec.spelling_at outline.now number }
{
    match item_at(outline.spellings.as_slice(), number as usize) {
        Some(spelling) => *spelling,
        None => Spelling {
            subject: None,
            is_projected: false,
        },
    }
}
