// Questions about the outermost word of a type.

ghost use Rattle.std.specs.Prelude.{◌≡◌};
ghost use Rattle.std.specs.Option.{option_copied};
ghost use Rattle.type_terms.specs.Types as types;

use slang_core::TypeTerm;
use slang_names::Ref;

pub fn is_void(term: &TypeTerm) -> bool
    ensures { result ≡ types.is_void term.now }
{
    match term {
        TypeTerm::Void => true,
        _ => false,
    }
}

pub fn is_bool(term: &TypeTerm) -> bool
    ensures { result ≡ types.is_bool term.now }
{
    match term {
        TypeTerm::Bool => true,
        _ => false,
    }
}

/// A buffer or a block.
pub fn is_resource(term: &TypeTerm) -> bool
    ensures { result ≡ types.is_resource term.now }
{
    match term {
        TypeTerm::StructuredBuffer(_)
        | TypeTerm::RwStructuredBuffer(_)
        | TypeTerm::ConstantBuffer(_)
        | TypeTerm::ParameterBlock(_) => true,
        _ => false,
    }
}

/// Any type but a buffer that can be written.
pub fn is_read_only(term: &TypeTerm) -> bool
    ensures { result ≡ types.is_read_only term.now }
{
    match term {
        TypeTerm::RwStructuredBuffer(_) => false,
        _ => true,
    }
}

/// The struct that the type is.
pub fn struct_of(term: &TypeTerm) -> Option<&Ref>
    ensures { option_copied result ≡ types.struct_of term.now }
{
    match term {
        TypeTerm::Struct(name, _) => Some(name),
        _ => None,
    }
}
