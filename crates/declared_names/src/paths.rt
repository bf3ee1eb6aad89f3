// Paths, as the names around with dots.

ghost use Rattle.std.specs.Prelude.{◌≡◌, ◌++◌, IfOk, OnOk};
ghost use Rattle.declared_names.specs.Declarations.{dotted};
ghost use Rattle.declared_names.specs.Views.{prefix_of};

use crate::Prefix;
use slang_names::Name;
use slang_tree::Identifier;
use std::alloc::{AllocError, Global};

fn put_dotted(path: &mut Vec<u8>, name: &Identifier) -> Result<(), AllocError>
    ensures { OnOk result (path.new.items ≡ dotted path.old.items name.now.name) }
{
    path.extend_from_slice(name.name.as_bytes())?;
    path.push(b'.')?;
    Ok(())
}

fn put_prefix(path: &mut Vec<u8>, prefix: Prefix<'_>) -> Result<(), AllocError>
    ensures { OnOk result (path.new.items ≡ path.old.items ++ prefix_of prefix.entry) }
{
    match prefix {
        Prefix::Nothing => Ok(()),
        Prefix::Outer(outer) => put_dotted(path, outer),
        Prefix::Inner(outer, inner) => {
            put_dotted(path, outer)?;
            put_dotted(path, inner)
        }
    }
}

/// The path of a name in the structs around.
pub fn path_of(alloc: Global, prefix: Prefix<'_>, name: &[u8]) -> Result<Name, AllocError>
    ensures { IfOk result (λ path. path ≡ prefix_of prefix.entry ++ name.now) }
{
    let mut path = Vec::new(alloc);
    put_prefix(&mut path, prefix)?;
    path.extend_from_slice(name)?;
    Ok(Name::new(path))
}
