// The shader that a tree is.

ghost use Rattle.std.specs.Prelude.{◌≡◌, IfOk};
ghost use Rattle.tree_form.specs.Forms.{form_of};

use crate::heads::head_of;
use crate::statements::statements_of;
use first_form::Shader;
use slang_names::Name;
use slang_tree::File;
use std::alloc::{AllocError, Global};

/// The shader that the file is, if it is of the first form. Calls itself at most 32 deep.
#[tactic(auto, unfolding(crate::specs::Forms::form_of))]
pub fn shader_of(alloc: Global, file: &File) -> Result<Option<Shader>, AllocError>
    ensures { IfOk result (λ found. found ≡ form_of file.now) }
{
    let Some((buffer, entry)) = head_of(file) else {
        return Ok(None);
    };
    let Some(statements) = statements_of(alloc, buffer, entry.parameter, entry.statements)? else {
        return Ok(None);
    };
    Ok(Some(Shader {
        buffer: Name::from_slice(alloc, buffer)?,
        entry: Name::from_slice(alloc, entry.name)?,
        parameter: Name::from_slice(alloc, entry.parameter)?,
        group: entry.group,
        statements,
    }))
}
