// A core as bytes.

ghost use Rattle.std.specs.Prelude.{◌≡◌, ◌++◌, OnOk, IfOk};
ghost use Rattle.form_grammar.specs.Trees.{spelling};
ghost use Rattle.form_grammar.specs.Grammar.{module_form};
ghost use Rattle.form_laws.specs.Forms.{IsForm};
ghost use Rattle.slang_core.specs.ModuleTrees.{module_tree};
ghost use Rattle.module_form.specs.Stored.{StoredForm};

use form_bodies::put_bodies;
use form_decls::{Stored, put_list};
use slang_core::CoreModule;
use std::alloc::{AllocError, Global};

/// How each stored module begins: four bytes, and the version.
const HEAD: [u8; 5] = [0x53, 0x4C, 0x4D, 0x4F, 1];

#[tactic(auto, using(std::proofs::lemmas::List::append_assoc))]
fn put_module(out: &mut Vec<u8>, core: &CoreModule) -> Result<(), AllocError>
    ensures { OnOk result (out.new.items ≡ out.old.items ++ spelling (module_tree core.now)) }
{
    out.extend_from_slice(&HEAD)?;
    put_list(out, core.reached.as_slice())?;
    core.own.put(out)?;
    put_bodies(out, core.bodies.as_slice())?;
    Ok(())
}

/// The one spelling of a core that has one: its names have 1 to 255 bytes, its lists fewer than 2 ^ 32 items, and
/// its vectors 2 to 4 scalars. A core that passes a limit of the form is spelled too.
pub fn encode(alloc: Global, core: &CoreModule) -> Result<Vec<u8>, AllocError>
    requires spelled { IsForm (module_tree core.now) module_form }
    ensures { IfOk result (λ bytes. StoredForm core.now bytes.items) }
{
    let mut out = Vec::new(alloc);
    put_module(&mut out, core)?;
    Ok(out)
}
