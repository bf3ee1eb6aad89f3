// Laws.

ghost use Rattle.std.specs.Prelude.{◌≡◌, ◌++◌, [], List, ℕ, IfOk, Err};
ghost use Rattle.slang_core.specs.declared.declarations.CoreModule as cores;
ghost use Rattle.slang_core.specs.ModuleTrees.{module_tree};
ghost use Rattle.form_grammar.specs.Grammar.{module_form};
ghost use Rattle.form_laws.specs.Forms.{IsForm};
ghost use Rattle.slang_names.specs.declared.form_codes.FormCode as codes;
ghost use Rattle.module_form.specs.Stored.{StoredForm, FitsLimits};

use crate::{FormFault, decode, encode};
use slang_core::CoreModule;
use std::alloc::Global;

/// A core has one spelling.
pub fn one_spelling()
    ensures { (m : cores.CoreModule) (a b : List ℕ) → StoredForm m a → StoredForm m b → a ≡ b }
{}

/// Bytes spell one core.
pub fn one_core()
    ensures { (m n : cores.CoreModule) (bytes : List ℕ) → StoredForm m bytes → StoredForm n bytes → m ≡ n }
{}

/// No stored module begins another.
pub fn no_beginning()
    ensures { (m n : cores.CoreModule) (bytes rest : List ℕ) → StoredForm m bytes → StoredForm n (bytes ++ rest) → (m ≡ n) × (rest ≡ []) }
{}

/// A core as bytes, and from them again: an equal core, which is never refused.
pub fn core_again(alloc: Global, core: &CoreModule) -> Result<CoreModule, FormFault>
    requires spelled { IsForm (module_tree core.now) module_form }
    requires fits { FitsLimits core.now }
    ensures equal { IfOk result (λ m. m ≡ core.now) }
    ensures never { (place : ℕ) (code : codes.FormCode) → result ≡ Err (FormFault.Refused place code) → ⊥ }
{
    let bytes = encode(alloc, core).map_err(FormFault::Memory)?;
    decode(alloc, bytes.as_slice())
}

/// Bytes as a core, and that as bytes again: the same bytes.
pub fn bytes_again(alloc: Global, bytes: &[u8]) -> Result<Vec<u8>, FormFault>
    ensures { IfOk result (λ again. again.items ≡ bytes.now) }
{
    let module = decode(alloc, bytes)?;
    encode(alloc, &module).map_err(FormFault::Memory)
}
