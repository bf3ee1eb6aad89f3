// Bytes as a core.

ghost use Rattle.std.specs.Prelude.{◌≡◌, ◌⊎◌, ℕ, IfOk, Ok, Err};
ghost use Rattle.slang_core.specs.declared.declarations.CoreModule as cores;
ghost use Rattle.slang_names.specs.declared.form_codes.FormCode as codes;
ghost use Rattle.form_refusals.specs.Refused.{RefusedAt};
ghost use Rattle.module_form.specs.Stored.{StoredForm, FitsLimits, IsMemory};

use crate::FormFault;
use crate::parts::module_at;
use form_grammar::{Level, ReadFault};
use slang_core::CoreModule;
use slang_names::FormCode;
use std::alloc::Global;

/// How many productions may stand in one another.
const DEPTH: usize = 128;
/// The most bytes of a stored module.
const MOST: usize = 16_777_216;

/// The core that the bytes spell, if it fits the limits. Else the code and the place of the first byte with which no
/// stored module goes on or a limit is passed; where the bytes end too early the place is their length.
pub fn decode(alloc: Global, bytes: &[u8]) -> Result<CoreModule, FormFault>
    ensures spelled { IfOk result (λ m. StoredForm m bytes.now × FitsLimits m) }
    ensures refusal { (place : ℕ) (code : codes.FormCode) → result ≡ Err (FormFault.Refused place code) → RefusedAt bytes.now place code }
    // Memory may always be wanting; else each module that fits is decoded, and each refusal is answered.
    ensures each_module { (m : cores.CoreModule) → StoredForm m bytes.now → FitsLimits m → (result ≡ Ok m) ⊎ IsMemory result }
    ensures each_refusal { (place : ℕ) (code : codes.FormCode) → RefusedAt bytes.now place code → (result ≡ Err (FormFault.Refused place code)) ⊎ IsMemory result }
{
    let len = bytes.len();
    let level = Level {
        alloc,
        depth: DEPTH,
    };
    match module_at(level, bytes) {
        Ok((core, rest)) => {
            let end = len - rest.len();
            if len > MOST && end >= MOST {
                Err(FormFault::Refused {
                    place: MOST as u64,
                    code: FormCode::FormLimit,
                })
            } else if rest.len() > 0 {
                Err(FormFault::Refused {
                    place: end as u64,
                    code: FormCode::Trailing,
                })
            } else {
                Ok(core)
            }
        }
        Err(ReadFault::Memory(error)) => Err(FormFault::Memory(error)),
        Err(ReadFault::Refused(stop)) => {
            let place = len - stop.left;
            if len > MOST && place >= MOST {
                Err(FormFault::Refused {
                    place: MOST as u64,
                    code: FormCode::FormLimit,
                })
            } else {
                Err(FormFault::Refused {
                    place: place as u64,
                    code: stop.code,
                })
            }
        }
    }
}
