// A whole module at the front of bytes.

ghost use Rattle.std.specs.Prelude.{◌≡◌};
ghost use Rattle.form_grammar.specs.Trees.{byte, ◌▸◌, list_of};
ghost use Rattle.form_grammar.specs.Grammar as form;
ghost use Rattle.form_grammar.specs.Grammar.{◌▹◌};
ghost use Rattle.form_grammar.specs.Numbers.{after};
ghost use Rattle.form_grammar.specs.Reading.{Gives, form_at, nested_at};
ghost use Rattle.slang_core.specs.DeclarationTrees.{interface_tree};
ghost use Rattle.slang_core.specs.BodyTrees.{body_tree};
ghost use Rattle.slang_core.specs.ModuleTrees.{module_tree};

use form_bodies::bodies_of;
use form_decls::{Stored, list_at};
use form_grammar::{Level, ReadFault, refused, short};
use slang_core::{CoreModule, Interface};
use slang_names::FormCode;

/// That byte at the front, and what stands behind it.
#[tactic(auto, unfolding(form_grammar::specs::Reading::form_at, form_grammar::specs::Numbers::after))]
fn exactly(level: Level, code: FormCode, mark: u8, bytes: &[u8]) -> Result<&[u8], ReadFault>
    ensures { Gives (λ rest. (byte mark, rest.now)) result (form_at (nested_at level.depth) (form.exactly code mark) bytes.now) }
{
    let [first, rest @ ..] = bytes else {
        return Err(short());
    };
    if *first == mark {
        Ok(rest)
    } else {
        Err(refused(code, bytes))
    }
}

/// The interfaces and bodies at the front.
#[tactic(auto, unfolding(form_grammar::specs::Reading::form_at, form_grammar::specs::Numbers::after))]
fn parts_at(level: Level, bytes: &[u8]) -> Result<(CoreModule, &[u8]), ReadFault>
    ensures { Gives (λ x. (list_of interface_tree x.0.reached ▸ interface_tree x.0.own ▸ list_of body_tree x.0.bodies, x.1.now)) result
        (form_at (nested_at level.depth) (form.list form.interface ▹ form.interface ▹ form.list form.body) bytes.now) }
{
    let (reached, rest) = list_at(level, bytes)?;
    let (own, rest) = Interface::read(level, rest)?;
    let (bodies, rest) = bodies_of(level, rest)?;
    Ok((
        CoreModule {
            reached,
            own,
            bodies,
        },
        rest,
    ))
}

/// The module at the front.
#[tactic(auto, unfolding(form_grammar::specs::Reading::form_at, form_grammar::specs::Numbers::after))]
pub fn module_at(level: Level, bytes: &[u8]) -> Result<(CoreModule, &[u8]), ReadFault>
    ensures { Gives (λ x. (module_tree x.0, x.1.now)) result (form_at (nested_at level.depth) form.module_form bytes.now) }
{
    let rest = exactly(level, FormCode::BadMagic, 0x53, bytes)?;
    let rest = exactly(level, FormCode::BadMagic, 0x4C, rest)?;
    let rest = exactly(level, FormCode::BadMagic, 0x4D, rest)?;
    let rest = exactly(level, FormCode::BadMagic, 0x4F, rest)?;
    let rest = exactly(level, FormCode::BadVersion, 1, rest)?;
    parts_at(level, rest)
}
