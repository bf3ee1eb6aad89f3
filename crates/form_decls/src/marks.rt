// The small marks of declarations.

ghost use Rattle.std.specs.Prelude.{◌≡◌, ◌∷◌, []};
ghost use Rattle.form_grammar.specs.Trees.{spelling};
ghost use Rattle.form_grammar.specs.Grammar as form;
ghost use Rattle.form_grammar.specs.Numbers.{after};
ghost use Rattle.form_grammar.specs.Reading.{Gives, form_at, nested_at};
ghost use Rattle.slang_core.specs.DeclarationTrees.{access_tree, mode_tree, flags_tree, built_in_tree};

use form_grammar::{Level, ReadFault, refused, short};
use slang_core::{BuiltIn, Flags};
use slang_names::{Access, FormCode, Mode};

/// Who may use a declaration at the front.
#[tactic(auto, unfolding(form_grammar::specs::Reading::form_at, form_grammar::specs::Numbers::after))]
pub fn access_of(level: Level, bytes: &[u8]) -> Result<(Access, &[u8]), ReadFault>
    ensures { Gives (λ x. (access_tree x.0, x.1.now)) result (form_at (nested_at level.depth) form.acc bytes.now) }
{
    match bytes {
        [] => Err(short()),
        [0, rest @ ..] => Ok((Access::Public, rest)),
        [1, rest @ ..] => Ok((Access::Internal, rest)),
        [2, rest @ ..] => Ok((Access::Private, rest)),
        _ => Err(refused(FormCode::NotCanonical, bytes)),
    }
}

/// The byte of who may use a declaration.
pub fn access_byte(access: Access) -> u8
    ensures { spelling (access_tree access) ≡ result ∷ [] }
{
    match access {
        Access::Public => 0,
        Access::Internal => 1,
        Access::Private => 2,
    }
}

/// How a parameter is passed at the front.
#[tactic(auto, unfolding(form_grammar::specs::Reading::form_at, form_grammar::specs::Numbers::after))]
pub fn mode_of(level: Level, bytes: &[u8]) -> Result<(Mode, &[u8]), ReadFault>
    ensures { Gives (λ x. (mode_tree x.0, x.1.now)) result (form_at (nested_at level.depth) (form.range 0 2) bytes.now) }
{
    match bytes {
        [] => Err(short()),
        [0, rest @ ..] => Ok((Mode::In, rest)),
        [1, rest @ ..] => Ok((Mode::Out, rest)),
        [2, rest @ ..] => Ok((Mode::InOut, rest)),
        _ => Err(refused(FormCode::NotCanonical, bytes)),
    }
}

/// The byte of how a parameter is passed.
pub fn mode_byte(mode: Mode) -> u8
    ensures { spelling (mode_tree mode) ≡ result ∷ [] }
{
    match mode {
        Mode::In => 0,
        Mode::Out => 1,
        Mode::InOut => 2,
    }
}

/// What an entry's parameter is given at the front.
#[tactic(auto, unfolding(form_grammar::specs::Reading::form_at, form_grammar::specs::Numbers::after))]
pub fn built_in_of(level: Level, bytes: &[u8]) -> Result<(BuiltIn, &[u8]), ReadFault>
    ensures { Gives (λ x. (built_in_tree x.0, x.1.now)) result (form_at (nested_at level.depth) (form.range 0 3) bytes.now) }
{
    match bytes {
        [] => Err(short()),
        [0, rest @ ..] => Ok((BuiltIn::GroupId, rest)),
        [1, rest @ ..] => Ok((BuiltIn::GroupThreadId, rest)),
        [2, rest @ ..] => Ok((BuiltIn::DispatchThreadId, rest)),
        [3, rest @ ..] => Ok((BuiltIn::GroupIndex, rest)),
        _ => Err(refused(FormCode::NotCanonical, bytes)),
    }
}

/// The byte of what an entry's parameter is given.
pub fn built_in_byte(built_in: BuiltIn) -> u8
    ensures { spelling (built_in_tree built_in) ≡ result ∷ [] }
{
    match built_in {
        BuiltIn::GroupId => 0,
        BuiltIn::GroupThreadId => 1,
        BuiltIn::DispatchThreadId => 2,
        BuiltIn::GroupIndex => 3,
    }
}

fn flags_at(is_static: bool, is_mutating: bool) -> Flags
    ensures { result ≡ record { is_static = is_static; is_mutating = is_mutating } }
{
    Flags {
        is_static,
        is_mutating,
    }
}

/// How a function is a member, at the front.
#[tactic(auto, unfolding(form_grammar::specs::Reading::form_at, form_grammar::specs::Numbers::after))]
pub fn flags_of(level: Level, bytes: &[u8]) -> Result<(Flags, &[u8]), ReadFault>
    ensures { Gives (λ x. (flags_tree x.0, x.1.now)) result (form_at (nested_at level.depth) form.flags bytes.now) }
{
    match bytes {
        [] => Err(short()),
        [0, rest @ ..] => Ok((flags_at(false, false), rest)),
        [1, rest @ ..] => Ok((flags_at(true, false), rest)),
        [2, rest @ ..] => Ok((flags_at(false, true), rest)),
        [3, rest @ ..] => Ok((flags_at(true, true), rest)),
        _ => Err(refused(FormCode::NotCanonical, bytes)),
    }
}

/// The byte of how a function is a member.
pub fn flags_byte(flags: Flags) -> u8
    ensures { spelling (flags_tree flags) ≡ result ∷ [] }
{
    let first = if flags.is_static { 1 } else { 0 };
    let second = if flags.is_mutating { 2 } else { 0 };
    first + second
}
