// What a name means: the blocks from the inside out, the members of the struct around, the declarations of the module.

ghost use Rattle.std.specs.Prelude.{◌≡◌};
ghost use Rattle.std.specs.Option.{option_copied};
ghost use Rattle.module_scope.specs.Sees as spec;
ghost use Rattle.module_scope.specs.Views.{looked_up};

use crate::members::item_named;
use crate::{InForce, Local, member_named, own_named};
use declared_names::{Declared, MemberKind, OwnKind};
use slang_names::ModuleCode;

/// What a name means.
#[derive(Clone, Copy)]
pub enum Found<'a> {
    Local(&'a Local),
    Member(MemberKind),
    Own(OwnKind),
}

fn local_in<'a>(name: &[u8], block: &'a InForce) -> Option<&'a Local>
    ensures { option_copied result ≡ spec.local_in name.now block.now }
{
    item_named(&block.names, block.locals.as_slice(), name)
}

/// The local of that name of the innermost block that has one.
fn local_named<'a>(name: &[u8], blocks: &'a [InForce]) -> Option<&'a Local>
    ensures { option_copied result ≡ spec.local_named name.now blocks.now }
{
    let mut left = blocks;
    while let Some((block, before)) = left.split_last() {
        match local_in(name, block) {
            Some(local) => return Some(local),
            None => left = before,
        }
    }
    None
}

fn own_or<'a>(own: Option<OwnKind>, code: ModuleCode) -> Result<Found<'a>, ModuleCode>
    ensures { looked_up result ≡ spec.own_or own code }
{
    match own {
        Some(own) => Ok(Found::Own(own)),
        None => Err(code),
    }
}

/// What a name means from the level of members on: a private one that is not seen is told where nothing else has the name.
pub fn outside<'a>(
    declared: &Declared,
    subject: Option<u32>,
    name: &[u8],
    at: u32,
) -> Result<Found<'a>, ModuleCode>
    ensures { looked_up result ≡ spec.outside declared.now subject name.now at }
{
    let own = own_named(declared, name, at);
    let Some(subject) = subject else {
        return own_or(own, ModuleCode::Unknown);
    };
    match member_named(declared, subject as usize, name, at) {
        Ok(member) => Ok(Found::Member(member)),
        Err(ModuleCode::NoAccess) => own_or(own, ModuleCode::NoAccess),
        Err(_) => own_or(own, ModuleCode::Unknown),
    }
}

/// What a name means that stands at that byte, in these blocks and in the struct of that number.
pub fn look_up<'a>(
    declared: &Declared,
    subject: Option<u32>,
    blocks: &'a [InForce],
    name: &[u8],
    at: u32,
) -> Result<Found<'a>, ModuleCode>
    ensures { looked_up result ≡ spec.look_up declared.now subject blocks.now name.now at }
{
    match local_named(name, blocks) {
        Some(local) => Ok(Found::Local(local)),
        None => outside(declared, subject, name, at),
    }
}
