// Groups of names.

ghost use Rattle.std.specs.Prelude.{◌≡◌};
ghost use Rattle.repeated_names.specs.Twice as spec;
ghost use Rattle.repeated_names.specs.Views.{group_of};

/// In which a name stands once: the names of the module; the members of a struct; the parameters of a function, or the
/// locals of a block or a `for`, told by the byte at which it begins. Contracts read it by `group_of`.
#[derive(Clone, Copy, PartialEq, Eq, Hash)]
pub enum Group {
    Module,
    Struct(u32),
    Byte(u32),
}

/// What tells two names apart: the group and the bytes.
#[derive(Clone, Copy, PartialEq, Eq, Hash)]
pub struct Key<'a> {
    pub group: Group,
    pub bytes: &'a [u8],
}

/// The group of what stands in that struct, or in the module.
pub fn group_around(owner: Option<u32>) -> Group
    ensures { group_of result ≡ spec.group_of owner }
{
    match owner {
        Some(number) => Group::Struct(number),
        None => Group::Module,
    }
}
