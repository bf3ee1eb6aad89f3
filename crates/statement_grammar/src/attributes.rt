// Which attributes there are, and where each may stand.

ghost use Rattle.std.specs.Prelude.{◌≡◌};
ghost use Rattle.slang_tokens.specs.Tables.{entry_of};
ghost use Rattle.statement_grammar.specs.AttributeTables as tables;

/// The attributes that are taken.
#[derive(Clone, Copy)]
pub enum KnownAttribute {
    /// `[shader("compute")]`
    Shader,
    /// `[numthreads(x, y, z)]`
    NumThreads,
    /// `[mutating]`
    Mutating,
    /// `[unroll]`
    Unroll,
    /// `[loop]`
    Loop,
    /// `[[vk::binding(binding, set)]]`
    Binding,
}

/// What attributes may stand before.
#[derive(Clone, Copy)]
pub enum Target {
    /// A `for` or a `while`.
    Loop,
    /// A function of a module.
    Function,
    /// A global of a module.
    Global,
    /// A method or a required function that is not static.
    Method,
    /// Anything else, before which no attribute may stand.
    Other,
}

fn loop_attribute_of(name: &[u8]) -> Option<KnownAttribute>
    ensures { result ≡ entry_of tables.loop_attributes name.now }
{
    if b"unroll".as_slice() == name {
        Some(KnownAttribute::Unroll)
    } else if b"loop".as_slice() == name {
        Some(KnownAttribute::Loop)
    } else {
        None
    }
}

/// The attribute of that name; `vk::binding` is two names and is none of them.
#[tactic(auto, unfolding(crate::specs::AttributeTables::attribute_of))]
pub fn attribute_of(name: &[u8]) -> Option<KnownAttribute>
    ensures { result ≡ tables.attribute_of name.now }
{
    if b"shader".as_slice() == name {
        Some(KnownAttribute::Shader)
    } else if b"numthreads".as_slice() == name {
        Some(KnownAttribute::NumThreads)
    } else if b"mutating".as_slice() == name {
        Some(KnownAttribute::Mutating)
    } else {
        loop_attribute_of(name)
    }
}

/// Whether the attribute may stand before such a thing.
pub fn may_stand(attribute: KnownAttribute, target: Target) -> bool
    ensures { result ≡ tables.may_stand attribute target }
{
    match target {
        Target::Loop => matches!(&attribute, KnownAttribute::Unroll | KnownAttribute::Loop),
        Target::Function => matches!(
            &attribute,
            KnownAttribute::Shader | KnownAttribute::NumThreads
        ),
        Target::Global => matches!(&attribute, KnownAttribute::Binding),
        Target::Method => matches!(&attribute, KnownAttribute::Mutating),
        Target::Other => false,
    }
}
