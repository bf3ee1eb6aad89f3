// The line that is printed at the end of a call.

ghost use Rattle.std.specs.Prelude.{◌≡◌, ◌∷◌, [], IfOk, map, string_bytes, codes};
ghost use Rattle.std.specs.Fmt.{decimal};
ghost use Rattle.slang_names.specs.declared.faults.LinkCause.TheVariants as link;
ghost use Rattle.slang_outcomes.specs.declared.outcome.Outcome.TheVariants.{ModuleRefused, LinkRefused, FormRefused, ImageRefused, InputRefused};
ghost use Rattle.slang_outcomes.specs.Lines as spec;

use crate::Outcome;
use slang_names::{Counted, FormCode, LinkCause, ModuleCode, Name, Place, Ref, RunCause};
use spirv_words::ImageCode;
use std::alloc::{AllocError, Global};

/// The line of a word and further words, each behind a space, with a line feed.
pub fn line(alloc: Global, first: &[u8], more: &[&[u8]]) -> Result<Vec<u8>, AllocError>
    ensures { IfOk result (λ line. line.items ≡ spec.line first.now (map (λ word. word.now) more.now)) }
{
    let mut line = Vec::from_slice(alloc, first)?;
    for word in more {
        line.push(b' ')?;
        line.extend_from_slice(word)?;
    }
    line.push(b'\n')?;
    Ok(line)
}

/// A number in decimal digits.
pub fn number(alloc: Global, n: u64) -> Result<String, AllocError>
    ensures { IfOk result (λ text. string_bytes text ≡ decimal n) }
{
    n.to_string(alloc)
}

fn wide_number(alloc: Global, n: u128) -> Result<String, AllocError>
    ensures { IfOk result (λ text. string_bytes text ≡ decimal n) }
{
    n.to_string(alloc)
}

/// A module and a path with a dot.
fn dotted(alloc: Global, r: &Ref) -> Result<Vec<u8>, AllocError>
    ensures { IfOk result (λ text. text.items ≡ spec.dotted r.now) }
{
    let mut text = Vec::from_slice(alloc, r.module.as_bytes())?;
    text.push(b'.')?;
    text.extend_from_slice(r.path.as_bytes())?;
    Ok(text)
}

fn counted_word(counted: Counted) -> &'static [u8]
    ensures { result.now ≡ spec.counted_word counted }
{
    match counted {
        Counted::Instances => b"instances",
        Counted::Types => b"types",
        Counted::Words => b"words",
        Counted::Instruction => b"instruction",
    }
}

/// The line of an outcome that is no success: its word, and its values. Of a fault in writing nothing is printed.
/// The entry is that which was asked for, where one was to be run.
pub fn refusal_line(alloc: Global, entry: &[u8], status: &Outcome) -> Result<Vec<u8>, AllocError>
    ensures { IfOk result (λ line. line.items ≡ spec.refusal_line entry.now status.now) }
{
    match status {
        Outcome::Done | Outcome::WriteFault => Ok(Vec::new(alloc)),
        Outcome::ModuleRefused {
            module,
            place,
            code,
        } => module_line(alloc, module, *place, *code),
        Outcome::LinkRefused(cause) => link_line(alloc, cause),
        Outcome::Words => line(alloc, b"words", &[]),
        Outcome::ReadFault => line(alloc, b"read", &[]),
        Outcome::Memory => line(alloc, b"memory", &[]),
        Outcome::Undefined { invocation, step } => {
            let invocation = number(alloc, u64::from(*invocation))?;
            let step = number(alloc, *step)?;
            line(
                alloc,
                b"undefined",
                &[invocation.as_bytes(), step.as_bytes()],
            )
        }
        Outcome::Budget { invocation } => {
            let invocation = number(alloc, u64::from(*invocation))?;
            line(alloc, b"budget", &[invocation.as_bytes()])
        }
        Outcome::Absent { name } => line(alloc, b"absent", &[name.as_bytes()]),
        Outcome::FormRefused { name, place, code } => form_line(alloc, name, *place, *code),
        Outcome::ImageRefused { place, code } => image_line(alloc, *place, *code),
        Outcome::InputRefused(cause) => input_line(alloc, entry, *cause),
    }
}

fn module_line(
    alloc: Global,
    module: &Name,
    place: Place,
    code: ModuleCode,
) -> Result<Vec<u8>, AllocError>
    ensures { IfOk result (λ line. line.items ≡ spec.refusal_line [] (ModuleRefused «module».now place code)) }
{
    let printed = number(alloc, u64::from(code.number()))?;
    placed_line(
        alloc,
        module.as_bytes(),
        printed.as_bytes(),
        code.name().as_bytes(),
        place,
    )
}

fn placed_line(
    alloc: Global,
    module: &[u8],
    code: &[u8],
    name: &[u8],
    place: Place,
) -> Result<Vec<u8>, AllocError>
    ensures { IfOk result (λ l. l.items ≡ spec.line (codes "refused")
        («module».now ∷ code.now ∷ name.now ∷ decimal place.start ∷ decimal place.end ∷ [])) }
{
    let start = number(alloc, u64::from(place.start))?;
    let end = number(alloc, u64::from(place.end))?;
    five_words(
        alloc,
        b"refused",
        module,
        code,
        name,
        start.as_bytes(),
        end.as_bytes(),
    )
}

fn form_line(alloc: Global, name: &Name, place: u64, code: FormCode) -> Result<Vec<u8>, AllocError>
    ensures { IfOk result (λ line. line.items ≡ spec.refusal_line [] (FormRefused name.now place code)) }
{
    let printed = number(alloc, u64::from(code.number()))?;
    let place = number(alloc, place)?;
    four_words(
        alloc,
        b"form",
        name.as_bytes(),
        printed.as_bytes(),
        code.name().as_bytes(),
        place.as_bytes(),
    )
}

fn five_words(
    alloc: Global,
    first: &[u8],
    a: &[u8],
    b: &[u8],
    c: &[u8],
    d: &[u8],
    e: &[u8],
) -> Result<Vec<u8>, AllocError>
    ensures { IfOk result (λ l. l.items ≡ spec.line first.now (a.now ∷ b.now ∷ c.now ∷ d.now ∷ e.now ∷ [])) }
{
    line(alloc, first, &[a, b, c, d, e])
}

fn image_line(alloc: Global, place: u64, code: ImageCode) -> Result<Vec<u8>, AllocError>
    ensures { IfOk result (λ line. line.items ≡ spec.refusal_line [] (ImageRefused place code)) }
{
    let printed = number(alloc, u64::from(code.number()))?;
    let place = number(alloc, place)?;
    three_words(
        alloc,
        b"image",
        printed.as_bytes(),
        code.name().as_bytes(),
        place.as_bytes(),
    )
}

fn three_words(
    alloc: Global,
    first: &[u8],
    a: &[u8],
    b: &[u8],
    c: &[u8],
) -> Result<Vec<u8>, AllocError>
    ensures { IfOk result (λ l. l.items ≡ spec.line first.now (a.now ∷ b.now ∷ c.now ∷ [])) }
{
    line(alloc, first, &[a, b, c])
}

fn four_words(
    alloc: Global,
    first: &[u8],
    a: &[u8],
    b: &[u8],
    c: &[u8],
    d: &[u8],
) -> Result<Vec<u8>, AllocError>
    ensures { IfOk result (λ l. l.items ≡ spec.line first.now (a.now ∷ b.now ∷ c.now ∷ d.now ∷ [])) }
{
    line(alloc, first, &[a, b, c, d])
}

fn input_line(alloc: Global, entry: &[u8], cause: RunCause) -> Result<Vec<u8>, AllocError>
    ensures { IfOk result (λ line. line.items ≡ spec.refusal_line entry.now (InputRefused cause)) }
{
    match cause {
        RunCause::NoEntry => line(alloc, b"input", &[b"506", b"NoEntry", entry]),
        RunCause::BufferText { place } => {
            let place = number(alloc, place)?;
            line(alloc, b"input", &[b"504", b"BufferText", place.as_bytes()])
        }
        RunCause::DispatchLimit { product } => {
            let product = wide_number(alloc, product)?;
            line(
                alloc,
                b"input",
                &[b"505", b"DispatchLimit", product.as_bytes()],
            )
        }
        RunCause::BufferMissing { set, binding } => {
            let set = number(alloc, u64::from(set))?;
            let binding = number(alloc, u64::from(binding))?;
            line(
                alloc,
                b"input",
                &[b"503", b"BufferMissing", set.as_bytes(), binding.as_bytes()],
            )
        }
    }
}

fn counted_line(
    alloc: Global,
    code: &[u8],
    name: &[u8],
    counted: Counted,
    count: u32,
) -> Result<Vec<u8>, AllocError>
    ensures { IfOk result (λ l. l.items ≡ spec.line (codes "link") (code.now ∷ name.now ∷ spec.counted_word counted ∷ decimal count ∷ [])) }
{
    let count = number(alloc, u64::from(count))?;
    four_words(
        alloc,
        b"link",
        code,
        name,
        counted_word(counted),
        count.as_bytes(),
    )
}

fn conformances_line(
    alloc: Global,
    subject: &Ref,
    interface: &Ref,
    first: &Name,
    second: &Name,
) -> Result<Vec<u8>, AllocError>
    ensures { IfOk result (λ l. l.items ≡ spec.refusal_line [] (LinkRefused (link.ConformsTwice subject.now interface.now first.now second.now))) }
{
    let subject = dotted(alloc, subject)?;
    let interface = dotted(alloc, interface)?;
    line(
        alloc,
        b"link",
        &[
            b"204",
            b"ConformsTwice",
            subject.as_slice(),
            interface.as_slice(),
            first.as_bytes(),
            second.as_bytes(),
        ],
    )
}

fn key_line(alloc: Global, code: &[u8], name: &[u8], key: &Name) -> Result<Vec<u8>, AllocError>
    ensures { IfOk result (λ l. l.items ≡ spec.line (codes "link") (code.now ∷ name.now ∷ key.now ∷ [])) }
{
    line(alloc, b"link", &[code, name, key.as_bytes()])
}

fn pair_line(
    alloc: Global,
    code: &[u8],
    name: &[u8],
    first: &Name,
    second: &Name,
) -> Result<Vec<u8>, AllocError>
    ensures { IfOk result (λ l. l.items ≡ spec.line (codes "link") (code.now ∷ name.now ∷ first.now ∷ second.now ∷ [])) }
{
    line(
        alloc,
        b"link",
        &[code, name, first.as_bytes(), second.as_bytes()],
    )
}

fn link_line(alloc: Global, cause: &LinkCause) -> Result<Vec<u8>, AllocError>
    ensures { IfOk result (λ line. line.items ≡ spec.refusal_line [] (LinkRefused cause.now)) }
{
    match cause {
        LinkCause::ModuleCount { count } => {
            let count = number(alloc, *count)?;
            line(alloc, b"link", &[b"217", b"ModuleCount", count.as_bytes()])
        }
        LinkCause::ModuleTwice { module } => key_line(alloc, b"201", b"ModuleTwice", module),
        LinkCause::ModuleMissing { holder, missing } => {
            pair_line(alloc, b"202", b"ModuleMissing", holder, missing)
        }
        LinkCause::Stale { holder, module } => pair_line(alloc, b"203", b"Stale", holder, module),
        LinkCause::ConformsTwice {
            subject,
            interface,
            first,
            second,
        } => conformances_line(alloc, subject, interface, first, second),
        LinkCause::NoEntry { entry } => {
            let entry = dotted(alloc, entry)?;
            line(alloc, b"link", &[b"209", b"NoEntry", entry.as_slice()])
        }
        LinkCause::TooMany { counted, count } => {
            counted_line(alloc, b"210", b"TooMany", *counted, *count)
        }
        LinkCause::TooDeep { key } => key_line(alloc, b"211", b"TooDeep", key),
        LinkCause::InfiniteType { key } => key_line(alloc, b"213", b"InfiniteType", key),
        LinkCause::ArrayLength { key } => key_line(alloc, b"214", b"ArrayLength", key),
        LinkCause::Recursion { key, callee } => {
            pair_line(alloc, b"212", b"Recursion", key, callee)
        }
        LinkCause::DataType { parameter } => key_line(alloc, b"218", b"DataType", parameter),
        LinkCause::BindingClash { first, second } => {
            pair_line(alloc, b"215", b"BindingClash", first, second)
        }
        LinkCause::ImageLimit { counted, count } => {
            counted_line(alloc, b"216", b"ImageLimit", *counted, *count)
        }
    }
}
