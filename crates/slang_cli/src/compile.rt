// The command `compile`: from a module's text to the image of its entry.

ghost use Rattle.std.specs.Prelude.{ℕ, List, ◌≡◌, ◌<◌, ◌^◌, ◌↔◌, ◌∷◌, [], All, Some, IfOk, OnOk, length, IsTrue};
ghost use Rattle.std.specs.Fmt.{decimal};
ghost use Rattle.slang_store.specs.Contents.{Contents};
ghost use Rattle.spirv_words.specs.Words.{image_words};
ghost use Rattle.spirv_words.specs.Bytes.{bytes_of_words};
ghost use Rattle.first_form.specs.Shaders.{IsShader};
ghost use Rattle.first_form.specs.declared.shader.Shader.{Shader};
ghost use Rattle.tree_form.specs.Forms.{form_of};
ghost use Rattle.slang_parse.specs.Parsing.{Spells};
ghost use Rattle.first_image.specs.Image.{image_of};
ghost use Rattle.command_words.specs.Words.{is_short_name};
ghost use Rattle.slang_cli.specs.Commands.{text_name};
ghost use Rattle.slang_outcomes.specs.Lines as lines;
ghost use Rattle.slang_cli.specs.Answers.{Compiles, Refuses, Puts, printed_for, puts_image, IsEntry, OfShader, HasNarrowWords, HasNarrowForm, ImageIsTold, IfPuts};
ghost use Rattle.slang_parse.specs.Parsing.{text_limit};
ghost use Rattle.slang_outcomes.specs.declared.outcome.Outcome.TheVariants.{ModuleRefused, LinkRefused};
ghost use Rattle.slang_names.specs.declared.faults.LinkCause.TheVariants.{NoEntry};
ghost use Rattle.slang_store.specs.Finds.{IsFound};
ghost use Rattle.slang_cli.specs.Views as view;

use crate::answer::Answer;
use first_form::Shader;
use first_image::{emit, image_is_short};
use form_sizes::forms_are_short;
use slang_names::{LinkCause, ModuleCode, ModuleFault, Name, Place, Ref, limits};
use slang_outcomes::{Outcome, line, number, refusal_line};
use slang_parse::{a_text_is_parsed_or_refused, parse};
use slang_store::Found;
use slang_tree::Tree;
use spirv_words::{to_bytes, write};
use std::alloc::{AllocError, Global};
use tree_form::{forms_are_shaders, shader_of};

/// The file of a module's text.
pub fn text_file(alloc: Global, home: &[u8]) -> Result<Name, AllocError>
    ensures { IfOk result (λ name. name ≡ text_name home.now) }
{
    let mut name = Vec::from_slice(alloc, home)?;
    name.extend_from_slice(b".slang")?;
    Ok(Name::new(name))
}

/// The refusal with its line, where this entry was asked to be run.
pub fn refuses(alloc: Global, entry: &[u8], status: Outcome) -> Result<Answer, AllocError>
    ensures { IfOk result (λ a. (view.answer a ≡ Refuses status) × (view.line_of a ≡ lines.refusal_line entry.now status)) }
{
    let line = refusal_line(alloc, entry, &status)?;
    Ok(Answer::Refuses { status, line })
}

fn module_refused(
    alloc: Global,
    home: &[u8],
    place: Place,
    code: ModuleCode,
) -> Result<Answer, AllocError>
    ensures { IfOk result (λ a. (view.answer a ≡ Refuses (ModuleRefused home.now place code))
        × (view.line_of a ≡ printed_for [] (view.answer a))) }
{
    let module = Name::from_slice(alloc, home)?;
    refuses(
        alloc,
        b"",
        Outcome::ModuleRefused {
            module,
            place,
            code,
        },
    )
}

fn no_entry(alloc: Global, module: &[u8], entry: &[u8]) -> Result<Answer, AllocError>
    ensures { IfOk result (λ a. (view.answer a ≡ Refuses (LinkRefused (NoEntry (record { «module» = «module».now; path = entry.now }))))
        × (view.line_of a ≡ printed_for [] (view.answer a))) }
{
    let entry = Ref {
        module: Name::from_slice(alloc, module)?,
        path: Name::from_slice(alloc, entry)?,
    };
    refuses(
        alloc,
        b"",
        Outcome::LinkRefused(LinkCause::NoEntry { entry }),
    )
}

/// The words of a shader's image.
fn image_words_of(alloc: Global, home: &Name, shader: &Shader) -> Result<Vec<u32>, AllocError>
    requires shader { IsShader shader.now }
    requires few { length shader.now.statements < 2 ^ 20 }
    requires home { IsTrue (is_short_name home.now) }
    ensures { IfOk result (λ words. words.items ≡ image_words (image_of home.now shader.now)) }
{
    let made = emit(alloc, home, shader)?;
    let words = write(alloc, &made)?;
    Ok(words)
}

/// The line that tells how many words an image has.
fn image_line(alloc: Global, image: &[u8], words: &[u32]) -> Result<Vec<u8>, AllocError>
    ensures { IfOk result (λ l. l.items ≡ lines.line image.now (decimal (length words.now) ∷ [])) }
{
    let count = number(alloc, words.len() as u64)?;
    line(alloc, image, &[count.as_bytes()])
}

/// The words as the bytes of a file, with the line that tells how many there are.
fn words_put(alloc: Global, image: &[u8], words: &[u32]) -> Result<Answer, AllocError>
    ensures puts { IfOk result (λ a. view.answer a ≡ Puts image.now (bytes_of_words words.now) (lines.line image.now (decimal (length words.now) ∷ []))) }
    ensures line { IfOk result (λ a. view.line_of a ≡ printed_for [] (view.answer a)) }
    ensures narrow { All (λ w. w < 2 ^ 32) words.now }
{
    let line = image_line(alloc, image, words)?;
    let bytes = to_bytes(alloc, words)?;
    let name = Name::from_slice(alloc, image)?;
    Ok(Answer::Puts { name, bytes, line })
}

/// The image of a shader as the bytes of a file.
fn image_put(
    alloc: Global,
    image: &[u8],
    home: &[u8],
    shader: &Shader,
) -> Result<Answer, AllocError>
    requires shader { IsShader shader.now }
    requires few { length shader.now.statements < 2 ^ 20 }
    requires home { IsTrue (is_short_name home.now) }
    ensures puts { IfOk result (λ a. view.answer a ≡ puts_image image.now home.now shader.now) }
    ensures line { IfOk result (λ a. view.line_of a ≡ printed_for [] (view.answer a)) }
    ensures narrow { OnOk result (HasNarrowWords home.now shader.now) }
{
    let name = Name::from_slice(alloc, home)?;
    let words = image_words_of(alloc, &name, shader)?;
    words_put(alloc, image, words.as_slice())
}

/// Whether the entry is that of the shader, in its module.
fn is_entry(module: &[u8], entry: &[u8], home: &[u8], shader: &Shader) -> bool
    ensures { IsTrue result ↔ IsEntry (record { «module» = «module».now; path = entry.now }) home.now shader.now }
{
    module == home && shader.entry.is(entry)
}

/// What `compile` answers to a shader.
fn compile_shader(
    alloc: Global,
    module: &[u8],
    entry: &[u8],
    image: &[u8],
    home: &[u8],
    shader: &Shader,
) -> Result<Answer, AllocError>
    requires shader { IsShader shader.now }
    requires few { length shader.now.statements < 2 ^ 20 }
    requires home { IsTrue (is_short_name home.now) }
    ensures answer { IfOk result (λ a. OfShader (record { «module» = «module».now; path = entry.now }) image.now home.now shader.now (view.answer a)) }
    ensures line { IfOk result (λ a. view.line_of a ≡ printed_for [] (view.answer a)) }
    ensures narrow { IfOk result (λ a. IfPuts (view.answer a) (HasNarrowWords home.now shader.now)) }
{
    if is_entry(module, entry, home, shader) {
        image_put(alloc, image, home, shader)
    } else {
        no_entry(alloc, module, entry)
    }
}

/// What `compile` answers to the tree of a text.
fn compile_tree(
    alloc: Global,
    module: &[u8],
    entry: &[u8],
    image: &[u8],
    home: &[u8],
    tree: &Tree,
) -> Result<Answer, AllocError>
    requires few { (shader : Shader) → form_of tree.now ≡ Some shader → length shader.statements < 2 ^ 20 }
    requires home { IsTrue (is_short_name home.now) }
    ensures answer { (m : Contents) (text : List ℕ) → m (text_name home.now) ≡ Some text → Spells text tree.now
        → IfOk result (λ a. Compiles m (record { «module» = «module».now; path = entry.now }) image.now home.now (view.answer a)) }
    ensures line { IfOk result (λ a. view.line_of a ≡ printed_for [] (view.answer a)) }
    ensures narrow { IfOk result (λ a. IfPuts (view.answer a) (HasNarrowForm home.now tree.now)) }
{
    forms_are_shaders();
    match shader_of(alloc, tree.file())? {
        None => module_refused(alloc, home, Place { start: 0, end: 0 }, ModuleCode::NotYet),
        Some(shader) => compile_shader(alloc, module, entry, image, home, &shader),
    }
}

/// What `compile` answers to a text.
fn compile_text(
    alloc: Global,
    module: &[u8],
    entry: &[u8],
    image: &[u8],
    home: &[u8],
    text: &[u8],
) -> Result<Answer, AllocError>
    requires home { IsTrue (is_short_name home.now) }
    ensures answer { (m : Contents) → m (text_name home.now) ≡ Some text.now
        → IfOk result (λ a. Compiles m (record { «module» = «module».now; path = entry.now }) image.now home.now (view.answer a)) }
    ensures line { IfOk result (λ a. view.line_of a ≡ printed_for [] (view.answer a)) }
    ensures told { (m : Contents) → m (text_name home.now) ≡ Some text.now
        → IfOk result (λ a. IfPuts (view.answer a) (ImageIsTold m home.now)) }
{
    a_text_is_parsed_or_refused();
    forms_are_shaders();
    forms_are_short();
    image_is_short();
    match parse(alloc, text) {
        Ok(tree) => compile_tree(alloc, module, entry, image, home, &tree),
        Err(ModuleFault::Refused { place, code }) => module_refused(alloc, home, place, code),
        Err(ModuleFault::Memory(error)) => Err(error),
    }
}

/// What `compile` answers to what was found under the name of the text.
pub fn compile_found(
    alloc: Global,
    module: &[u8],
    entry: &[u8],
    image: &[u8],
    home: &[u8],
    found: Found,
) -> Result<Answer, AllocError>
    requires home { IsTrue (is_short_name home.now) }
    ensures answer { (m : Contents) → IsFound text_limit (m (text_name home.now)) found
        → IfOk result (λ a. Compiles m (record { «module» = «module».now; path = entry.now }) image.now home.now (view.answer a)) }
    ensures line { IfOk result (λ a. view.line_of a ≡ printed_for [] (view.answer a)) }
    ensures told { (m : Contents) → IsFound text_limit (m (text_name home.now)) found
        → IfOk result (λ a. IfPuts (view.answer a) (ImageIsTold m home.now)) }
{
    match found {
        Found::Bytes(text) => compile_text(alloc, module, entry, image, home, text.as_slice()),
        Found::Absent => {
            let name = text_file(alloc, home)?;
            refuses(alloc, b"", Outcome::Absent { name })
        }
        Found::TooLong => {
            let end = limits::TEXT_BYTES as u32;
            module_refused(alloc, home, Place { start: end, end }, ModuleCode::TooLong)
        }
    }
}
