// The words of a command line.

ghost use Rattle.std.specs.Prelude.{◌≡◌, ◌≤◌, ◌==◌, map, string_bytes, length, drop, position, bytes_eq, codes, IfSome};
ghost use Rattle.std.specs.Option.{option_map};
ghost use Rattle.slang_cli.specs.Commands as spec;
ghost use Rattle.slang_cli.specs.Views.{optional_compile, optional_command, IsNamed, IsSound};

use command_words::{is_file_name, is_short_name};
use run_command::{Run, parse_run};

/// A command with its words.
#[derive(Clone, Copy)]
pub enum Command<'a> {
    Compile(Compile<'a>),
    Run(Run<'a>),
}

/// What `compile MODULE.ENTRY IMAGE HOME` asks for, as parts of these words: to make the image of the entry from the
/// text of the module `home`.
#[derive(Clone, Copy)]
pub struct Compile<'a> {
    pub module: &'a [u8],
    pub entry: &'a [u8],
    pub image: &'a [u8],
    pub home: &'a [u8],
}

fn dot_in(word: &[u8]) -> Option<usize>
    ensures { result ≡ position (λ b. b == 46) word.now }
{
    word.iter().position(|b| *b == b'.')
}

/// The bytes behind the first `count` ones.
fn behind(word: &[u8], count: usize) -> &[u8]
    requires { count ≤ length word.now }
    ensures { result.now ≡ drop count word.now }
{
    &word[count..]
}

/// The two names of a word, which are parted by its first dot.
fn entry_of(word: &[u8]) -> Option<(&[u8], &[u8])>
    ensures { option_map (λ names. record { «module» = names.0.now; path = names.1.now }) result ≡ spec.entry_of word.now }
{
    match dot_in(word) {
        None => None,
        Some(dot) => {
            let module = &word[..dot];
            let entry = behind(word, dot + 1);
            if is_short_name(module) && is_short_name(entry) {
                Some((module, entry))
            } else {
                None
            }
        }
    }
}

fn is_compile(verb: &[u8]) -> bool
    ensures { result ≡ bytes_eq verb.now (codes "compile") }
{
    verb == b"compile".as_slice()
}

fn is_run(verb: &[u8]) -> bool
    ensures { result ≡ bytes_eq verb.now (codes "run") }
{
    verb == b"run".as_slice()
}

fn compile_of<'a>(entry: &'a [u8], image: &'a [u8], home: &'a [u8]) -> Option<Compile<'a>>
    ensures command { optional_compile result ≡ spec.compile_of (spec.entry_of entry.now) image.now home.now }
    ensures named { IfSome result IsNamed }
{
    let (module, entry) = entry_of(entry)?;
    if is_file_name(image) && is_short_name(home) {
        Some(Compile {
            module,
            entry,
            image,
            home,
        })
    } else {
        None
    }
}

/// What the words behind `compile` ask for, if they are a command.
fn parse_compile(words: &[String]) -> Option<Compile<'_>>
    ensures command { optional_compile result ≡ spec.compile_words (map string_bytes words.now) }
    ensures named { IfSome result IsNamed }
{
    if words.len() != 3 {
        return None;
    }
    compile_of(
        words[0].as_bytes(),
        words[1].as_bytes(),
        words[2].as_bytes(),
    )
}

/// The command of a verb and the words behind it.
fn with_verb<'a>(verb: &[u8], words: &'a [String]) -> Option<Command<'a>>
    ensures command { optional_command result ≡ spec.with_verb verb.now (map string_bytes words.now) }
    ensures sound { IfSome result IsSound }
{
    if is_compile(verb) {
        match parse_compile(words) {
            Some(compile) => Some(Command::Compile(compile)),
            None => None,
        }
    } else if is_run(verb) {
        match parse_run(words) {
            Some(run) => Some(Command::Run(run)),
            None => None,
        }
    } else {
        None
    }
}

/// The command that the words are, if they are one. It takes no memory.
pub fn parse(words: &[String]) -> Option<Command<'_>>
    ensures command { optional_command result ≡ spec.command_of (map string_bytes words.now) }
    ensures sound { IfSome result IsSound }
{
    match words {
        [] => None,
        [verb, rest @ ..] => with_verb(verb.as_bytes(), rest),
    }
}
