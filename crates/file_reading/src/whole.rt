// A whole text.

ghost use Rattle.std.specs.Prelude.{◌≡◌, ◌<◌, ◌≤◌, ◌^◌, ℕ, List, length, drop, IfOk};
ghost use Rattle.slang_reading.specs.Lexed.{lexed_all};
ghost use Rattle.slang_reading.specs.Reading.{first};
ghost use Rattle.ahead_reading.specs.Knowing.{Knows};
ghost use Rattle.slang_names.specs.declared.places.Place.{Place};
ghost use Rattle.slang_names.specs.declared.codes.ModuleCode.{ModuleCode};
ghost use Rattle.slang_names.specs.declared.codes.ModuleCode.TheVariants as code;
ghost use Rattle.slang_tokens.specs.declared.tokens.Token.{Token};
ghost use Rattle.slang_tokens.specs.Cutting as cutting;
ghost use Rattle.file_reading.specs.Wholes as spec;

use ahead_reading::Scans;
use declaration_reading::files;
use slang_names::limits::{NESTING, TEXT_BYTES};
use slang_names::{ModuleCode, ModuleFault, Place};
use slang_reading::{Fault, Tokens};
use slang_tokens::{Token, lex};
use slang_tree::File;
use std::alloc::{AllocError, Global};
use type_reading::LANGUAGE;

/// Where the token of that index lies, or the empty place at the end of a text of so many bytes.
fn lies(tokens: &[Token], at: usize, end: usize) -> Place
    requires { end < 2 ^ 32 }
    ensures { result ≡ spec.lies (first (drop at tokens.now)) end }
{
    match tokens.get(at) {
        Some(token) => token.place,
        None => Place {
            start: end as u32,
            end: end as u32,
        },
    }
}

/// What is known of the scans of a text with these tokens.
fn scans_of(alloc: Global, text: &[u8], tokens: &[Token]) -> Result<Scans, AllocError>
    ensures { IfOk result (λ scans. Knows scans (lexed_all text.now tokens.now)) }
{
    Scans::new(alloc, tokens)
}

/// What the descent makes of the tokens of a text.
fn read_tokens(alloc: Global, text: &[u8], tokens: &[Token]) -> Result<File, ModuleFault>
    requires room { length text.now ≤ 1048576 }
    requires few { length tokens.now ≤ length text.now }
    ensures { spec.Follows tokens.now (length text.now) (spec.outcome text.now tokens.now) result }
{
    let scans = match scans_of(alloc, text, tokens) {
        Ok(scans) => scans,
        Err(error) => return Err(ModuleFault::Memory(error)),
    };
    let mut cursor = Tokens::new(text, tokens);
    match files(alloc, LANGUAGE, &scans, &mut cursor, NESTING) {
        Ok(file) => Ok(file),
        Err(Fault::Memory(error)) => Err(ModuleFault::Memory(error)),
        Err(Fault::Stopped) => Err(ModuleFault::Refused {
            place: lies(tokens, cursor.last(), text.len()),
            code: ModuleCode::Syntax,
        }),
        Err(Fault::Past(code, place)) => Err(ModuleFault::Refused { place, code }),
    }
}

/// The file that a text spells: exactly what the descent makes of its tokens, with the limits of the language. A text over
/// 1,048,576 bytes is refused at its end, then one with a lexeme that is no token, at the first of them.
pub fn read_file(alloc: Global, text: &[u8]) -> Result<File, ModuleFault>
    ensures long { 1048576 < length text.now → spec.Refuses (record { start = 1048576; end = 1048576 }) code.TooLong result }
    ensures cut { (place : Place) (code : ModuleCode) → length text.now ≤ 1048576 → cutting.Refuses text.now 0 place code → spec.Refuses place code result }
    ensures read { (tokens : List Token) → length text.now ≤ 1048576 → cutting.Tokens text.now tokens → spec.Follows tokens (length text.now) (spec.outcome text.now tokens) result }
{
    if text.len() > TEXT_BYTES {
        let end = TEXT_BYTES as u32;
        return Err(ModuleFault::Refused {
            place: Place { start: end, end },
            code: ModuleCode::TooLong,
        });
    }
    match lex(alloc, text) {
        Ok(tokens) => read_tokens(alloc, text, tokens.as_slice()),
        Err(fault) => Err(fault),
    }
}
