// The tokens of a text.

ghost use Rattle.std.specs.Prelude.{◌≡◌, ◌<◌, ◌^◌, length, IfOk, List, Err};
ghost use Rattle.slang_names.specs.declared.places.Place.{Place};
ghost use Rattle.slang_names.specs.declared.codes.ModuleCode.{ModuleCode};
ghost use Rattle.slang_names.specs.declared.faults.ModuleFault.TheVariants as fault;
ghost use Rattle.slang_tokens.specs.declared.tokens.Token.{Token};
ghost use Rattle.slang_tokens.specs.Cutting.{Tokens, Refuses, Finds};

use crate::bounds::longest;
use crate::lexemes::Lexeme;
use crate::tokens::Token;
use slang_names::{ModuleCode, ModuleFault, Place};
use sqlite_items::Items;
use std::alloc::Global;

/// The tokens of a text, which is cut into the longest lexemes with blanks and comments left out; or the refusal of
/// the first lexeme that is no token. The time is linear in the length of the text.
pub fn lex(alloc: Global, text: &[u8]) -> Result<Items<Token>, ModuleFault>
    requires { length text.now < 2 ^ 32 }
    ensures ok { IfOk result (λ list. Tokens text.now list) }
    ensures only { (list : List Token) → Tokens text.now list → Finds result list }
    ensures refused { (place : Place) (code : ModuleCode) → result ≡ Err (fault.Refused place code) → Refuses text.now 0 place code }
{
    let mut list = Items::new(alloc);
    let mut at = 0;
    while at < text.len() {
        let (found, len) = longest(&text[at..]);
        let start = at as u32;
        let end = (at + len) as u32;
        match found {
            Lexeme::Blank => {}
            Lexeme::Token(kind) => list
                .push(Token {
                    kind,
                    place: Place { start, end },
                })
                .map_err(ModuleFault::Memory)?,
            Lexeme::Refused(code) => {
                return Err(ModuleFault::Refused {
                    place: Place { start, end },
                    code,
                });
            }
            Lexeme::RunsOn => {
                return Err(ModuleFault::Refused {
                    place: Place {
                        start,
                        end: end - 1,
                    },
                    code: ModuleCode::BadToken,
                });
            }
        }
        at += len;
    }
    Ok(list)
}
