// Laws of texts, each the contract of a function that does nothing.

ghost use Rattle.std.specs.Prelude.{◌≡◌, ◌⊎◌, ℕ, ◌-◌, ◌≤◌, ◌++◌, List, length, take, Some, None};
ghost use Rattle.slang_names.specs.declared.places.Place.{Place};
ghost use Rattle.slang_names.specs.declared.codes.ModuleCode.{ModuleCode};
ghost use Rattle.slang_tree.specs.declared.file.File.{File};
ghost use Rattle.slang_tokens.specs.declared.tokens.Token.{Token};
ghost use Rattle.slang_tokens.specs.Cutting.{Tokens};
ghost use Rattle.slang_reading.specs.Lexed.{Lexed, lexed_all};
ghost use Rattle.slang_reading.specs.Reading.{Done, Stop, Past};
ghost use Rattle.type_reading.specs.Limited.{language};
ghost use Rattle.declaration_grammar.specs.Declarations.{FileAt};
ghost use Rattle.expression_limits.specs.Breaks.{Break};
ghost use Rattle.statement_limits.specs.Order.{IsKnownFirst};
ghost use Rattle.declaration_limits.specs.Declarations.{file_break, file_breaks};
ghost use Rattle.file_reading.specs.Wholes.{outcome};
ghost use Rattle.slang_parse.specs.Parsing.{Spells, IsRefused, FirstWrong, GoesOn, text_limit};

use declaration_ends::{files_are_spelled, files_go_on, limits_go_on};
use declaration_fits::files_are_answered;
use declaration_laws::files_are_read;
use declaration_limits::files_tell_the_limit;
use fitting_laws::what_is_read_fits;
use slang_tokens::{cut_or_refused, one_cutting};

/// A text spells a file within the limits or is refused, and not both; it spells one file, and is refused at one place with
/// one code. The descent answers the file that is spelled.
pub fn a_text_is_parsed_or_refused()
    ensures answered { (text : List ℕ) (file : File) (s : Spells text file) → (to seen : ℕ) × (outcome text s.tokens ≡ Done file to seen) }
    ensures all { (text : List ℕ) → ((file : File) × Spells text file) ⊎ ((place : Place) × (code : ModuleCode) × IsRefused text place code) }
    ensures not_both { (text : List ℕ) (file : File) (place : Place) (code : ModuleCode) → Spells text file → IsRefused text place code → ⊥ }
    ensures one_file { (text : List ℕ) (a b : File) → Spells text a → Spells text b → a ≡ b }
    ensures one_refusal { (text : List ℕ) (p q : Place) (a b : ModuleCode) → IsRefused text p a → IsRefused text q b → (p ≡ q) × (a ≡ b) }
{
    files_are_spelled();
    files_are_answered();
    what_is_read_fits();
    cut_or_refused();
    one_cutting();
}

/// Where the descent stops in a text, the last token that it looked at is the first with which no file goes on.
pub fn wrong_tokens_are_the_first()
    ensures { (text : List ℕ) (tokens : List Token) (seen : ℕ) → outcome text tokens ≡ Stop seen → FirstWrong (lexed_all text tokens) (seen - 1) }
{
    files_go_on();
    files_are_read();
}

/// Tokens spell one file, whatever limits and rules on attributes it breaks.
pub fn tokens_spell_one_file()
    ensures { (ts : List Lexed) (x y : File) → FileAt ts x → FileAt ts y → y ≡ x }
{
    files_are_answered();
    files_are_read();
}

/// Where the tokens of a text spell a file, the text is parsed exactly where the file breaks no limit and no rule on
/// attributes, and is else refused with the first that it breaks: no other is known at an earlier token, and at one token a
/// node that is too deep goes before a list or a name that is too long. Where the descent passes a limit in any text, some file
/// begins with the tokens before the last one that it looked at, ahead or not; and each file of no more than 1,048,576 tokens
/// that begins with all that it looked at breaks that limit first.
pub fn the_first_break_is_told()
    ensures unbroken { (text : List ℕ) (tokens : List Token) (file : File) (spelled : FileAt (lexed_all text tokens) file)
        → length text ≤ text_limit → Tokens text tokens → file_break (lexed_all text tokens) language spelled 64 ≡ None → Spells text file }
    ensures broken { (text : List ℕ) (tokens : List Token) (file : File) (spelled : FileAt (lexed_all text tokens) file) (b : Break)
        → length text ≤ text_limit → Tokens text tokens → file_break (lexed_all text tokens) language spelled 64 ≡ Some b
        → (seen : ℕ) × (outcome text tokens ≡ Past b.code b.place seen) }
    ensures first { (ts : List Lexed) (file : File) (spelled : FileAt ts file) (b : Break)
        → file_break ts language spelled 64 ≡ Some b → IsKnownFirst ts 0 (length ts) b (file_breaks ts language spelled 64) }
    ensures goes_on { (text : List ℕ) (tokens : List Token) (code : ModuleCode) (place : Place) (seen : ℕ)
        → outcome text tokens ≡ Past code place seen → GoesOn (take (seen - 1) (lexed_all text tokens)) }
    ensures of_files { (text : List ℕ) (tokens : List Token) (code : ModuleCode) (place : Place) (seen : ℕ) (more : List Lexed) (file : File)
        → outcome text tokens ≡ Past code place seen → seen ≤ length (lexed_all text tokens)
        → (spelled : FileAt (take seen (lexed_all text tokens) ++ more) file) → length (take seen (lexed_all text tokens) ++ more) ≤ text_limit
        → (b : Break) × (file_break (take seen (lexed_all text tokens) ++ more) language spelled 64 ≡ Some b) × (code ≡ b.code) × (place ≡ b.place) }
{
    files_are_spelled();
    files_are_answered();
    what_is_read_fits();
    cut_or_refused();
    one_cutting();
    limits_go_on();
    files_tell_the_limit();
}
