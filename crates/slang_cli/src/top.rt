// The one call that does all that the program does, with all that may be relied on.

ghost use Rattle.std.specs.Prelude.{◌≡◌, ◌≢◌, ◌⊎◌, ◌≤◌, ℕ, List, ◌++◌, Some, None, map, string_bytes};
ghost use Rattle.slang_names.specs.declared.names.Ref.{Ref};
ghost use Rattle.slang_store.specs.Contents.{Contents, IsPrefixOf};
ghost use Rattle.slang_store.specs.Counts.{Rose};
ghost use Rattle.slang_cli.specs.Commands.{Request, Compile, command_of, asked_of};
ghost use Rattle.slang_outcomes.specs.Lines.{refusal_line};
ghost use Rattle.slang_cli.specs.Calls.{WhereSettled, WhereRefused, Answered, MayHold, HoldsWhole, IsLine, MayPrint, IsDoneLine, Means};
ghost use Rattle.slang_outcomes.specs.declared.outcome.Outcome.TheVariants.{Done, Words, ReadFault, WriteFault};

use crate::calls::call;
use first_image::{image_is_spelled, words_mean_source};
use slang_outcomes::Outcome;
use slang_store::{Files, Sink, an_entry_changes_one_name};
use std::alloc::Global;
use tree_form::forms_are_shaders;
use valid_first_image::{the_entry_is_told, the_image_is_valid};

/// Does what the words after the program's name ask for, over these files, and prints one line to `out`.
///
/// The outcome is the exit status. A command reads first, then checks, and puts at most one file, after all reads and
/// checks; its line is printed last. Where the files tell what they hold, the outcome, the file that is put and the line
/// are those of the command's one answer, unless a fault of the outside or want of memory cut the call short.
pub fn slangc<F: Files, S: Sink>(
    alloc: Global,
    words: &[String],
    files: &mut F,
    out: &mut S,
) -> Outcome
    // The words are no command exactly where the status says so, or the sink failed on that line.
    ensures words_alone { result ≡ Words → command_of (map string_bytes words.now) ≡ None }
    ensures words_always { command_of (map string_bytes words.now) ≡ None → (result ≡ Words) ⊎ (result ≡ WriteFault) }

    // The answer to a command, with what is put and printed.
    ensures answer { (m : Contents) → F.told files.old ≡ Some m
        → (command : Request) → command_of (map string_bytes words.now) ≡ Some command
        → WhereSettled result (Answered command m result (F.told files.new)
        (record { bytes = S.taken out.old; faults = S.faults out.old })
        (record { bytes = S.taken out.new; faults = S.faults out.new })) }

    // The words that are put spell a valid image, which has the entry's name and the text's sizes of a group, are read from
    // their bytes again, and do what the text means: for all built-in values, lengths, answers to reads and bounds.
    ensures means { (m : Contents) → F.told files.old ≡ Some m
        → (entry : Ref) (image home : List ℕ) → command_of (map string_bytes words.now) ≡ Some (Compile entry image home)
        → result ≡ Done → (n : Contents) × (F.told files.new ≡ Some n) × Means entry image home m n }

    // A fault is answered only where it was counted in this call.
    ensures read_fault { result ≡ ReadFault → Rose (F.read_faults files.old) (F.read_faults files.new) }
    ensures write_fault { result ≡ WriteFault
        → Rose (F.put_faults files.old) (F.put_faults files.new) ⊎ Rose (S.faults out.old) (S.faults out.new) }

    // Nothing was put but with status 0, or in part or whole with status 5.
    ensures kept { (m : Contents) → F.told files.old ≡ Some m
        → result ≢ Done → result ≢ WriteFault → F.told files.new ≡ Some m }
    ensures put_in_part { (m : Contents) → F.told files.old ≡ Some m
        → result ≡ WriteFault → MayHold (command_of (map string_bytes words.now)) m (F.told files.new) }

    // Where no put failed, what was to be put stands whole or not at all. With status 5, where the sink did not fail, a put
    // did, and nothing was printed.
    ensures put_whole { (m : Contents) → F.told files.old ≡ Some m
        → (Rose (F.put_faults files.old) (F.put_faults files.new) → ⊥)
        → HoldsWhole (command_of (map string_bytes words.now)) m (F.told files.new) }
    ensures nothing_printed { result ≡ WriteFault
        → (Rose (S.faults out.old) (S.faults out.new) → ⊥) → S.taken out.new ≡ S.taken out.old }

    // One line is printed, or with status 5 a part of one. The sink alone has to tell; where the files tell too, the answer
    // says which line it is.
    ensures line { (b : List ℕ) → S.taken out.old ≡ Some b
        → WhereRefused result (S.taken out.new ≡ Some (b ++ refusal_line (asked_of (command_of (map string_bytes words.now))) result)) }
    ensures done_line { (b : List ℕ) → S.taken out.old ≡ Some b → result ≡ Done
        → (line : List ℕ) × IsDoneLine (command_of (map string_bytes words.now)) line × (S.taken out.new ≡ Some (b ++ line)) }
    ensures part_of_a_line { (b : List ℕ) → S.taken out.old ≡ Some b → result ≡ WriteFault
        → (line p : List ℕ) × MayPrint (command_of (map string_bytes words.now)) line × IsPrefixOf p line
        × (S.taken out.new ≡ Some (b ++ p)) }
    ensures line_in_part { (m : Contents) → F.told files.old ≡ Some m → (b : List ℕ) → S.taken out.old ≡ Some b
        → result ≡ WriteFault → (line p : List ℕ) × IsLine (command_of (map string_bytes words.now)) m line × IsPrefixOf p line
        × (S.taken out.new ≡ Some (b ++ p)) }

    // No count falls.
    ensures no_read_fault_lost { F.read_faults files.old ≤ F.read_faults files.new }
    ensures no_put_fault_lost { F.put_faults files.old ≤ F.put_faults files.new }
    ensures no_fault_lost { S.faults out.old ≤ S.faults out.new }
{
    words_mean_source();
    image_is_spelled();
    the_image_is_valid();
    the_entry_is_told();
    forms_are_shaders();
    an_entry_changes_one_name();
    call(alloc, words, files, out)
}
