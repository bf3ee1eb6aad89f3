// What the files of a run hold.

ghost use Rattle.std.specs.Prelude.{◌≡◌, ◌≤◌, ℕ, List, Option, Some, IfSome, IfOk, IsErrOf};
ghost use Rattle.slang_store.specs.Contents.{Contents};
ghost use Rattle.slang_store.specs.Counts.{Rose};
ghost use Rattle.slang_store.specs.Finds.{FoundWithin, IsFound};
ghost use Rattle.slang_store.specs.declared.files.FileFault.TheVariants.{Failed};
ghost use Rattle.run_command.specs.Files.{file_limit};
ghost use Rattle.run_command.specs.Views.{HeldWithin, IsRead};

use slang_names::{Name, limits};
use slang_store::{FileFault, Files, Found};
use std::alloc::Global;

/// What a file of a run holds: its bytes, or more than such a file may have.
#[derive(Drop)]
pub enum Held {
    Bytes(Vec<u8>),
    TooLong,
}

/// What was found, if there is such a file.
fn in_file(found: Found) -> Option<Held>
    requires { FoundWithin file_limit found }
    ensures read { (there : Option (List ℕ)) → IsFound file_limit there found → IsRead there result }
    ensures within { IfSome result HeldWithin }
{
    match found {
        Found::Bytes(bytes) => Some(Held::Bytes(bytes)),
        Found::TooLong => Some(Held::TooLong),
        Found::Absent => None,
    }
}

/// What a file of a run holds, if there is one.
pub fn read_held<F: Files>(
    alloc: Global,
    files: &mut F,
    name: &[u8],
) -> Result<Option<Held>, FileFault>
    ensures read { (m : Contents) → F.told files.old ≡ Some m → IfOk result (IsRead (m name.now)) }
    ensures within { IfOk result (λ held. IfSome held HeldWithin) }
    ensures failed { IsErrOf result Failed → Rose (F.read_faults files.old) (F.read_faults files.new) }
    ensures no_fault_lost { F.read_faults files.old ≤ F.read_faults files.new }
    ensures stays { F.told files.new ≡ F.told files.old }
    ensures puts_stay { F.put_faults files.new ≡ F.put_faults files.old }
{
    let name = match Name::from_slice(alloc, name) {
        Ok(name) => name,
        Err(e) => return Err(FileFault::Memory(e)),
    };
    match files.read(alloc, &name, limits::IMAGE_BYTES) {
        Ok(found) => Ok(in_file(found)),
        Err(fault) => Err(fault),
    }
}
