// The command over files.

ghost use Rattle.std.specs.Prelude.{◌≡◌, ◌≤◌, Some, IfOk, IsErrOf};
ghost use Rattle.slang_store.specs.Contents.{Contents};
ghost use Rattle.slang_store.specs.Counts.{Rose};
ghost use Rattle.slang_store.specs.declared.files.FileFault.TheVariants.{Failed};
ghost use Rattle.run_command.specs.Answers.{Absent, Comes};
ghost use Rattle.run_command.specs.Views as view;
ghost use Rattle.run_command.specs.Views.{IsBounded};

use crate::answer::RunAnswer;
use crate::reads::read_held;
use crate::request::Run;
use crate::running::over_files;
use slang_names::Name;
use slang_store::{FileFault, Files};
use std::alloc::Global;

/// That a file is not there.
fn absent(alloc: Global, name: &[u8]) -> Result<RunAnswer, FileFault>
    ensures answer { IfOk result (λ a. view.came a ≡ Absent name.now) }
    ensures failed { IsErrOf result Failed → ⊥ }
{
    match Name::from_slice(alloc, name) {
        Ok(name) => Ok(RunAnswer::Absent { name }),
        Err(e) => Err(FileFault::Memory(e)),
    }
}

/// What a run comes to: the image and the buffers are read, and then the run is tried. It puts nothing.
pub fn run<F: Files>(alloc: Global, files: &mut F, run: Run<'_>) -> Result<RunAnswer, FileFault>
    requires { IsBounded run }
    ensures comes { (m : Contents) → F.told files.old ≡ Some m → IfOk result (λ a. Comes m (view.request run.entry) (view.came a)) }
    ensures failed { IsErrOf result Failed → Rose (F.read_faults files.old) (F.read_faults files.new) }
    ensures no_fault_lost { F.read_faults files.old ≤ F.read_faults files.new }
    ensures stays { F.told files.new ≡ F.told files.old }
    ensures puts_stay { F.put_faults files.new ≡ F.put_faults files.old }
{
    let Some(image) = read_held(alloc, files, run.image)? else {
        return absent(alloc, run.image);
    };
    let Some(buffers) = read_held(alloc, files, run.buffers)? else {
        return absent(alloc, run.buffers);
    };
    match over_files(alloc, run, image, buffers) {
        Ok(answer) => Ok(answer),
        Err(e) => Err(FileFault::Memory(e)),
    }
}
