// A run over its image and its buffers.

ghost use Rattle.std.specs.Prelude.{◌≡◌, ◌↔◌, List, ℕ, IfOk, IsTrue};
ghost use Rattle.spirv_check.specs.Entry.{entry_name};
ghost use Rattle.run_buffers.specs.Texts.{IsTextOf, text_of};
ghost use Rattle.run_buffers.specs.Refusals.{IfTextRefused};
ghost use Rattle.run_command.specs.Files.{WrongBuffers};
ghost use Rattle.run_command.specs.Answers.{OfDispatch, OverImage, OverFiles};
ghost use Rattle.run_command.specs.Answers as answers;
ghost use Rattle.run_command.specs.Views as view;
ghost use Rattle.run_command.specs.Views.{IsBounded, HeldWithin, HeldIs, IsStop, IsImageStop};

use crate::answer::RunAnswer;
use crate::images::image_of;
use crate::reads::Held;
use crate::request::Run;
use run_buffers::{Buffers, RunFault};
use slang_names::{Name, RunCause, limits};
use spirv_check::ValidImage;
use spirv_run::{Ran, Runner, dispatch};
use spirv_words::{ImageCode, ImageFault};
use std::alloc::{AllocError, Global};

/// What a run comes to that stops with this fault.
fn stopped(fault: RunFault) -> Result<RunAnswer, AllocError>
    ensures { IfOk result (λ a. IsStop fault (view.came a)) }
{
    match fault {
        RunFault::Refused(cause) => Ok(RunAnswer::InputRefused(cause)),
        RunFault::Undefined { invocation, step } => Ok(RunAnswer::Undefined { invocation, step }),
        RunFault::Budget { invocation } => Ok(RunAnswer::Budget { invocation }),
        RunFault::Memory(e) => Err(e),
    }
}

/// What a run comes to whose invocations all ended.
fn ended(alloc: Global, ran: Ran, buffers: &Buffers) -> Result<RunAnswer, AllocError>
    ensures { IfOk result (λ a. view.came a ≡ answers.Ran (text_of buffers.now) ran.invocations ran.steps) }
{
    let text = buffers.write(alloc)?;
    Ok(RunAnswer::Ran {
        text,
        invocations: ran.invocations,
        steps: ran.steps,
    })
}

/// The run over the buffers of the text.
fn dispatched(
    alloc: Global,
    run: Run<'_>,
    image: ValidImage,
    buffers: Buffers,
) -> Result<RunAnswer, AllocError>
    requires { IsBounded run }
    ensures { IfOk result (λ a. OfDispatch image (view.request run.entry) buffers (view.came a)) }
{
    let entry = Name::from_slice(alloc, run.entry)?;
    let mut runner = Runner::new(alloc, image)?;
    let mut buffers = buffers;
    match dispatch(&mut runner, &entry, run.groups, run.steps, &mut buffers) {
        Ok(ran) => ended(alloc, ran, &buffers),
        Err(fault) => stopped(fault),
    }
}

/// The buffers of the text in a file.
fn buffers_of(alloc: Global, held: Held) -> Result<Buffers, RunFault>
    requires { HeldWithin held }
    ensures text { (bytes : List ℕ) → HeldIs held bytes → IfOk result (IsTextOf bytes) }
    ensures wrong { (bytes : List ℕ) → HeldIs held bytes → IfTextRefused result (WrongBuffers bytes) }
{
    match held {
        Held::Bytes(bytes) => Buffers::read(alloc, bytes.as_slice()),
        Held::TooLong => Err(RunFault::Refused(RunCause::BufferText {
            place: limits::BUFFERS_BYTES as u64,
        })),
    }
}

/// Whether the image's entry has this name.
fn is_entry(entry: &[u8], image: &ValidImage) -> bool
    ensures { IsTrue result ↔ (entry.now ≡ entry_name image.now.instructions) }
{
    entry == image.entry_name().as_bytes()
}

/// The run of an image over the buffers in a file.
fn over_image(
    alloc: Global,
    run: Run<'_>,
    image: ValidImage,
    buffers: Held,
) -> Result<RunAnswer, AllocError>
    requires bounded { IsBounded run }
    requires within { HeldWithin buffers }
    ensures { (text : List ℕ) → HeldIs buffers text → IfOk result (λ a. OverImage image (view.request run.entry) text (view.came a)) }
{
    if !is_entry(run.entry, &image) {
        return Ok(RunAnswer::InputRefused(RunCause::NoEntry));
    }
    match buffers_of(alloc, buffers) {
        Ok(buffers) => dispatched(alloc, run, image, buffers),
        Err(fault) => stopped(fault),
    }
}

/// What a run comes to whose image is not taken for this fault.
fn image_stopped(fault: ImageFault) -> Result<RunAnswer, AllocError>
    ensures { IfOk result (λ a. IsImageStop fault (view.came a)) }
{
    match fault {
        ImageFault::Refused { place, code } => Ok(RunAnswer::ImageRefused { place, code }),
        ImageFault::Memory(e) => Err(e),
    }
}

/// The run over what both files hold.
pub fn over_files(
    alloc: Global,
    run: Run<'_>,
    image: Held,
    buffers: Held,
) -> Result<RunAnswer, AllocError>
    requires bounded { IsBounded run }
    requires image_within { HeldWithin image }
    requires buffers_within { HeldWithin buffers }
    ensures { (code text : List ℕ) → HeldIs image code → HeldIs buffers text
        → IfOk result (λ a. OverFiles (view.request run.entry) code text (view.came a)) }
{
    let Held::Bytes(bytes) = image else {
        return Ok(RunAnswer::ImageRefused {
            place: limits::IMAGE_BYTES as u64,
            code: ImageCode::FileLimit,
        });
    };
    match image_of(alloc, bytes.as_slice()) {
        Ok(image) => over_image(alloc, run, image, buffers),
        Err(fault) => image_stopped(fault),
    }
}
