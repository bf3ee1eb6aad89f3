// The answer of the command `run`.

ghost use Rattle.std.specs.Prelude.{◌≡◌, ◌∷◌, [], IfOk};
ghost use Rattle.std.specs.Fmt.{decimal};
ghost use Rattle.slang_outcomes.specs.Lines as lines;
ghost use Rattle.run_command.specs.Views as run_view;
ghost use Rattle.slang_cli.specs.Answers.{Puts, answer_of, printed_for};
ghost use Rattle.slang_cli.specs.Views as view;

use crate::answer::Answer;
use crate::compile::refuses;
use run_command::{Run, RunAnswer};
use slang_names::Name;
use slang_outcomes::{Outcome, line, number};
use std::alloc::{AllocError, Global};

/// The line of a run that came to its end: how many invocations there were, and how many steps they took.
fn counts_line(alloc: Global, invocations: u32, steps: u64) -> Result<Vec<u8>, AllocError>
    ensures { IfOk result (λ l. l.items ≡ lines.line (decimal invocations) (decimal steps ∷ [])) }
{
    let invocations = number(alloc, u64::from(invocations))?;
    let steps = number(alloc, steps)?;
    line(alloc, invocations.as_bytes(), &[steps.as_bytes()])
}

/// The text of the buffers is put, and the counts are printed.
fn buffers_put(
    alloc: Global,
    out: &[u8],
    text: Vec<u8>,
    invocations: u32,
    steps: u64,
) -> Result<Answer, AllocError>
    ensures puts { IfOk result (λ a. view.answer a ≡ Puts out.now text.items (lines.line (decimal invocations) (decimal steps ∷ []))) }
    ensures line { IfOk result (λ a. view.line_of a ≡ lines.line (decimal invocations) (decimal steps ∷ [])) }
{
    let line = counts_line(alloc, invocations, steps)?;
    let name = Name::from_slice(alloc, out)?;
    Ok(Answer::Puts {
        name,
        bytes: text,
        line,
    })
}

/// The answer of a run that came to this.
pub fn run_answer(alloc: Global, run: Run<'_>, came: RunAnswer) -> Result<Answer, AllocError>
    ensures answer { IfOk result (λ a. view.answer a ≡ answer_of (run_view.request run.entry) (run_view.came came)) }
    ensures line { IfOk result (λ a. view.line_of a ≡ printed_for run.entry.entry.now (view.answer a)) }
{
    match came {
        RunAnswer::Absent { name } => refuses(alloc, run.entry, Outcome::Absent { name }),
        RunAnswer::ImageRefused { place, code } => {
            refuses(alloc, run.entry, Outcome::ImageRefused { place, code })
        }
        RunAnswer::InputRefused(cause) => refuses(alloc, run.entry, Outcome::InputRefused(cause)),
        RunAnswer::Undefined { invocation, step } => {
            refuses(alloc, run.entry, Outcome::Undefined { invocation, step })
        }
        RunAnswer::Budget { invocation } => {
            refuses(alloc, run.entry, Outcome::Budget { invocation })
        }
        RunAnswer::Ran {
            text,
            invocations,
            steps,
        } => buffers_put(alloc, run.out, text, invocations, steps),
    }
}
