// The call that does all that the program does.

ghost use Rattle.std.specs.Prelude.{◌≡◌, ◌≤◌, Some, [], IfOk, IsErrOf, map, string_bytes};
ghost use Rattle.slang_store.specs.Contents.{Contents};
ghost use Rattle.slang_store.specs.Counts.{Rose};
ghost use Rattle.run_command.specs.Views as run_view;
ghost use Rattle.run_command.specs.Views.{IsBounded};
ghost use Rattle.slang_cli.specs.Commands.{Request, text_name, command_of};
ghost use Rattle.slang_cli.specs.Commands as request;
ghost use Rattle.slang_outcomes.specs.Lines as lines;
ghost use Rattle.slang_cli.specs.Answers.{printed, printed_for};
ghost use Rattle.slang_parse.specs.Parsing.{text_limit};
ghost use Rattle.slang_store.specs.Finds.{FoundWithin, IsFound};
ghost use Rattle.slang_cli.specs.Outside.{Prints, IsTheAnswer, Runs};
ghost use Rattle.slang_cli.specs.Views as view;
ghost use Rattle.slang_cli.specs.Views.{IsNamed, IsSound};
ghost use Rattle.slang_cli.specs.declared.answer.Halt.TheVariants.{Read};

use crate::answer::{Answer, Halt};
use crate::command::{Command, Compile, parse};
use crate::compile::{compile_found, text_file};
use crate::runs::run_answer;
use run_command::{Run, run};
use slang_names::limits;
use slang_outcomes::Outcome;
use slang_store::{FileFault, Files, Found, Sink, write_all};
use std::alloc::Global;

/// Reads the text of a module.
fn read_text<F: Files>(alloc: Global, files: &mut F, home: &[u8]) -> Result<Found, Halt>
    ensures found { (m : Contents) → F.told files.old ≡ Some m → IfOk result (IsFound text_limit (m (text_name home.now))) }
    ensures within { IfOk result (FoundWithin text_limit) }
    ensures failed { IsErrOf result Read → Rose (F.read_faults files.old) (F.read_faults files.new) }
    ensures no_fault_lost { F.read_faults files.old ≤ F.read_faults files.new }
    ensures stays { F.told files.new ≡ F.told files.old }
    ensures puts_stay { F.put_faults files.new ≡ F.put_faults files.old }
{
    let Ok(name) = text_file(alloc, home) else {
        return Err(Halt::Memory);
    };
    match files.read(alloc, &name, limits::TEXT_BYTES) {
        Ok(found) => Ok(found),
        Err(FileFault::Failed) => Err(Halt::Read),
        Err(FileFault::Memory(_)) => Err(Halt::Memory),
    }
}

/// Prints the line of a status. A fault of the sink is the status then.
fn report<S: Sink>(out: &mut S, status: Outcome, line: &[u8]) -> Outcome
    ensures prints { Prints (record { bytes = S.taken out.old; faults = S.faults out.old })
        (record { bytes = S.taken out.new; faults = S.faults out.new }) status line.now result }
    ensures no_fault_lost { S.faults out.old ≤ S.faults out.new }
{
    match write_all(out, line) {
        Ok(()) => status,
        Err(_) => Outcome::WriteFault,
    }
}

/// Carries `compile` out up to what is to be put and printed.
fn carry_compile<F: Files>(
    alloc: Global,
    files: &mut F,
    command: Compile<'_>,
) -> Result<Answer, Halt>
    requires { IsNamed command }
    ensures answer { IfOk result (λ a. IsTheAnswer (view.compile command.entry)
        (record { contents = F.told files.old; reads = F.read_faults files.old; puts = F.put_faults files.old }) (view.answer a)) }
    ensures line { IfOk result (λ a. view.line_of a ≡ printed_for [] (view.answer a)) }
    ensures failed { IsErrOf result Read → Rose (F.read_faults files.old) (F.read_faults files.new) }
    ensures no_fault_lost { F.read_faults files.old ≤ F.read_faults files.new }
    ensures stays { F.told files.new ≡ F.told files.old }
    ensures puts_stay { F.put_faults files.new ≡ F.put_faults files.old }
{
    let found = read_text(alloc, files, command.home)?;
    match compile_found(
        alloc,
        command.module,
        command.entry,
        command.image,
        command.home,
        found,
    ) {
        Ok(answer) => Ok(answer),
        Err(_) => Err(Halt::Memory),
    }
}

/// Carries `run` out up to what is to be put and printed.
fn carry_run<F: Files>(alloc: Global, files: &mut F, command: Run<'_>) -> Result<Answer, Halt>
    requires { IsBounded command }
    ensures answer { IfOk result (λ a. IsTheAnswer (request.Run (run_view.request command.entry))
        (record { contents = F.told files.old; reads = F.read_faults files.old; puts = F.put_faults files.old }) (view.answer a)) }
    ensures line { IfOk result (λ a. view.line_of a ≡ printed_for command.entry.entry.now (view.answer a)) }
    ensures failed { IsErrOf result Read → Rose (F.read_faults files.old) (F.read_faults files.new) }
    ensures no_fault_lost { F.read_faults files.old ≤ F.read_faults files.new }
    ensures stays { F.told files.new ≡ F.told files.old }
    ensures puts_stay { F.put_faults files.new ≡ F.put_faults files.old }
{
    match run(alloc, files, command) {
        Ok(came) => match run_answer(alloc, command, came) {
            Ok(answer) => Ok(answer),
            Err(_) => Err(Halt::Memory),
        },
        Err(FileFault::Failed) => Err(Halt::Read),
        Err(FileFault::Memory(_)) => Err(Halt::Memory),
    }
}

/// Carries a command out up to what is to be put and printed.
fn carry_out<F: Files>(alloc: Global, files: &mut F, command: Command<'_>) -> Result<Answer, Halt>
    requires { IsSound command }
    ensures answer { IfOk result (λ a. IsTheAnswer (view.command command.entry)
        (record { contents = F.told files.old; reads = F.read_faults files.old; puts = F.put_faults files.old }) (view.answer a)) }
    ensures line { IfOk result (λ a. view.line_of a ≡ printed (view.command command.entry) (view.answer a)) }
    ensures failed { IsErrOf result Read → Rose (F.read_faults files.old) (F.read_faults files.new) }
    ensures no_fault_lost { F.read_faults files.old ≤ F.read_faults files.new }
    ensures stays { F.told files.new ≡ F.told files.old }
    ensures puts_stay { F.put_faults files.new ≡ F.put_faults files.old }
{
    match command {
        Command::Compile(command) => carry_compile(alloc, files, command),
        Command::Run(command) => carry_run(alloc, files, command),
    }
}

/// Gives the file of an answer its bytes, and then prints the answer's line.
fn deliver<F: Files, S: Sink>(files: &mut F, out: &mut S, answer: Answer) -> Outcome
    ensures runs { (c : Request) → view.line_of answer ≡ printed c (view.answer answer) → IsTheAnswer c
        (record { contents = F.told files.old; reads = F.read_faults files.old; puts = F.put_faults files.old }) (view.answer answer)
        → Runs (Some c)
        (record { contents = F.told files.old; reads = F.read_faults files.old; puts = F.put_faults files.old })
        (record { contents = F.told files.new; reads = F.read_faults files.new; puts = F.put_faults files.new })
        (record { bytes = S.taken out.old; faults = S.faults out.old })
        (record { bytes = S.taken out.new; faults = S.faults out.new }) result }
    ensures no_read_fault_lost { F.read_faults files.old ≤ F.read_faults files.new }
    ensures no_put_fault_lost { F.put_faults files.old ≤ F.put_faults files.new }
    ensures no_fault_lost { S.faults out.old ≤ S.faults out.new }
{
    match answer {
        Answer::Refuses { status, line } => report(out, status, line.as_slice()),
        Answer::Puts { name, bytes, line } => match files.put(&name, bytes.as_slice()) {
            Ok(()) => report(out, Outcome::Done, line.as_slice()),
            Err(FileFault::Failed) => Outcome::WriteFault,
            Err(FileFault::Memory(_)) => report(out, Outcome::Memory, b"memory\n"),
        },
    }
}

/// The whole call: the words are told apart, the command is carried out, and its answer is put and printed.
pub fn call<F: Files, S: Sink>(
    alloc: Global,
    words: &[String],
    files: &mut F,
    out: &mut S,
) -> Outcome
    ensures runs { Runs (command_of (map string_bytes words.now))
        (record { contents = F.told files.old; reads = F.read_faults files.old; puts = F.put_faults files.old })
        (record { contents = F.told files.new; reads = F.read_faults files.new; puts = F.put_faults files.new })
        (record { bytes = S.taken out.old; faults = S.faults out.old })
        (record { bytes = S.taken out.new; faults = S.faults out.new }) result }
    ensures no_read_fault_lost { F.read_faults files.old ≤ F.read_faults files.new }
    ensures no_put_fault_lost { F.put_faults files.old ≤ F.put_faults files.new }
    ensures no_fault_lost { S.faults out.old ≤ S.faults out.new }
{
    let Some(command) = parse(words) else {
        return report(out, Outcome::Words, b"words\n");
    };
    match carry_out(alloc, files, command) {
        Ok(answer) => deliver(files, out, answer),
        Err(Halt::Read) => report(out, Outcome::ReadFault, b"read\n"),
        Err(Halt::Memory) => report(out, Outcome::Memory, b"memory\n"),
    }
}
