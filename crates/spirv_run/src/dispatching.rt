// The invocations of a dispatch, one after another.

ghost use Rattle.std.specs.Prelude.{◌≡◌, ℕ, List, ◌*◌, ◌≤◌, Result};
ghost use Rattle.run_buffers.specs.declared.buffer.Buffer.{Buffer};
ghost use Rattle.run_buffers.specs.declared.faults.RunFault.{RunFault};
ghost use Rattle.run_buffers.specs.Invocations.{volume};
ghost use Rattle.spirv_check.specs.Entry.{group_size};
ghost use Rattle.spirv_run.specs.declared.ran.Ran.{Ran};
ghost use Rattle.spirv_run.specs.Dispatch.{IsRun, IsDispatch};
ghost use Rattle.spirv_run.specs.Machines.{image_of};
ghost use Rattle.spirv_run.specs.Going.{IsReady, HasFinished};

use crate::finish::Finish;
use crate::ran::Ran;
use crate::runner::Runner;
use crate::turns::Turn;
use run_buffers::{Buffers, Ids, RunFault, ids_of, invocation_count};
use slang_names::{Name, RunCause};

/// Runs groups of invocations of an image, one invocation after another, each within so many steps. It takes no memory. After
/// `Undefined` and `Budget` the buffers hold what the steps so far wrote.
pub fn dispatch(
    runner: &mut Runner,
    entry: &Name,
    groups: [u32; 3],
    steps: u64,
    buffers: &mut Buffers,
) -> Result<Ran, RunFault>
    requires { steps ≤ 100000000 }
    ensures is { IsDispatch (image_of runner.old) entry.now groups steps buffers.old result buffers.new }
    ensures only { (answer : Result Ran RunFault) (after : List Buffer) → IsDispatch (image_of runner.old) entry.now groups steps buffers.old answer after
        → (result ≡ answer) × (buffers.new ≡ after) }
    ensures image { image_of runner.new ≡ image_of runner.old }
{
    dispatched(runner, entry, groups, steps, buffers)
}

fn dispatched(
    runner: &mut Runner,
    entry: &Name,
    groups: [u32; 3],
    steps: u64,
    buffers: &mut Buffers,
) -> Result<Ran, RunFault>
    requires { steps ≤ 100000000 }
    ensures is { IsDispatch (image_of runner.old) entry.now groups steps buffers.old result buffers.new }
    ensures image { image_of runner.new ≡ image_of runner.old }
{
    if !entry.is(runner.entry_name().as_bytes()) {
        return Err(RunFault::Refused(RunCause::NoEntry));
    }
    let size = runner.group_size();
    let count = match invocation_count(size, groups) {
        Ok(count) => count,
        Err(cause) => return Err(RunFault::Refused(cause)),
    };
    match runner.look_up(buffers) {
        Some(bound) => Err(RunFault::Refused(RunCause::BufferMissing {
            set: bound.set,
            binding: bound.binding,
        })),
        None => run_all(runner, size, groups, count, steps, buffers),
    }
}

/// Runs so many invocations.
fn run_all(
    runner: &mut Runner,
    size: [u32; 3],
    groups: [u32; 3],
    count: u32,
    steps: u64,
    buffers: &mut Buffers,
) -> Result<Ran, RunFault>
    requires count { volume groups * volume size ≡ count }
    requires few { count ≤ 65536 }
    requires steps { steps ≤ 100000000 }
    requires ready { IsReady runner.old buffers.old }
    ensures runs { IsRun (image_of runner.old) size groups steps count buffers.old result buffers.new }
    ensures image { image_of runner.new ≡ image_of runner.old }
{
    let mut total = 0;
    for n in 0..count {
        match run_one(runner, &ids_of(size, groups, n), steps, buffers) {
            Finish::Ended(step) => total += step,
            Finish::Undefined(step) => {
                return Err(RunFault::Undefined {
                    invocation: n,
                    step,
                });
            }
            Finish::Unfinished => return Err(RunFault::Budget { invocation: n }),
        }
    }
    Ok(Ran {
        invocations: count,
        steps: total,
    })
}

/// Runs one invocation.
fn run_one(runner: &mut Runner, ids: &Ids, steps: u64, buffers: &mut Buffers) -> Finish
    requires { IsReady runner.old buffers.old }
    ensures ready { IsReady runner.new buffers.new }
    ensures finished { HasFinished (image_of runner.old) ids.now steps buffers.old result buffers.new }
    ensures image { image_of runner.new ≡ image_of runner.old }
{
    runner.restart(ids);
    let mut step = 0;
    while step < steps {
        step += 1;
        match runner.go_on(buffers) {
            Turn::Going => {}
            Turn::Ended => return Finish::Ended(step),
            Turn::Undefined => return Finish::Undefined(step),
        }
    }
    Finish::Unfinished
}
