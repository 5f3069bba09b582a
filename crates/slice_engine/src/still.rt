// Does what a command asks, in one thread.

ghost use Rattle.std.specs.Prelude.{◌≡◌, ℕ, Ok, IsSome};
ghost use Rattle.std.specs.List.{All};
ghost use Rattle.std.specs.Str.{IsUtf8};
ghost use Rattle.cli_words.specs.declared.command.Command.TheVariants as command;
ghost use Rattle.cli_words.specs.Command.{IsTask, IsSound, item_names, names_of};
ghost use Rattle.slice_engine.specs.Reads.{CommandReads, read_faults};
ghost use Rattle.slice_engine.specs.Inner.Answered.{refusal_in};
ghost use Rattle.outside.specs.Output.{Output};
ghost use Rattle.outside.specs.Store.{Store};
ghost use Rattle.slice_engine.specs.Answers.{SaysEnd, write_faults};
ghost use Rattle.slice_engine.specs.Inner.Feeding.{stop_refusal};

use crate::done::Done;
use crate::planning::{Sample, plan_sample, plan_task};
use crate::totals::{totals_of, unplanned_totals};
use crate::uses::uses;
use crate::writing::{Stop, Written, write_file};
use answers::{Generated, Refusal};
use cli_words::{Command, Task};
use outside::{Shelf, Sink};
use slice_base::Text;
use std::alloc::Global;

/// The refusal that tells why a file wasn't written to its end.
pub(crate) fn stop_refusal(stop: Stop) -> Refusal
    ensures { result ≡ stop_refusal stop }
{
    match stop {
        Stop::Memory => Refusal::NoMemory,
        Stop::Write => Refusal::WriteFault,
    }
}

// Slices the job of a task into the file that it names.
fn slice_still<Sh: Shelf, Si: Sink>(
    alloc: Global,
    task: Task,
    shelf: &mut Sh,
    sink: Si,
) -> (Result<Done, Refusal>, Si)
    requires task { IsTask task }
    requires writes { IsSome task.out }
    requires names { All IsUtf8 (item_names task.items) }
    ensures serial { SaysEnd result.0 (Ok (command.Serial task)) (Sh.store shelf.old) (Sh.store shelf.new)
        (Si.output sink) (Si.output result.1) }
    ensures slice { SaysEnd result.0 (Ok (command.Slice task)) (Sh.store shelf.old) (Sh.store shelf.new)
        (Si.output sink) (Si.output result.1) }
    ensures reads { CommandReads (Ok (command.Serial task)) (refusal_in result.0) (Sh.store shelf.old)
        (Sh.store shelf.new) }
    ensures read_faults { (Sh.store shelf.new).faults ≡ read_faults (refusal_in result.0) (Sh.store shelf.old).faults }
    ensures write_faults { (Si.output result.1).faults ≡ write_faults (refusal_in result.0) (Si.output sink).faults }
{
    let job = match plan_task(alloc, &task, shelf) {
        Ok(job) => job,
        Err(refusal) => return (Err(refusal), sink),
    };
    let Task { out, .. } = task;
    let Some(name) = out else { unreachable!() };
    let Written {
        wrote,
        bytes: _,
        spent,
        sink,
    } = write_file(alloc, &job, name, sink);
    match wrote {
        Ok(()) => {
            let totals = totals_of(&job, &spent);
            (Ok(Done::Sliced { totals }), sink)
        }
        Err(stop) => (Err(stop_refusal(stop)), sink),
    }
}

// Works out the job of a task, and writes nothing.
fn check<Sh: Shelf>(alloc: Global, task: Task, shelf: &mut Sh) -> Result<Done, Refusal>
    requires task { IsTask task }
    requires names { All IsUtf8 (item_names task.items) }
    ensures says { (o : Output)
        → SaysEnd result (Ok (command.Check task)) (Sh.store shelf.old) (Sh.store shelf.new) o o }
    ensures reads { CommandReads (Ok (command.Check task)) (refusal_in result) (Sh.store shelf.old)
        (Sh.store shelf.new) }
    ensures read_faults { (Sh.store shelf.new).faults ≡ read_faults (refusal_in result) (Sh.store shelf.old).faults }
{
    let job = plan_task(alloc, &task, shelf)?;
    Ok(Done::Checked {
        totals: unplanned_totals(&job),
    })
}

// Draws a job by its number, and slices it into a file of that name.
fn draw<Si: Sink>(alloc: Global, number: u32, name: Text, sink: Si) -> (Result<Done, Refusal>, Si)
    ensures says { (shelf : Store) → SaysEnd result.0 (Ok (command.Gen number name)) shelf shelf (Si.output sink)
        (Si.output result.1) }
    ensures read_faults { (n : ℕ) → n ≡ read_faults (refusal_in result.0) n }
    ensures write_faults { (Si.output result.1).faults ≡ write_faults (refusal_in result.0) (Si.output sink).faults }
{
    let Sample { job, triangles } = match plan_sample(alloc, number) {
        Ok(sample) => sample,
        Err(refusal) => return (Err(refusal), sink),
    };
    let Ok(uses) = uses(alloc, &job) else {
        return (Err(Refusal::NoMemory), sink);
    };
    let Written {
        wrote,
        bytes,
        spent,
        sink,
    } = write_file(alloc, &job, name, sink);
    match wrote {
        Ok(()) => {
            let told = Generated {
                number,
                triangles,
                layers: job.layers.len() as u32,
                uses: uses.uses,
                preheats: uses.switches,
                bytes,
            };
            let totals = totals_of(&job, &spent);
            (Ok(Done::Drawn { told, totals }), sink)
        }
        Err(stop) => (Err(stop_refusal(stop)), sink),
    }
}

/// Does what a command asks: works out its job, and writes the file, where it names one, layers planned one after
/// another.
pub(crate) fn do_still<Sh: Shelf, Si: Sink>(
    alloc: Global,
    command: Command,
    shelf: &mut Sh,
    sink: Si,
) -> (Result<Done, Refusal>, Si)
    requires sound { IsSound command }
    requires names { All IsUtf8 (names_of command) }
    ensures says { SaysEnd result.0 (Ok command) (Sh.store shelf.old) (Sh.store shelf.new) (Si.output sink)
        (Si.output result.1) }
    ensures reads { CommandReads (Ok command) (refusal_in result.0) (Sh.store shelf.old) (Sh.store shelf.new) }
    ensures read_faults { (Sh.store shelf.new).faults ≡ read_faults (refusal_in result.0) (Sh.store shelf.old).faults }
    ensures write_faults { (Si.output result.1).faults ≡ write_faults (refusal_in result.0) (Si.output sink).faults }
{
    match command {
        Command::Slice(task) => slice_still(alloc, task, shelf, sink),
        Command::Serial(task) => slice_still(alloc, task, shelf, sink),
        Command::Check(task) => (check(alloc, task, shelf), sink),
        Command::Gen { number, out } => draw(alloc, number, out, sink),
    }
}
