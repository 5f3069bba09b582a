// Does what a command asks, a slice by many workers.

ghost use Rattle.std.specs.Prelude.{◌≡◌, ℕ, false, [], Ok, Err, IsSome};
ghost use Rattle.std.specs.List.{All};
ghost use Rattle.std.specs.Str.{IsUtf8};
ghost use Rattle.cli_words.specs.declared.command.Command.TheVariants as command;
ghost use Rattle.cli_words.specs.Command.{IsTask, IsSound, item_names, names_of};
ghost use Rattle.slice_engine.specs.Reads.{CommandReads, read_faults};
ghost use Rattle.slice_engine.specs.Inner.Answered.{refusal_in};
ghost use Rattle.slice_engine.specs.Answers.{SaysEnd, SaysSlice, SaysWide, WriteFaultsWide, asks_journal, write_faults};

use crate::done::Done;
use crate::planning::plan_task_wide;
use crate::slicing::{Wide, write_wide};
use crate::still::{do_still, stop_refusal};
use crate::totals::totals_of;
use answers::Refusal;
use cli_words::{Command, Task};
use outside::{Gate, Shelf, Sink};
use ring_core::Event;
use std::alloc::Global;
use std::sync::Wait;
use std::thread::Threads;

/// How a command ended: what was done, or why it was refused; whether the lines of the journal were asked for; what
/// the workers did; and the sink.
pub(crate) struct WideEnd<S> {
    pub(crate) ended: Result<Done, Refusal>,
    pub(crate) is_asked: bool,
    pub(crate) journal: Vec<Event>,
    pub(crate) sink: S,
}

// Slices the job of a task into the file that it names, by as many workers as it says.
fn slice_wide<Sh: Shelf, Si: Sink + Send, G: Gate + Sync, R: Threads + Wait + Sync>(
    rt: &R,
    alloc: Global,
    task: Task,
    shelf: &mut Sh,
    sink: Si,
    gate: &G,
) -> WideEnd<Si>
    requires task { IsTask task }
    requires writes { IsSome task.out }
    requires names { All IsUtf8 (item_names task.items) }
    ensures says { SaysSlice result.ended task result.journal.items (Sh.store shelf.old) (Sh.store shelf.new)
        (Si.output sink) (Si.output result.sink) }
    ensures asked { result.is_asked ≡ task.journal }
    ensures reads { CommandReads (Ok (command.Slice task)) (refusal_in result.ended) (Sh.store shelf.old)
        (Sh.store shelf.new) }
    ensures read_faults { (Sh.store shelf.new).faults ≡ read_faults (refusal_in result.ended)
        (Sh.store shelf.old).faults }
    ensures write_faults { WriteFaultsWide (refusal_in result.ended) (Si.output sink).faults
        (Si.output result.sink).faults }
{
    let is_asked = task.journal;
    let workers = u32::from(task.workers);
    let job = match plan_task_wide(rt, alloc, &task, shelf) {
        Ok(job) => job,
        Err(refusal) => {
            return WideEnd {
                ended: Err(refusal),
                is_asked,
                journal: Vec::new(alloc),
                sink,
            };
        }
    };
    let Task { out, .. } = task;
    let Some(name) = out else { unreachable!() };
    let Wide {
        wrote,
        journal,
        spent,
        sink,
    } = write_wide(rt, alloc, &job, name, sink, workers, gate);
    let ended = match wrote {
        Ok(()) => Ok(Done::Sliced {
            totals: totals_of(&job, &spent),
        }),
        Err(stop) => Err(stop_refusal(stop)),
    };
    WideEnd {
        ended,
        is_asked,
        journal,
        sink,
    }
}

// Does in one thread what a command asks that is no slice.
fn end_still<Sh: Shelf, Si: Sink>(
    alloc: Global,
    command: Command,
    shelf: &mut Sh,
    sink: Si,
) -> WideEnd<Si>
    requires sound { IsSound command }
    requires names { All IsUtf8 (names_of command) }
    ensures says { SaysEnd result.ended (Ok command) (Sh.store shelf.old) (Sh.store shelf.new) (Si.output sink)
        (Si.output result.sink) }
    ensures journal { result.journal.items ≡ [] }
    ensures asked { result.is_asked ≡ false }
    ensures reads { CommandReads (Ok command) (refusal_in result.ended) (Sh.store shelf.old) (Sh.store shelf.new) }
    ensures read_faults { (Sh.store shelf.new).faults ≡ read_faults (refusal_in result.ended)
        (Sh.store shelf.old).faults }
    ensures write_faults { WriteFaultsWide (refusal_in result.ended) (Si.output sink).faults
        (Si.output result.sink).faults }
{
    let (ended, sink) = do_still(alloc, command, shelf, sink);
    WideEnd {
        ended,
        is_asked: false,
        journal: Vec::new(alloc),
        sink,
    }
}

/// Does what a command asks: works out its job, and writes the file, where it names one; the layers of a slice are
/// planned by many workers, and all else is done in one thread.
pub(crate) fn do_wide<Sh: Shelf, Si: Sink + Send, G: Gate + Sync, R: Threads + Wait + Sync>(
    rt: &R,
    alloc: Global,
    command: Command,
    shelf: &mut Sh,
    sink: Si,
    gate: &G,
) -> WideEnd<Si>
    requires sound { IsSound command }
    requires names { All IsUtf8 (names_of command) }
    ensures says { SaysWide result.ended (Ok command) result.journal.items (Sh.store shelf.old) (Sh.store shelf.new)
        (Si.output sink) (Si.output result.sink) }
    ensures asked { result.is_asked ≡ asks_journal (Ok command) }
    ensures reads { CommandReads (Ok command) (refusal_in result.ended) (Sh.store shelf.old) (Sh.store shelf.new) }
    ensures read_faults { (Sh.store shelf.new).faults ≡ read_faults (refusal_in result.ended)
        (Sh.store shelf.old).faults }
    ensures write_faults { WriteFaultsWide (refusal_in result.ended) (Si.output sink).faults
        (Si.output result.sink).faults }
{
    match command {
        Command::Slice(task) => slice_wide(rt, alloc, task, shelf, sink, gate),
        Command::Serial(task) => end_still(alloc, Command::Serial(task), shelf, sink),
        Command::Check(task) => end_still(alloc, Command::Check(task), shelf, sink),
        Command::Gen { number, out } => {
            end_still(alloc, Command::Gen { number, out }, shelf, sink)
        }
    }
}
