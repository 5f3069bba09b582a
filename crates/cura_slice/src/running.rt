// What the program does with its words.

ghost use Rattle.std.specs.Prelude.{map, string_bytes, IfOk, IfErr};
ghost use Rattle.cura_slice.specs.Help.{asked_of};
ghost use Rattle.cura_slice.specs.Running.{ToldRefusal, DidWords};

use crate::help::{asked, tell};
use crate::notes::{put_note, run_note, unread_note};
use crate::noting::NotingShelf;
use crate::words::refuse;
use answers::Refusal;
use outside::{Gate, Shelf, Sink};
use slice_engine::slice_top;
use std::alloc::Global;
use std::sync::Wait;
use std::thread::Threads;

/// Tells what the words ask of the program itself; where they ask nothing of it, does their job. Where there
/// are no words, tells why. The answer is the program's status, and the sink and the shelf are handed back. A `slice`
/// waits for its workers, which pass the gate. Notes on what was told go to a sink of their own, whose faults change
/// nothing.
pub fn run<
    Sh: Shelf,
    Si: Sink + Send,
    Co: Sink,
    No: Sink,
    G: Gate + Sync,
    R: Threads + Wait + Sync,
>(
    rt: &R,
    alloc: Global,
    words: Result<Vec<String>, Refusal>,
    shelf: Sh,
    sink: Si,
    console: &mut Co,
    notes: &mut No,
    gate: &G,
) -> (u8, Si, Sh)
    ensures did { IfOk words (λ ws. DidWords (asked_of (map string_bytes ws.items)) (map string_bytes ws.items) result.0
        (Sh.store shelf) (Sh.store result.2) (Si.output sink) (Si.output result.1)
        (Co.output console.old) (Co.output console.new)) }
    ensures refused { IfErr words (λ r. ToldRefusal r result.0 (Sh.store shelf) (Sh.store result.2)
        (Si.output sink) (Si.output result.1) (Co.output console.old) (Co.output console.new)) }
{
    let words = match words {
        Ok(words) => words,
        Err(refusal) => {
            let note = unread_note(alloc, &refusal);
            let status = refuse(refusal, console);
            put_note(note, notes);
            return (status, sink, shelf);
        }
    };
    if let Some(topic) = asked(words.as_slice()) {
        return (tell(alloc, topic, console), sink, shelf);
    }
    let mut shelf = NotingShelf::of(alloc, words.as_slice(), shelf);
    let (run, sink) = slice_top(rt, alloc, words.as_slice(), &mut shelf, sink, console, gate);
    let (shelf, idle) = shelf.into_parts();
    put_note(run_note(alloc, words.as_slice(), &run, &idle), notes);
    (run.status, sink, shelf)
}
