// Writes the file of a job whose layers many workers plan.

ghost use Rattle.std.specs.Prelude.{◌≡◌, ◌≤◌, ◌<◌, Ok, Err};
ghost use Rattle.slice_base.specs.Limits.{max_workers};
ghost use Rattle.plan_buffer.specs.Accepted.{Past, HasAccepted};
ghost use Rattle.print_totals.specs.Spending.{HasSpent};
ghost use Rattle.slice_engine.specs.declared.writing.Stop.{Stop};
ghost use Rattle.slice_engine.specs.Files.{plans_of};
ghost use Rattle.slice_engine.specs.Inner.Feeding.{Flushed, fed_by};
ghost use Rattle.slice_engine.specs.Inner.Ringing.{HasFed};
ghost use Rattle.slice_engine.specs.Inner.Slicing.{WroteWide};

use crate::ringing::{Feeder, Plans};
use crate::writing::{Stop, flush};
use layer_ring::run_ring;
use outside::{Gate, Sink};
use plan_buffer::{texts_rest_on_plans, writes_a_front};
use plan_types::Job;
use print_totals::Spent;
use ring_core::{Cause, Ended, Event, Unmade, runs_are_orderly, whole_runs_have_each_layer_once};
use slice_base::Text;
use std::alloc::Global;
use std::snapshot::Snapshot;
use std::sync::Wait;
use std::thread::Threads;

/// How a file ended that many workers planned: whether it was written, what the workers did, the sums of its plans, and
/// the sink.
pub(crate) struct Wide<S> {
    pub(crate) wrote: Result<(), Stop>,
    pub(crate) journal: Vec<Event>,
    pub(crate) spent: Spent,
    pub(crate) sink: S,
}

// Whether the plans were all fed, by the cause that a ring kept.
fn fed_by(halted: Option<Cause>) -> Result<(), Stop>
    ensures { result ≡ fed_by halted }
{
    match halted {
        None => Ok(()),
        Some(Cause::Memory) => Err(Stop::Memory),
        Some(Cause::Write { .. }) => Err(Stop::Write),
    }
}

// Ends the file of a ring that has ended.
fn end_ring<'a, S: Sink>(ended: Ended<Feeder<'a, S>>) -> Wide<S>
    ensures journal { result.journal.items ≡ ended.entry.events.items }
    ensures spent { result.spent ≡ ended.entry.consumer.spent }
    ensures fed { HasFed S.output ended.entry.consumer.job ended.entry.consumer.name ended.entry.consumer.before
        ended.entry.consumer.buffer }
    ensures stopped { (stop : Stop) → fed_by ended.entry.halted ≡ Err stop → (result.wrote ≡ Err stop)
        × (result.sink ≡ ended.entry.consumer.buffer.pen.sink) }
    ensures done { (past : Past) → fed_by ended.entry.halted ≡ Ok tt
        → HasAccepted S.output ended.entry.consumer.buffer past
        → Flushed S.output ended.entry.consumer.buffer.job past result.wrote result.sink }
{
    let Ended {
        consumer,
        events,
        halted,
    } = ended;
    let (mut buffer, spent) = consumer.into_parts();
    let wrote = flush(&mut buffer, fed_by(halted));
    Wide {
        wrote,
        journal: events,
        spent,
        sink: buffer.into_sink(),
    }
}

/// Writes the file of a job to the sink under that name: layers are planned by so many workers, out of order, and
/// written in order.
pub(crate) fn write_wide<S: Sink + Send, G: Gate + Sync, R: Threads + Wait + Sync>(
    rt: &R,
    alloc: Global,
    job: &Job,
    name: Text,
    sink: S,
    workers: u32,
    gate: &G,
) -> Wide<S>
    requires some { 0 < workers }
    requires few { workers ≤ max_workers }
    ensures wrote { WroteWide result.wrote result.journal.items job.now workers name (S.output sink)
        (S.output result.sink) }
    ensures spent { result.wrote ≡ Ok tt → HasSpent job.now (plans_of job.now) result.spent }
{
    runs_are_orderly();
    whole_runs_have_each_layer_once();
    texts_rest_on_plans();
    writes_a_front();
    let _faults = sink.faults();
    let plans = Plans {
        job,
        name: Snapshot::of(&name),
        before: Snapshot::of(&sink),
    };
    let feeder = match Feeder::begin(alloc, job, name, sink) {
        Ok(feeder) => feeder,
        Err(unbegun) => {
            return Wide {
                wrote: Err(Stop::Write),
                journal: Vec::new(alloc),
                spent: Spent::new(),
                sink: unbegun.sink,
            };
        }
    };
    let layers = job.layers.len() as u32;
    match run_ring(rt, alloc, &plans, feeder, layers, workers, gate) {
        Ok(ended) => end_ring(ended),
        Err(Unmade { consumer }) => {
            let (buffer, spent) = consumer.into_parts();
            Wide {
                wrote: Err(Stop::Memory),
                journal: Vec::new(alloc),
                spent,
                sink: buffer.into_sink(),
            }
        }
    }
}
