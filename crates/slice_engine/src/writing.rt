// Writes the file of a job, its layers planned one after another.

ghost use Rattle.std.specs.Prelude.{◌≡◌, false, [], length, Ok, Err};
ghost use Rattle.slice_base.specs.Shapes.{Bytes};
ghost use Rattle.outside.specs.Output.{Output};
ghost use Rattle.plan_buffer.specs.Accepted.{Past, HasAccepted};
ghost use Rattle.slice_engine.specs.declared.writing.Stop.{Stop};
ghost use Rattle.outside.specs.Pens.{bytes_after};
ghost use Rattle.plan_buffer.specs.File.{file_of};
ghost use Rattle.print_totals.specs.Spending.{HasSpent};
ghost use Rattle.slice_engine.specs.Files.{job_file, plans_of};
ghost use Rattle.slice_engine.specs.Inner.Feeding.{past_of, Fed, Wrote, Flushed};

use gcode_write::Writer;
use layer_plan::plan_layer;
use outside::Sink;
use plan_buffer::{PlanBuffer, texts_rest_on_plans, writes_a_front};
use plan_types::Job;
use print_totals::{Spent, amounts_of};
use slice_base::Text;
use std::alloc::Global;

/// Why a file wasn't written to its end.
#[derive(Clone, Copy)]
pub(crate) enum Stop {
    /// There was no memory for a plan.
    Memory,
    /// A write failed.
    Write,
}

// Plans the layers one after another, adds up what they take, and has the buffer accept each.
fn feed<S: Sink>(
    alloc: Global,
    job: &Job,
    buffer: &mut PlanBuffer<S>,
    spent: &mut Spent,
) -> Result<(), Stop>
    requires job { buffer.old.job ≡ job.now }
    requires first { buffer.old.window.taken ≡ 0 }
    requires unfailed { buffer.old.pen.failed ≡ false }
    requires unspent { HasSpent job.now [] spent.old }
    ensures fed { (name : Bytes) (before : Output) → HasAccepted S.output buffer.old (past_of job.now name before 0)
        → Fed S.output job.now name before result buffer.new }
    ensures job { buffer.new.job ≡ job.now }
    ensures spent { result ≡ Ok tt → HasSpent job.now (plans_of job.now) spent.new }
{
    let layers = job.layers.len() as u32;
    'layers: for layer in 0..layers {
        let Ok(plan) = plan_layer(alloc, job, layer) else {
            return Err(Stop::Memory);
        };
        spent.add(job, &plan, amounts_of(&plan));
        if buffer.accept(plan).is_err() {
            return Err(Stop::Write);
        }
    }
    Ok(())
}

/// How a file ended: whether it was written, how many bytes were put, the sums of its plans, and the sink.
pub(crate) struct Written<S> {
    pub(crate) wrote: Result<(), Stop>,
    pub(crate) bytes: u128,
    pub(crate) spent: Spent,
    pub(crate) sink: S,
}

/// Flushes a buffer whose plans were all accepted; where the work stopped it is left as it is.
pub(crate) fn flush<S: Sink>(buffer: &mut PlanBuffer<S>, fed: Result<(), Stop>) -> Result<(), Stop>
    ensures stopped { (stop : Stop) → fed ≡ Err stop → (result ≡ Err stop) × (buffer.new ≡ buffer.old) }
    ensures done { (past : Past) → fed ≡ Ok tt → HasAccepted S.output buffer.old past
        → Flushed S.output buffer.old.job past result buffer.new.pen.sink }
    ensures bytes { (past : Past) → HasAccepted S.output buffer.old past → result ≡ Ok tt
        → buffer.new.pen.bytes ≡ bytes_after 0 (length (file_of buffer.old.job past.plans)) }
{
    match fed {
        Err(stop) => Err(stop),
        Ok(()) => match buffer.flush() {
            Ok(()) => Ok(()),
            Err(_) => Err(Stop::Write),
        },
    }
}

/// Writes the file of a job to the sink under that name, layers planned and written one after another.
pub(crate) fn write_file<S: Sink>(alloc: Global, job: &Job, name: Text, sink: S) -> Written<S>
    ensures wrote { Wrote result.wrote job.now name (S.output sink) (S.output result.sink) }
    ensures bytes { result.wrote ≡ Ok tt → result.bytes ≡ bytes_after 0 (length (job_file job.now)) }
    ensures spent { result.wrote ≡ Ok tt → HasSpent job.now (plans_of job.now) result.spent }
{
    texts_rest_on_plans();
    writes_a_front();
    match Writer::begin(sink, job, name) {
        Err(unbegun) => Written {
            wrote: Err(Stop::Write),
            bytes: 0,
            spent: Spent::new(),
            sink: unbegun.sink,
        },
        Ok(writer) => {
            let mut buffer = PlanBuffer::make(alloc, writer);
            let mut spent = Spent::new();
            let fed = feed(alloc, job, &mut buffer, &mut spent);
            let wrote = flush(&mut buffer, fed);
            Written {
                wrote,
                bytes: buffer.bytes(),
                spent,
                sink: buffer.into_sink(),
            }
        }
    }
}
