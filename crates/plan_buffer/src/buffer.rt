// The buffer.

ghost use Rattle.std.specs.Prelude.{◌≡◌, ◌+◌, ◌-◌, ◌<◌, ◌≤◌, ◌++◌, [], ◌∷◌, true, false, min, length, is_err, OnOk, OnErr, ℕ};
ghost use Rattle.std.specs.List.{All};
ghost use Rattle.slice_base.specs.Shapes.{Bytes};
ghost use Rattle.outside.specs.Output.{Output};
ghost use Rattle.outside.specs.Pens.{Wrote, bytes_after};
ghost use Rattle.plan_types.specs.Plans.{EachOnce};
ghost use Rattle.plan_types.specs.Jobs.{Names};
ghost use Rattle.plan_types.specs.Leads.{origin};
ghost use Rattle.gcode_write.specs.Ends.{header_of, start_of};
ghost use Rattle.preheat_plan.specs.Held.{nothing_held};
ghost use Rattle.plan_buffer.specs.File.{file_of};
ghost use Rattle.plan_buffer.specs.Streams.{Streamed, WroteSome};
ghost use Rattle.plan_buffer.specs.Accepted.{Past, HasAccepted, Finished, BrokeOff};
ghost use Rattle.plan_buffer.specs.Inner.Sound.{IsBuffer};

use crate::writing::{write_all, write_oldest};
use gcode_write::{WriteFault, Writer};
use outside::{Sink, pens_add_up};
use plan_store::Window;
use plan_types::{Job, LayerPlan};
use preheat_plan::{rests_on_a_window, windows_follow};
use std::alloc::Global;
use std::marker::Model;

// How many layers before its own a preheat may stand.
fn window_layers(job: &Job) -> u32
    ensures exact { result ≡ job.now.settings.preheat_window_layers }
    ensures few { result ≤ 16 }
    ensures eight { length job.now.settings.extruders ≤ 8 }
{
    let settings = &job.settings;
    let _extruders = &settings.extruders;
    let _count = settings.machine_extruder_count;
    settings.preheat_window_layers
}

fn told(failed: bool) -> Result<(), WriteFault>
    ensures { failed ≡ is_err result }
{
    if failed { Err(WriteFault) } else { Ok(()) }
}

/// Accepts the plans of a job's layers, puts preheats into those of the last layers, and writes each once no
/// later plan can put one into it. No more than a window of plans is held, `preheat_window_layers` of the
/// settings. Takes no memory.
#[derive(Drop)]
pub struct PlanBuffer<'a, S: Sink> {
    writer: Writer<'a, S>,
    window: Window,
}

impl<'a, S: Sink> Model for PlanBuffer<'a, S> {
    ghost use Rattle.plan_buffer.specs.Buffers.{BufferValue};
    ghost use Rattle.plan_buffer.specs.Inner.Sound.{IsBuffer};

    ghost Value = { BufferValue S };

    ghost view = { λ b. record { job = b.writer.job.now; window = b.window; pen = b.writer.pen; progress = b.writer.progress; layers = b.writer.layers } };

    ghost invariant = { λ b. IsBuffer b.writer.job.now b.window b.writer.layers };
}

impl<'a, S: Sink> PlanBuffer<'a, S> {
    /// A buffer that has accepted no plan, over a writer that has put the header alone.
    pub fn make(alloc: Global, writer: Writer<'a, S>) -> Self
        requires { writer.layers ≡ 0 }
        ensures value { result
            ≡ record {
              job = writer.entry.job.now;
              window = record
                  { held = nothing_held writer.entry.job.now.first origin; taken = 0 };
              pen = writer.entry.pen;
              progress =
                  writer.entry.progress;
              layers = 0;
            } }
        ensures accepted { (name : Bytes) (before : Output)
            → Streamed S.output name (header_of writer.entry.job.now) before writer.entry.pen
            → writer.entry.progress ≡ start_of writer.entry.job.now
            → HasAccepted S.output result (record { plans = []; name = name; before = before }) }
    {
        windows_follow();
        let first = writer.job().first;
        PlanBuffer {
            writer,
            window: Window::new(alloc, first),
        }
    }

    /// Accepts the plan of the next layer, which names extruders of the job, each once at most, and has no
    /// preheat yet. Where more than a window is then held, the oldest plan is written. Fails exactly where a
    /// write failed in this call or before it.
    pub fn accept(&mut self, plan: LayerPlan) -> Result<(), WriteFault>
        requires known { All (Names self.old.job.settings) plan.plans }
        requires once { EachOnce plan.plans }
        requires bare { plan.inserts ≡ [] }
        requires few { self.old.window.taken < 40000 }
        ensures accepted { (past : Past) → HasAccepted S.output self.old past
            → HasAccepted S.output self.new (record past { plans = past.plans ++ plan ∷ [] }) }
        ensures failed { self.new.pen.failed ≡ is_err result }
        ensures some { WroteSome S.output self.old.pen self.new.pen }
        ensures job { self.new.job ≡ self.old.job }
        ensures taken { self.new.window.taken ≡ self.old.window.taken + 1 }
    {
        windows_follow();
        rests_on_a_window();
        pens_add_up::<S>();
        let most = window_layers(self.writer.job());
        self.window.take(self.writer.job(), plan);
        if self.window.plans().len() <= most as usize {
            return told(self.writer.failed());
        }
        write_oldest(&mut self.writer, &mut self.window)
    }

    /// Writes all plans that are held and the footer, and ends the sink. Fails exactly where a write failed in
    /// this call or before it. Called again, it puts the footer once more.
    pub fn flush(&mut self) -> Result<(), WriteFault>
        ensures ok { (past : Past) → HasAccepted S.output self.old past
            → OnOk result (Finished past.name (file_of self.old.job past.plans) past.before
            (S.output self.new.pen.sink)) }
        ensures bytes { (past : Past) → HasAccepted S.output self.old past
            → OnOk result (self.new.pen.bytes ≡ bytes_after 0 (length (file_of self.old.job past.plans))) }
        ensures err { (past : Past) → HasAccepted S.output self.old past
            → OnErr result (BrokeOff past.name (file_of self.old.job past.plans) past.before
            (S.output self.new.pen.sink)) }
        ensures again { self.old.pen.failed ≡ true → Wrote S.output self.old.pen [] self.new.pen }
        ensures failed { self.new.pen.failed ≡ is_err result }
        ensures job { self.new.job ≡ self.old.job }
    {
        windows_follow();
        write_all(&mut self.writer, &mut self.window);
        self.writer.finish()
    }

    /// How many plans are held: the lesser of those that were accepted and a window.
    pub fn held(&self) -> u32
        ensures exact { result ≡ length self.now.window.held.plans }
        ensures least { (past : Past) → HasAccepted S.output self.now past
            → result ≡ min (length past.plans) self.now.job.settings.preheat_window_layers }
    {
        windows_follow();
        self.window.plans().len() as u32
    }

    /// How often the sink failed.
    pub fn faults(&self) -> u64
        ensures { result ≡ (S.output self.now.pen.sink).faults }
    {
        self.writer.faults()
    }

    /// Whether a write failed.
    pub fn failed(&self) -> bool
        ensures { result ≡ self.now.pen.failed }
    {
        self.writer.failed()
    }

    /// How many bytes were put, also those of a text that broke off; a count that would pass the greatest `u128`
    /// stays there.
    pub fn bytes(&self) -> u128
        ensures { result ≡ self.now.pen.bytes }
    {
        self.writer.bytes()
    }

    /// The sink as it is; the plans that are held are dropped.
    pub fn into_sink(self) -> S
        ensures { result ≡ self.entry.pen.sink }
    {
        self.writer.into_sink()
    }
}
