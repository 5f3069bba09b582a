// The writer of a job's file.

ghost use Rattle.std.specs.Prelude.{◌≡◌, ◌+◌, ◌*◌, ◌<◌, ◌≤◌, ◌^◌, true, false, [], length, is_err, IfOk, IfErr, OnOk, OnErr};
ghost use Rattle.std.specs.List.{All};
ghost use Rattle.plan_types.specs.Jobs.{Names};
ghost use Rattle.outside.specs.Pens.{Wrote, bytes_after};
ghost use Rattle.gcode_write.specs.Layers.{after_layer, layer_text_of};
ghost use Rattle.gcode_write.specs.Ends.{header_of, footer_of, start_of};
ghost use Rattle.gcode_write.specs.Writing.{Began, Unbegan, Ended, Broke};

use crate::ends::{put_footer, put_header};
use crate::layers::put_layer;
use crate::progress::Progress;
use outside::{Pen, Sink};
use plan_types::{Job, LayerPlan};
use slice_base::Text;

/// A write failed, in this call or in one before it.
#[derive(Clone, Copy, PartialEq, Eq, Debug)]
pub struct WriteFault;

/// A sink that couldn't be begun, or that failed as the header was put.
#[derive(Drop)]
pub struct Unbegun<S> {
    /// The sink as it is.
    pub sink: S,
}

/// Writes a job's file into a sink: the header as it begins, then layers, then the footer. Once a write failed
/// it puts nothing more, and each call says so.
#[derive(Drop)]
pub struct Writer<'a, S: Sink> {
    pen: Pen<S>,
    job: &'a Job,
    progress: Progress,
    layers: u32,
    ended: bool,
    ghost known: { progress.extruder < length job.now.settings.extruders },
    ghost volume_small: { progress.volume ≤ layers * 2 ^ 99 },
    ghost elapsed_small: { progress.elapsed ≤ layers * 2 ^ 84 },
    ghost few: { layers ≤ 40000 },
}

impl<'a, S: Sink> Writer<'a, S> {
    /// Begins the sink under that name, and puts the header. Fails exactly where the sink does, which then
    /// holds a front of the header or, where its `begin` failed, what it held before or nothing.
    pub fn begin(sink: S, job: &'a Job, name: Text) -> Result<Writer<'a, S>, Unbegun<S>>
        ensures job { IfOk result (λ w. w.job.now ≡ job.now) }
        ensures progress { IfOk result (λ w. w.progress ≡ start_of job.now) }
        ensures layers { IfOk result (λ w. w.layers ≡ 0) }
        ensures ended { IfOk result (λ w. w.ended ≡ false) }
        ensures failed { IfOk result (λ w. w.pen.failed ≡ false) }
        ensures bytes { IfOk result (λ w. w.pen.bytes ≡ bytes_after 0 (length (header_of job.now))) }
        ensures ok { IfOk result (λ w. Began name (header_of job.now) (S.output sink) (S.output w.pen.sink)) }
        ensures err { IfErr result (λ u. Unbegan name (header_of job.now) (S.output sink) (S.output u.sink)) }
    {
        let mut sink = sink;
        match sink.begin(name) {
            Err(_) => Err(Unbegun { sink }),
            Ok(()) => {
                let mut pen = Pen::of(sink);
                put_header(&mut pen, job);
                if pen.failed {
                    return Err(Unbegun { sink: pen.sink });
                }
                Ok(Writer {
                    pen,
                    job,
                    progress: start(job),
                    layers: 0,
                    ended: false,
                })
            }
        }
    }

    /// Puts the text of the next layer, with the preheats that stand in its plan. Every extruder that the plan
    /// names is there; fewer than 40,000 layers were put before. Fails exactly where a write failed in this call
    /// or before it; the sink then holds a front of the text behind what it had.
    pub fn layer(&mut self, plan: &LayerPlan) -> Result<(), WriteFault>
        requires known { All (Names self.old.job.now.settings) plan.now.plans }
        requires room { self.old.layers < 40000 }
        ensures wrote { Wrote S.output self.old.pen (layer_text_of self.old.job.now.settings.extruders self.old.progress
            plan.now) self.new.pen }
        ensures failed { self.new.pen.failed ≡ is_err result }
        ensures progress { self.new.progress ≡ after_layer self.old.job.now.settings.extruders self.old.progress
            plan.now }
        ensures job { self.new.job.now ≡ self.old.job.now }
        ensures layers { self.new.layers ≡ self.old.layers + 1 }
        ensures ended { self.new.ended ≡ self.old.ended }
    {
        let job = self.job;
        let extruders = job.settings.extruders.items();
        self.progress = put_layer(&mut self.pen, extruders, self.progress, plan);
        self.layers += 1;
        told(self.pen.failed)
    }

    /// Puts the footer, and ends the sink. Fails exactly where a write failed in this call or before it. Called
    /// again, it puts the footer once more, and a layer that comes after it stands behind the footer.
    pub fn finish(&mut self) -> Result<(), WriteFault>
        ensures ok { OnOk result (Ended (footer_of self.old.job.now) (S.output self.old.pen.sink)
            (S.output self.new.pen.sink)) }
        ensures bytes { OnOk result (self.new.pen.bytes ≡ bytes_after self.old.pen.bytes
            (length (footer_of self.old.job.now))) }
        ensures err { OnErr result (self.old.pen.failed ≡ false
            → Broke S.output (footer_of self.old.job.now) self.old.pen self.new.pen) }
        ensures again { self.old.pen.failed ≡ true → Wrote S.output self.old.pen [] self.new.pen }
        ensures failed { self.new.pen.failed ≡ is_err result }
        ensures job { self.new.job.now ≡ self.old.job.now }
        ensures progress { self.new.progress ≡ self.old.progress }
        ensures layers { self.new.layers ≡ self.old.layers }
        ensures ended { OnOk result (self.new.ended ≡ true) }
        ensures not_ended { OnErr result (self.new.ended ≡ self.old.ended) }
    {
        put_footer(&mut self.pen, self.job);
        if self.pen.failed {
            return Err(WriteFault);
        }
        match self.pen.sink.end() {
            Ok(()) => {
                self.ended = true;
                Ok(())
            }
            Err(_) => {
                self.pen.failed = true;
                Err(WriteFault)
            }
        }
    }

    /// The job whose file it is.
    pub fn job(&self) -> &Job
        ensures { result.now ≡ self.now.job.now }
    {
        self.job
    }

    /// Whether a write failed.
    pub fn failed(&self) -> bool
        ensures { result ≡ self.now.pen.failed }
    {
        self.pen.failed
    }

    /// How often the sink failed.
    pub fn faults(&self) -> u64
        ensures { result ≡ (S.output self.now.pen.sink).faults }
    {
        self.pen.sink.faults()
    }

    /// How many bytes it put, also those of a text that broke off; a count that would pass the greatest `u128`
    /// stays there.
    pub fn bytes(&self) -> u128
        ensures { result ≡ self.now.pen.bytes }
    {
        self.pen.bytes
    }

    /// The sink as it is.
    pub fn into_sink(self) -> S
        ensures { result ≡ self.entry.pen.sink }
    {
        self.pen.sink
    }
}

fn start(job: &Job) -> Progress
    ensures start { result ≡ start_of job.now }
    ensures known { result.extruder < length job.now.settings.extruders }
{
    Progress {
        extruder: job.first,
        volume: 0,
        elapsed: 0,
        fan: 0,
    }
}

fn told(failed: bool) -> Result<(), WriteFault>
    ensures { failed ≡ is_err result }
{
    if failed { Err(WriteFault) } else { Ok(()) }
}
