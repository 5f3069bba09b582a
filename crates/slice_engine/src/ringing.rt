// A job's planner and consumer for a ring of workers.

ghost use Rattle.std.specs.Prelude.{◌≡◌, ◌≤◌, ◌<◌, ℕ, false, [], length, take, IfOk, IfErr};
ghost use Rattle.layer_plan.specs.Plan.{plan_of};
ghost use Rattle.gcode_write.specs.Writing.{Unbegan};
ghost use Rattle.gcode_write.specs.Ends.{header_of};
ghost use Rattle.plan_buffer.specs.Accepted.{HasAccepted};
ghost use Rattle.print_totals.specs.Spending.{HasSpent};
ghost use Rattle.slice_engine.specs.Files.{plans_of};
ghost use Rattle.slice_engine.specs.Inner.Feeding.{past_of};
ghost use Rattle.slice_engine.specs.Inner.Ringing.{HasFed};

use gcode_write::{Unbegun, Writer};
use layer_plan::plan_layer;
use outside::Sink;
use plan_buffer::PlanBuffer;
use plan_types::{Job, LayerPlan};
use print_totals::{Amounts, Spent, amounts_of};
use ring_core::{Consumer, Planner};
use slice_base::{Failed, NoMemory, Text};
use std::alloc::Global;
use std::marker::Model;
use std::snapshot::Snapshot;

/// What a ring's name tells: the job, the name of its file, and the sink before it was begun. No value of it is made.
pub(crate) struct Began<S> {
    pub(crate) job: Job,
    pub(crate) name: Text,
    pub(crate) before: S,
}

/// The plan of a layer, with its job, and what its paths take.
#[derive(Drop)]
pub(crate) struct Planned<'a> {
    pub(crate) job: &'a Job,
    pub(crate) plan: LayerPlan,
    pub(crate) amounts: Amounts,
}

impl<'a> Model for Planned<'a> {
    ghost use Rattle.slice_engine.specs.Inner.Ringing.{PlannedValue, IsPlanned};

    ghost Value = { PlannedValue };

    ghost view = { λ p. record { job = p.job.now; plan = p.plan } };

    ghost invariant = { λ p. IsPlanned p.job.now p.plan p.amounts };
}

/// Plans a job's layers, for a file of that name in that sink.
#[derive(Drop)]
pub(crate) struct Plans<'a, S> {
    pub(crate) job: &'a Job,
    pub(crate) name: Snapshot<Text>,
    pub(crate) before: Snapshot<S>,
}

impl<'a, S: Sink> Planner for Plans<'a, S> {
    type Plan = Planned<'a>;

    type Name = Began<S>;

    ghost name = { λ p. record { job = p.job.now; name = p.name.value; before = p.before.value } };

    ghost layers = { λ n. length n.job.layers };

    ghost plan_of = { λ n l. record { job = n.job; plan = plan_of n.job l } };

    fn plan(&self, alloc: Global, layer: u32) -> Result<Planned<'a>, NoMemory> {
        let job = self.job;
        let plan = plan_layer(alloc, job, layer)?;
        let amounts = amounts_of(&plan);
        Ok(Planned { job, plan, amounts })
    }
}

/// Writes a job's plans through a buffer, and adds up what they take. Also where a write failed its sink has that name,
/// was begun once, and holds a front of the file.
pub(crate) struct Feeder<'a, S: Sink> {
    job: &'a Job,
    name: Snapshot<Text>,
    before: Snapshot<S>,
    buffer: PlanBuffer<'a, S>,
    spent: Spent,
}

impl<'a, S: Sink> Model for Feeder<'a, S> {
    ghost use Rattle.slice_engine.specs.Inner.Ringing.{FeederValue, HasFed};

    ghost Value = { FeederValue S };

    ghost view = { λ f. record { job = f.job.now; name = f.name.value; before = f.before.value; buffer = f.buffer; spent = f.spent } };

    ghost invariant = { λ f. HasFed S.output f.job.now f.name.value f.before.value f.buffer };
}

impl<'a, S: Sink> Feeder<'a, S> {
    /// Begins the sink under a name, and puts the header.
    pub(crate) fn begin(
        alloc: Global,
        job: &'a Job,
        name: Text,
        sink: S,
    ) -> Result<Feeder<'a, S>, Unbegun<S>>
        ensures begun { IfOk result (λ f. (f.job ≡ job.now) × (f.name ≡ name) × (f.before ≡ sink)) }
        ensures fed { IfOk result (λ f. (f.buffer.pen.failed ≡ false)
            × HasAccepted S.output f.buffer (past_of job.now name (S.output sink) 0) × HasSpent job.now [] f.spent) }
        ensures err { IfErr result (λ u. Unbegan name (header_of job.now) (S.output sink) (S.output u.sink)) }
    {
        let before = Snapshot::of(&sink);
        let called = Snapshot::of(&name);
        match Writer::begin(sink, job, name) {
            Ok(writer) => Ok(Feeder {
                job,
                name: called,
                before,
                buffer: PlanBuffer::make(alloc, writer),
                spent: Spent::new(),
            }),
            Err(unbegun) => Err(unbegun),
        }
    }

    /// The buffer, and the sums of its plans.
    pub(crate) fn into_parts(self) -> (PlanBuffer<'a, S>, Spent)
        ensures buffer { result.0 ≡ self.entry.buffer }
        ensures spent { result.1 ≡ self.entry.spent }
        ensures fed { HasFed S.output self.entry.job self.entry.name self.entry.before result.0 }
    {
        let Feeder {
            job: _,
            name: _,
            before: _,
            buffer,
            spent,
        } = self;
        (buffer, spent)
    }
}

impl<'a, S: Sink> Consumer<Planned<'a>> for Feeder<'a, S> {
    type Name = Began<S>;

    ghost name = { λ f. record { job = f.job; name = f.name; before = f.before } };

    ghost layers = { λ n. length n.job.layers };

    ghost plan_of = { λ n l. record { job = n.job; plan = plan_of n.job l } };

    ghost is_at = { λ f k. k ≤ length f.job.layers → (f.buffer.pen.failed ≡ false)
        × HasAccepted S.output f.buffer (past_of f.job f.name (S.output f.before) k)
        × HasSpent f.job (take k (plans_of f.job)) f.spent };

    ghost fault_count = { λ f. (S.output f.buffer.pen.sink).faults };

    fn accept(&mut self, _layer: u32, plan: Planned<'a>) -> Result<(), Failed> {
        let _faults = self.buffer.faults();
        let job = self.job;
        let _layers = job.layers.len();
        let Planned {
            job: _,
            plan,
            amounts,
        } = plan;
        self.spent.add(job, &plan, amounts);
        if self.buffer.accept(plan).is_err() {
            return Err(Failed);
        }
        Ok(())
    }

    fn faults(&self) -> u64 {
        self.buffer.faults()
    }
}
