// The window.

ghost use Rattle.std.specs.Prelude.{◌≡◌, ◌+◌, ◌<◌, ◌≤◌, ◌^◌, ◌∷◌, length, map};
ghost use Rattle.std.specs.List.{All, sum_by};
ghost use Rattle.slice_base.specs.Plane.{InSquare};
ghost use Rattle.plan_types.specs.Plans.{EachOnce};
ghost use Rattle.plan_types.specs.Jobs.{Names};
ghost use Rattle.plan_types.specs.Leads.{origin};
ghost use Rattle.preheat_plan.specs.Past.{rules_of};
ghost use Rattle.preheat_plan.specs.Held.{use_of, taken, let_go, nothing_held};
ghost use Rattle.plan_store.specs.Inner.Sound.{held_of, end_of_held, IsSound, IsWhole};

use crate::extruders::extruder_count;
use crate::leading::with_lead;
use crate::marks::Marks;
use crate::placing::go_all;
use crate::store::Store;
use arrayvec::ArrayVec;
use plan_types::{ExtruderPlan, Job, LayerPlan};
use preheat_core::{layer_time, path_count};
use preheat_plan::{Use, eight_at_most, end_of_plans};
use slice_base::Pt;
use std::alloc::Global;
use std::marker::Model;

fn uses_of(plans: &[ExtruderPlan]) -> ArrayVec<Use, 8>
    requires { length plans.now ≤ 8 }
    ensures { result.items ≡ map use_of plans.now }
{
    let mut uses = ArrayVec::new();
    for x in plans {
        uses.push(Use {
            extruder: x.extruder,
            count: x.paths.len() as u64,
        });
    }
    uses
}

/// The plans of the last layers that were taken, oldest first, which may still get a preheat, and what is
/// remembered of the layers before them. It has places for 17 plans, and takes no memory.
#[derive(Drop)]
pub struct Window {
    store: Store,
    marks: Marks,
}

impl Model for Window {
    ghost use Rattle.plan_store.specs.Windows.{WindowValue};
    ghost use Rattle.plan_store.specs.Inner.Sound.{held_of, IsWhole};

    ghost Value = { WindowValue };

    ghost view = { λ a. record { held = held_of a.store a.marks; taken = a.marks.taken } };

    ghost invariant = { λ a. IsWhole a.store a.marks };
}

impl Window {
    /// A window that has taken no plan, for a print that starts with that extruder.
    pub fn new(alloc: Global, first: u8) -> Self
        ensures { result ≡ record { held = nothing_held first origin; taken = 0 } }
    {
        Window {
            store: Store::new(alloc),
            marks: Marks {
                base: 0,
                base_time: 0,
                next: 0,
                end: Pt { x: 0, y: 0 },
                current: first,
                left: [None; 8],
                taken: 0,
            },
        }
    }

    /// The plans that are held, oldest first.
    pub fn plans(&self) -> &[LayerPlan]
        ensures value { result.now ≡ self.now.held.plans }
        ensures few { length result.now ≤ 17 }
    {
        self.store.plans()
    }

    /// Takes the plan of the next layer, sets its lead and when its paths begin, and puts its preheats into
    /// the plans that are held.
    pub fn take(&mut self, job: &Job, plan: LayerPlan)
        requires known { All (Names job.now.settings) plan.plans }
        requires once { EachOnce plan.plans }
        requires room { length self.old.held.plans < 17 }
        requires few { self.old.taken < 40000 }
        ensures held { self.new.held ≡ taken (rules_of job.now) plan self.old.held }
        ensures taken { self.new.taken ≡ self.old.taken + 1 }
    {
        eight_at_most();
        let _count = extruder_count(job);
        let uses = uses_of(plan.plans.items());
        let end = end_of_plans(self.marks.end, plan.plans.items());
        let plan = with_lead(job, self.marks.end, plan);
        let marks = Marks {
            end,
            taken: self.marks.taken + 1,
            ..self.marks
        };
        self.store.push(plan);
        self.marks = go_all(&mut self.store, marks, job, uses.as_slice());
    }

    /// Lets the oldest plan go.
    pub fn let_go(&mut self) -> LayerPlan
        requires some { 0 < length self.old.held.plans }
        ensures oldest { self.old.held.plans ≡ result ∷ self.new.held.plans }
        ensures rest { self.new.held ≡ let_go result self.new.held.plans self.old.held }
        ensures taken { self.new.taken ≡ self.old.taken }
    {
        let oldest = self.store.take_first();
        let base = self.marks.base + u128::from(path_count(&oldest));
        let base_time = self.marks.base_time + layer_time(&oldest);
        self.marks = Marks {
            base,
            base_time,
            ..self.marks
        };
        oldest
    }
}
