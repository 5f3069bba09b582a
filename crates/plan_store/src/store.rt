// Places for the plans of a window, without memory.

ghost use Rattle.std.specs.Prelude.{◌≡◌, ◌<◌, ◌≤◌, ◌++◌, [], ◌∷◌, length, slice_get, slice_set, Some};
ghost use Rattle.plan_types.specs.Plans.{LayerPlanValue};
ghost use Rattle.plan_types.specs.Inserts.{with_insert};

use arrayvec::ArrayVec;
use plan_types::{Insert, LayerPlan};
use std::alloc::Global;
use std::marker::Model;

fn put_in(plans: &mut [LayerPlan], slot: usize, insert: Insert)
    requires slot { slot < length plans.old }
    ensures { (l : LayerPlanValue) → slice_get plans.old slot ≡ Some l
        → plans.new ≡ slice_set plans.old slot (record l { inserts = with_insert insert l.inserts }) }
{
    let plan = &mut plans[slot];
    plan.inserts.put(insert);
}

// Plans, oldest first, seen as their list: 16 at most, and one more while it is taken.
#[derive(Drop)]
pub(crate) struct Store {
    plans: ArrayVec<LayerPlan, 17, Global>,
}

impl Model for Store {
    ghost use Rattle.std.specs.Prelude.{List};
    ghost use Rattle.plan_types.specs.Plans.{LayerPlanValue};

    ghost Value = { List LayerPlanValue };

    ghost view = { λ a. a.plans.items };
}

impl Store {
    // No plan. Takes no memory.
    pub(crate) fn new(alloc: Global) -> Self
        ensures { result ≡ [] }
    {
        Store {
            plans: ArrayVec::new_in(alloc),
        }
    }

    pub(crate) fn plans(&self) -> &[LayerPlan]
        ensures value { result.now ≡ self.now }
        ensures few { length result.now ≤ 17 }
    {
        self.plans.as_slice()
    }

    pub(crate) fn push(&mut self, plan: LayerPlan)
        requires { length self.old < 17 }
        ensures { self.new ≡ self.old ++ plan ∷ [] }
    {
        self.plans.push(plan);
    }

    // Puts a preheat into a plan.
    pub(crate) fn put(&mut self, slot: usize, insert: Insert)
        requires slot { slot < length self.old }
        ensures { (l : LayerPlanValue) → slice_get self.old slot ≡ Some l
            → self.new ≡ slice_set self.old slot (record l { inserts = with_insert insert l.inserts }) }
    {
        put_in(self.plans.as_mut_slice(), slot, insert);
    }

    // Takes the oldest out.
    pub(crate) fn take_first(&mut self) -> LayerPlan
        requires { 0 < length self.old }
        ensures { self.old ≡ result ∷ self.new }
    {
        self.plans.remove(0)
    }
}
