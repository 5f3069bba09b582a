// Counts how often extruders are used.

ghost use Rattle.std.specs.Prelude.{◌≡◌, cond, IfOk};
ghost use Rattle.slice_base.specs.Causes.{counted};
ghost use Rattle.slice_engine.specs.Done.{is_use, with_use, with_plans, with_layers, uses_of};

use layer_plan::plan_layer;
use plan_types::{ExtruderPlan, Job};
use slice_base::NoMemory;
use std::alloc::Global;

/// The extruder that was used last, how many uses there were, and how many of them were switches. Counts stand
/// still at the greatest number.
#[derive(Clone, Copy)]
pub(crate) struct UseCounts {
    pub(crate) last: u8,
    pub(crate) uses: u64,
    pub(crate) switches: u64,
}

fn is_use(plan: &ExtruderPlan) -> bool
    ensures { result ≡ is_use plan.now }
{
    !plan.paths.is_empty()
}

fn counted(n: u64) -> u64
    ensures { result ≡ counted n }
{
    n.saturating_add(1)
}

fn with_use(uses: UseCounts, extruder: u8) -> UseCounts
    ensures { result ≡ with_use uses extruder }
{
    UseCounts {
        last: extruder,
        uses: counted(uses.uses),
        switches: if extruder == uses.last {
            uses.switches
        } else {
            counted(uses.switches)
        },
    }
}

fn with_plan(uses: UseCounts, plan: &ExtruderPlan) -> UseCounts
    ensures { result ≡ cond (is_use plan.now) (with_use uses plan.now.extruder) uses }
{
    if !is_use(plan) {
        return uses;
    }
    with_use(uses, plan.extruder)
}

fn with_plans(uses: UseCounts, plans: &[ExtruderPlan]) -> UseCounts
    ensures { result ≡ with_plans uses plans.now }
{
    let mut so_far = uses;
    'plans: for plan in plans {
        so_far = with_plan(so_far, plan);
    }
    so_far
}

/// The uses of a job, each layer planned for it.
pub(crate) fn uses(alloc: Global, job: &Job) -> Result<UseCounts, NoMemory>
    ensures { IfOk result (λ uses. uses ≡ uses_of job.now) }
{
    let layers = job.layers.len() as u32;
    let mut so_far = UseCounts {
        last: job.first,
        uses: 0,
        switches: 0,
    };
    'layers: for layer in 0..layers {
        let plan = plan_layer(alloc, job, layer)?;
        so_far = with_plans(so_far, plan.plans.items());
    }
    Ok(so_far)
}
