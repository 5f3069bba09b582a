// What a plan takes from the layers before it, set in place.

ghost use Rattle.std.specs.Prelude.{◌≡◌, ◌+◌, ◌*◌, ◌<◌, ◌≤◌, ◌^◌, true, length};
ghost use Rattle.std.specs.List.{All, sum_by};
ghost use Rattle.slice_base.specs.Plane.{InSquare};
ghost use Rattle.plan_types.specs.Paths.{PathValue};
ghost use Rattle.plan_types.specs.Plans.{moves_of, moves_of_plan, moves_in, time_of_plan, time_in};
ghost use Rattle.plan_types.specs.Jobs.{Names};
ghost use Rattle.plan_types.specs.Steps.{path_count_of};
ghost use Rattle.plan_types.specs.Leads.{before_of, timed_paths, is_first_after, timed_plans, with_lead};
ghost use Rattle.preheat_plan.specs.Past.{rules_of};

use plan_types::{ExtruderPlan, Job, LayerPlan, Path};
use preheat_plan::lead;
use slice_base::Pt;

// ---- the time from the layer's first boundary to each path

fn before(is_first: bool, time: u128) -> u128
    ensures { result ≡ before_of is_first time }
{
    if is_first { 0 } else { time }
}

// Sets when a path begins, and gives how long it takes.
fn set_before(path: &mut Path, before: u128) -> u128
    ensures set { path.new ≡ record path.old { before = before } }
    ensures time { result ≡ path.old.time }
    ensures some { 1 ≤ moves_of path.old }
{
    let _points = &path.points;
    path.before = before;
    u128::from(path.time)
}

// Sets when paths begin, and gives when the last of them ends.
fn time_paths(paths: &mut [Path], is_first: bool, time: u128) -> u128
    requires small { time + sum_by (λ p. p.time) paths.old < 2 ^ 100 }
    ensures exact { paths.new ≡ timed_paths is_first time paths.old }
    ensures time { result ≡ time + sum_by (λ p. p.time) paths.old }
    ensures few { length paths.old ≤ sum_by moves_of paths.old }
{
    let mut first = is_first;
    let mut now = time;
    let mut i = 0;
    'paths: while i < paths.len() {
        now += set_before(&mut paths[i], before(first, now));
        first = false;
        i += 1;
    }
    now
}

fn time_plan(plan: &mut ExtruderPlan, is_first: bool, time: u128) -> u128
    requires small { time + time_of_plan plan.old < 2 ^ 100 }
    ensures exact { plan.new ≡ record plan.old { paths = timed_paths is_first time plan.old.paths } }
    ensures time { result ≡ time + time_of_plan plan.old }
    ensures few { length plan.old.paths ≤ moves_of_plan plan.old }
{
    time_paths(plan.paths.items_mut(), is_first, time)
}

// Whether the next path is the layer's first still.
fn is_first_after(is_first: bool, plan: &ExtruderPlan) -> bool
    ensures { result ≡ is_first_after is_first plan.now.paths }
{
    is_first && plan.paths.is_empty()
}

fn time_plans(plans: &mut [ExtruderPlan], lead: u128)
    requires small { lead + time_in plans.old < 2 ^ 100 }
    ensures exact { plans.new ≡ timed_plans true lead plans.old }
    ensures few { sum_by (λ x. length x.paths) plans.old ≤ moves_in plans.old }
{
    let mut first = true;
    let mut now = lead;
    let mut i = 0;
    'plans: while i < plans.len() {
        let next = is_first_after(first, &plans[i]);
        now = time_plan(&mut plans[i], first, now);
        first = next;
        i += 1;
    }
}

// The plan with its lead, from the place where the layer before ended, and with the times of its paths.
pub(crate) fn with_lead(job: &Job, at: Pt, plan: LayerPlan) -> LayerPlan
    requires known { All (Names job.now.settings) plan.plans }
    requires from_in { InSquare 1700000 at }
    ensures exact { result ≡ with_lead (rules_of job.now).speed at plan }
    ensures few { path_count_of plan < 2 ^ 40 }
    ensures time { result.lead + time_in plan.plans ≤ 2 ^ 84 }
{
    let mut plan = plan;
    let lead = lead(job, at, plan.plans.items());
    time_plans(plan.plans.items_mut(), u128::from(lead));
    plan.lead = lead;
    plan
}
