// The slow-down of layers that take too little time.

ghost use Rattle.std.specs.Prelude.{◌≡◌, ◌+◌, ◌*◌, ◌<◌, ◌≤◌, ◌^◌, min, max, length, sum_by, ℕ, None};
ghost use Rattle.std.specs.List.{All};
ghost use Rattle.plan_types.specs.Jobs.{Names};
ghost use Rattle.plan_types.specs.Plans.{moves_of, moves_of_plan, moves_in, time_of_plan, time_in};
ghost use Rattle.plan_types.specs.Extruders.{extruder_of};
ghost use Rattle.time_cool.specs.Times.{end_of, print_time, travel_time};
ghost use Rattle.time_cool.specs.Inner.Standing.{Stands};
ghost use Rattle.time_cool.specs.Cooling.{end_of_paths, timed_path, timed_paths, timed_plan, timed_plans, plus, nothing, spent_on_paths, spent_on_plan, spent_on, least_time, is_short, slower, slower_path, slower_paths, slower_plan, slower_plans, slowed_plans, cooled, slow_down_of};
ghost use Rattle.time_cool.specs.Inner.Bounds.{AtMost};

use crate::times::{end_of, path_time_of, print_time, travel_time};
use plan_types::{ExtruderPlan, LayerPlan, Path};
use settings_core::{ExtruderSettings, Settings};
use slice_base::Pt;

/// The time of all print moves, and that of all travels but the one to the layer's first path, in µs.
#[derive(Clone, Copy)]
struct Spent {
    printing: u128,
    travelling: u128,
}

/// The settings of an extruder.
pub(crate) fn extruder(settings: &Settings, number: u8) -> &ExtruderSettings
    requires known { number < length settings.now.extruders }
    ensures exact { result.now ≡ extruder_of settings.now.extruders number }
{
    &settings.extruders.items()[number as usize]
}

// ---- times

fn set_time(e: &ExtruderSettings, from: Option<Pt>, path: &mut Path)
    requires from_in { Stands from }
    ensures exact { path.new ≡ timed_path e.now from path.old }
    ensures time { path.new.time ≤ moves_of path.new * 2 ^ 43 }
{
    path.time = path_time_of(e, from, path);
}

fn set_times(e: &ExtruderSettings, from: Option<Pt>, paths: &mut [Path]) -> Option<Pt>
    requires from_in { Stands from }
    ensures times { paths.new ≡ timed_paths e.now from paths.old }
    ensures time { sum_by (λ p. p.time) paths.new ≤ sum_by moves_of paths.new * 2 ^ 43 }
    ensures end { result ≡ end_of_paths from paths.old }
    ensures stands { Stands result }
{
    let mut at = from;
    let mut i = 0;
    'paths: while i < paths.len() {
        set_time(e, at, &mut paths[i]);
        let path = &paths[i];
        at = end_of(at, path.points.points());
        i += 1;
    }
    at
}

fn set_times_of_plan(settings: &Settings, from: Option<Pt>, plan: &mut ExtruderPlan) -> Option<Pt>
    requires from_in { Stands from }
    requires plan { Names settings.now plan.old }
    ensures times { plan.new ≡ timed_plan settings.now from plan.old }
    ensures time { time_of_plan plan.new ≤ moves_of_plan plan.new * 2 ^ 43 }
    ensures plan { Names settings.now plan.new }
    ensures end { result ≡ end_of_paths from plan.old.paths }
    ensures stands { Stands result }
{
    let e = extruder(settings, plan.extruder);
    set_times(e, from, plan.paths.items_mut())
}

fn set_times_of_plans(settings: &Settings, plans: &mut [ExtruderPlan])
    requires plans { All (Names settings.now) plans.old }
    ensures exact { plans.new ≡ timed_plans settings.now None plans.old }
    ensures time { time_in plans.new ≤ moves_in plans.new * 2 ^ 43 }
    ensures plans { All (Names settings.now) plans.new }
{
    let mut at = None;
    let mut i = 0;
    'plans: while i < plans.len() {
        at = set_times_of_plan(settings, at, &mut plans[i]);
        i += 1;
    }
}

// ---- how long a layer takes

fn plus(a: Spent, b: Spent) -> Spent
    requires a_small { AtMost (2 ^ 100) a }
    requires b_small { AtMost (2 ^ 100) b }
    ensures exact { result ≡ plus a b }
    ensures small { (m n : ℕ) → AtMost m a → AtMost n b → AtMost (m + n) result }
{
    Spent {
        printing: a.printing + b.printing,
        travelling: a.travelling + b.travelling,
    }
}

fn spend_on_path(e: &ExtruderSettings, from: Option<Pt>, path: &Path) -> Spent
    requires from_in { Stands from }
    ensures exact { result ≡ record { printing = print_time path.now; travelling = travel_time e.now from path.now } }
    ensures small { AtMost (moves_of path.now * 5656855000000) result }
{
    let _points = &path.points;
    Spent {
        printing: u128::from(print_time(path)),
        travelling: u128::from(travel_time(e, from, path)),
    }
}

/// What is spent on paths, and where one stands after them.
#[derive(Clone, Copy)]
struct Walked {
    spent: Spent,
    end: Option<Pt>,
}

fn walk(e: &ExtruderSettings, from: Option<Pt>, paths: &[Path]) -> Walked
    requires from_in { Stands from }
    requires few { sum_by moves_of paths.now < 2 ^ 40 }
    ensures exact { result.spent ≡ spent_on_paths e.now from paths.now }
    ensures small { AtMost (sum_by moves_of paths.now * 5656855000000) result.spent }
    ensures end { result.end ≡ end_of_paths from paths.now }
    ensures stands { Stands result.end }
{
    let mut spent = Spent {
        printing: 0,
        travelling: 0,
    };
    let mut end = from;
    for path in paths {
        spent = plus(spent, spend_on_path(e, end, path));
        end = end_of(end, path.points.points());
    }
    Walked { spent, end }
}

fn spent_on(settings: &Settings, plans: &[ExtruderPlan]) -> Spent
    requires plans { All (Names settings.now) plans.now }
    requires few { moves_in plans.now < 2 ^ 40 }
    ensures exact { result ≡ spent_on settings.now None plans.now }
    ensures small { AtMost (2 ^ 83) result }
{
    let mut spent = Spent {
        printing: 0,
        travelling: 0,
    };
    let mut end = None;
    for plan in plans {
        let e = extruder(settings, plan.extruder);
        let walked = walk(e, end, plan.paths.items());
        spent = plus(spent, walked.spent);
        end = walked.end;
    }
    spent
}

// ---- the slow-down

fn least_time(settings: &Settings) -> u128
    ensures { result ≡ least_time settings.now }
{
    u128::from(settings.cool_min_layer_time) * 1000
}

fn is_short(settings: &Settings, spent: Spent) -> bool
    requires { AtMost (2 ^ 83) spent }
    ensures { result ≡ is_short settings.now spent }
{
    spent.printing > 0 && spent.printing + spent.travelling < least_time(settings)
}

fn slower(settings: &Settings, spent: Spent, speed: u32) -> u32
    requires some { 1 ≤ speed }
    requires not_fast { speed ≤ 1000000 }
    requires short { spent.printing + spent.travelling < least_time settings.now }
    requires small { AtMost (2 ^ 83) spent }
    ensures exact { result ≡ slower settings.now spent speed }
    ensures some { 1 ≤ result }
    ensures not_fast { result ≤ speed }
{
    let part = u128::from(speed) * spent.printing / (least_time(settings) - spent.travelling);
    let wanted = part.max(1) as u32;
    speed.min(settings.cool_min_speed).max(wanted)
}

fn slow_path(settings: &Settings, spent: Spent, path: &mut Path)
    requires short { spent.printing + spent.travelling < least_time settings.now }
    requires small { AtMost (2 ^ 83) spent }
    ensures exact { path.new ≡ slower_path settings.now spent path.old }
{
    path.speed = slower(settings, spent, path.speed);
}

fn slow_paths(settings: &Settings, spent: Spent, paths: &mut [Path])
    requires short { spent.printing + spent.travelling < least_time settings.now }
    requires small { AtMost (2 ^ 83) spent }
    ensures exact { paths.new ≡ slower_paths settings.now spent paths.old }
{
    let mut i = 0;
    'paths: while i < paths.len() {
        slow_path(settings, spent, &mut paths[i]);
        i += 1;
    }
}

fn slow_plan(settings: &Settings, spent: Spent, plan: &mut ExtruderPlan)
    requires plan { Names settings.now plan.old }
    requires short { spent.printing + spent.travelling < least_time settings.now }
    requires small { AtMost (2 ^ 83) spent }
    ensures exact { plan.new ≡ slower_plan settings.now spent plan.old }
    ensures plan { Names settings.now plan.new }
{
    slow_paths(settings, spent, plan.paths.items_mut());
}

fn slow_plans(settings: &Settings, spent: Spent, plans: &mut [ExtruderPlan])
    requires plans { All (Names settings.now) plans.old }
    requires short { spent.printing + spent.travelling < least_time settings.now }
    requires small { AtMost (2 ^ 83) spent }
    ensures exact { plans.new ≡ slower_plans settings.now spent plans.old }
    ensures plans { All (Names settings.now) plans.new }
{
    let mut i = 0;
    'plans: while i < plans.len() {
        slow_plan(settings, spent, &mut plans[i]);
        i += 1;
    }
}

fn cool(settings: &Settings, plans: &mut [ExtruderPlan])
    requires plans { All (Names settings.now) plans.old }
    requires few { moves_in plans.old < 2 ^ 40 }
    ensures exact { plans.new ≡ cooled settings.now plans.old }
    ensures time { time_in plans.new ≤ moves_in plans.new * 2 ^ 43 }
    ensures plans { All (Names settings.now) plans.new }
{
    let spent = spent_on(settings, plans);
    if is_short(settings, spent) {
        slow_plans(settings, spent, plans);
    }
    set_times_of_plans(settings, plans);
}

/// Slows a layer down where it takes less than its least time, and gives each path its time: the layer's
/// first path without the travel to it. Only speeds and times change.
pub fn slow_down(plan: &mut LayerPlan, settings: &Settings)
    requires plans { All (Names settings.now) plan.old.plans }
    ensures exact { plan.new ≡ slow_down_of settings.now plan.old }
    ensures plans { All (Names settings.now) plan.new.plans }
{
    cool(settings, plan.plans.items_mut());
}
