// What the paths of a layer take by themselves.

ghost use Rattle.std.specs.Prelude.{◌≡◌, ◌+◌, ◌*◌, ◌<◌, ◌≤◌, ◌^◌, ◌==◌, cond, length, map};
ghost use Rattle.std.specs.Int.RustNames.{unsigned_abs};
ghost use Rattle.std.specs.List.{All, sum_by};
ghost use Rattle.slice_base.specs.Plane.{InSquare};
ghost use Rattle.plan_types.specs.Orders.{all_extruders};
ghost use Rattle.plan_types.specs.Plans.{length_through, length_along, volume_of, volume_of_plan, volume_in, time_of_plan, time_in};
ghost use Rattle.print_totals.specs.Totals.{volume_by};
ghost use Rattle.print_totals.specs.Spending.{amounts_of};

use plan_types::{ExtruderPlan, LayerPlan, Path};
use slice_base::{Pt, length};

/// What the paths of a layer take by themselves.
#[derive(Clone, Copy)]
pub struct Amounts {
    /// Their times, µs, without the travel to the first of them.
    pub time: u128,
    /// The volume of each extruder, by number, at a flow of 100 percent, µm³.
    pub volumes: [u128; 8],
}

// ---- volumes

fn length_through(from: Pt, points: &[Pt]) -> u64
    requires from_in { InSquare 1700000 from }
    requires inside { All (InSquare 1700000) points.now }
    requires few { length points.now ≤ 200000 }
    ensures exact { result ≡ length_through from points.now }
    ensures small { result < 2 ^ 41 }
{
    let mut at = from;
    let mut way = 0;
    for q in points {
        way += length(at, *q);
        at = *q;
    }
    way
}

fn path_length(path: &Path) -> u64
    ensures exact { result ≡ length_along path.now.points }
    ensures small { result < 2 ^ 41 }
{
    match path.points.points() {
        [] => 0,
        [first, rest @ ..] => length_through(*first, rest),
    }
}

fn line_area(width: u32, thickness: u32) -> u64
    ensures { result ≡ width * thickness }
{
    u64::from(width) * u64::from(thickness)
}

fn volume_of(path: &Path) -> u128
    ensures { result ≡ volume_of path.now }
{
    let area = line_area(path.width.unsigned_abs(), path.thickness.unsigned_abs());
    u128::from(path_length(path)) * u128::from(area)
}

fn volume_of_plan(plan: &ExtruderPlan) -> u128
    requires { volume_of_plan plan.now ≤ 2 ^ 90 }
    ensures { result ≡ volume_of_plan plan.now }
{
    let mut volume = 0;
    for path in plan.paths.items() {
        volume += volume_of(path);
    }
    volume
}

fn volume_of_use(e: u8, plan: &ExtruderPlan) -> u128
    requires { volume_of_plan plan.now ≤ 2 ^ 90 }
    ensures exact { result ≡ cond (plan.now.extruder == e) (volume_of_plan plan.now) 0 }
    ensures within { result ≤ volume_of_plan plan.now }
{
    if plan.extruder == e {
        volume_of_plan(plan)
    } else {
        0
    }
}

fn volume_by(e: u8, plans: &[ExtruderPlan]) -> u128
    requires { volume_in plans.now ≤ 2 ^ 90 }
    ensures { result ≡ volume_by e plans.now }
{
    let mut volume = 0;
    for plan in plans {
        volume += volume_of_use(e, plan);
    }
    volume
}

fn volumes_in(plans: &[ExtruderPlan]) -> [u128; 8]
    requires { volume_in plans.now ≤ 2 ^ 90 }
    ensures { result ≡ map (λ e. volume_by e plans.now) all_extruders }
{
    [
        volume_by(0, plans),
        volume_by(1, plans),
        volume_by(2, plans),
        volume_by(3, plans),
        volume_by(4, plans),
        volume_by(5, plans),
        volume_by(6, plans),
        volume_by(7, plans),
    ]
}

// ---- times

fn time_of_plan(plan: &ExtruderPlan) -> u128
    requires { time_of_plan plan.now ≤ 2 ^ 83 }
    ensures { result ≡ time_of_plan plan.now }
{
    let mut time = 0;
    for path in plan.paths.items() {
        time += u128::from(path.time);
    }
    time
}

fn time_in(plans: &[ExtruderPlan]) -> u128
    requires { time_in plans.now ≤ 2 ^ 83 }
    ensures { result ≡ time_in plans.now }
{
    let mut time = 0;
    for plan in plans {
        time += time_of_plan(plan);
    }
    time
}

/// What the paths of a layer take by themselves.
pub fn amounts_of(layer: &LayerPlan) -> Amounts
    ensures { result ≡ amounts_of layer.now }
{
    let plans = layer.plans.items();
    Amounts {
        time: time_in(plans),
        volumes: volumes_in(plans),
    }
}
