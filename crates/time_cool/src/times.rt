// Times of moves and paths.

ghost use Rattle.std.specs.Prelude.{◌≡◌, ◌+◌, ◌*◌, ◌<◌, ◌≤◌, ◌^◌, Some, None, ◌∷◌, length, List};
ghost use Rattle.std.specs.List.{All};
ghost use Rattle.slice_base.specs.Plane.{InSquare};
ghost use Rattle.plan_types.specs.Plans.{moves_of};
ghost use Rattle.time_cool.specs.Times.{move_time, time_between, time_through, print_time, way_of, travel_time, retraction_time, path_time_of, end_of, plan_time_of};
ghost use Rattle.time_cool.specs.Inner.Standing.{Stands};

use plan_types::{ExtruderPlan, Path};
use settings_core::ExtruderSettings;
use slice_base::{Pt, length};

fn move_time(distance: u64, speed: u32) -> u64
    requires some { 1 ≤ speed }
    requires small { distance ≤ 5656855 }
    ensures exact { result ≡ move_time distance speed }
    ensures small { result ≤ 5656855000000 }
    ensures brief { 100 ≤ speed → result ≤ 56568550000 }
{
    let s = u64::from(speed);
    (distance * 1_000_000 + (s - 1)) / s
}

fn time_between(speed: u32, p: Pt, q: Pt) -> u64
    requires some { 1 ≤ speed }
    requires p_in { InSquare 1700000 p }
    requires q_in { InSquare 1700000 q }
    ensures exact { result ≡ time_between speed p q }
    ensures small { result ≤ 5656855000000 }
    ensures brief { 100 ≤ speed → result ≤ 56568550000 }
{
    move_time(length(p, q), speed)
}

/// The time from a point through others.
pub(crate) fn time_through(speed: u32, from: Pt, points: &[Pt]) -> u64
    requires some { 1 ≤ speed }
    requires from_in { InSquare 1700000 from }
    requires inside { All (InSquare 1700000) points.now }
    requires few { length points.now ≤ 200000 }
    ensures exact { result ≡ time_through speed from points.now }
    ensures small { result ≤ length points.now * 5656855000000 }
{
    let mut at = from;
    let mut time = 0;
    for q in points {
        time += time_between(speed, at, *q);
        at = *q;
    }
    time
}

pub(crate) fn print_time(path: &Path) -> u64
    ensures exact { result ≡ print_time path.now }
    ensures small { result ≤ moves_of path.now * 5656855000000 }
{
    match path.points.points() {
        [] => 0,
        [first, rest @ ..] => time_through(path.speed, *first, rest),
    }
}

pub(crate) fn travel_time(e: &ExtruderSettings, from: Option<Pt>, path: &Path) -> u64
    requires from_in { Stands from }
    ensures exact { result ≡ travel_time e.now from path.now }
    ensures small { result ≤ 56568550000 }
{
    match from {
        None => 0,
        Some(p) => match path.points.points() {
            [] => 0,
            [first, ..] => time_between(e.speed_travel, p, *first),
        },
    }
}

/// The time of pulling filament back and pushing it in again.
fn retraction_time(e: &ExtruderSettings, retract: bool) -> u64
    ensures exact { result ≡ retraction_time e.now retract }
    ensures small { result ≤ 2 * 56568550000 }
{
    if retract {
        2 * move_time(u64::from(e.retraction_amount), e.retraction_speed)
    } else {
        0
    }
}

/// The time of a path, with the travel to it from a point, if there is one.
pub(crate) fn path_time_of(e: &ExtruderSettings, from: Option<Pt>, path: &Path) -> u64
    requires from_in { Stands from }
    ensures exact { result ≡ path_time_of e.now from path.now }
    ensures by_moves { result ≤ moves_of path.now * 2 ^ 43 }
    ensures small { result < 2 ^ 61 }
{
    let travel = travel_time(e, from, path);
    travel + (print_time(path) + retraction_time(e, path.retract))
}

/// Where one stands after a path.
pub(crate) fn end_of(from: Option<Pt>, points: &[Pt]) -> Option<Pt>
    requires from_in { Stands from }
    requires inside { All (InSquare 1700000) points.now }
    ensures exact { result ≡ end_of from points.now }
    ensures inside { Stands result }
{
    match points {
        [] => from,
        [.., last] => Some(*last),
    }
}

/// The estimated time of a path with the travel to it, µs.
pub fn path_time(from: Pt, path: &Path, e: &ExtruderSettings) -> u64
    requires from_in { InSquare 1700000 from }
    ensures exact { result ≡ path_time_of e.now (Some from) path.now }
    ensures small { result < 2 ^ 61 }
{
    path_time_of(e, Some(from), path)
}

/// The estimated time of all paths of an extruder, each from the end of the one before, µs.
pub fn plan_time(from: Pt, plan: &ExtruderPlan, e: &ExtruderSettings) -> u128
    requires from_in { InSquare 1700000 from }
    ensures { result ≡ plan_time_of e.now (Some from) plan.now }
{
    let mut at = Some(from);
    let mut time = 0;
    for path in plan.paths.items() {
        time += u128::from(path_time_of(e, at, path));
        at = end_of(at, path.points.points());
    }
    time
}
