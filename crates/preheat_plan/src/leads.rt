// The travel to a layer's first path, and where a layer leaves the print.

ghost use Rattle.std.specs.Prelude.{◌≡◌, ◌≤◌, ◌<◌, length};
ghost use Rattle.std.specs.List.{All};
ghost use Rattle.slice_base.specs.Plane.{InSquare};
ghost use Rattle.plan_types.specs.Extruders.{extruder_of};
ghost use Rattle.plan_types.specs.Jobs.{Names};
ghost use Rattle.plan_types.specs.Leads.{end_of_points, end_of_paths, end_of_plans, time_of_move, lead_to_points, lead_of};
ghost use Rattle.preheat_plan.specs.Past.{rules_of};

use plan_types::{ExtruderPlan, Job, Path};
use settings_core::ExtruderSettings;
use slice_base::{Pt, length};

fn end_of_points(at: Pt, points: &[Pt]) -> Pt
    requires from_in { InSquare 1700000 at }
    requires inside { All (InSquare 1700000) points.now }
    ensures exact { result ≡ end_of_points at points.now }
    ensures inside { InSquare 1700000 result }
{
    let mut end = at;
    for p in points {
        end = *p;
    }
    end
}

fn end_of_path(at: Pt, path: &Path) -> Pt
    requires from_in { InSquare 1700000 at }
    ensures exact { result ≡ end_of_points at path.now.points }
    ensures inside { InSquare 1700000 result }
{
    end_of_points(at, path.points.points())
}

fn end_of_paths(at: Pt, paths: &[Path]) -> Pt
    requires from_in { InSquare 1700000 at }
    ensures exact { result ≡ end_of_paths at paths.now }
    ensures inside { InSquare 1700000 result }
{
    let mut end = at;
    for path in paths {
        end = end_of_path(end, path);
    }
    end
}

/// Where one stands after the paths of some extruders, from `at` on, in µm.
pub fn end_of_plans(at: Pt, plans: &[ExtruderPlan]) -> Pt
    requires from_in { InSquare 1700000 at }
    ensures exact { result ≡ end_of_plans at plans.now }
    ensures inside { InSquare 1700000 result }
{
    let mut end = at;
    for x in plans {
        end = end_of_paths(end, x.paths.items());
    }
    end
}

fn time_of_move(distance: u64, speed: u32) -> u64
    requires some { 1 ≤ speed }
    requires small { distance ≤ 5656855 }
    ensures exact { result ≡ time_of_move distance speed }
    ensures small { result ≤ 5656855000000 }
{
    (distance * 1_000_000).div_ceil(u64::from(speed))
}

fn lead_to_path(e: &ExtruderSettings, at: Pt, path: &Path) -> u64
    requires from_in { InSquare 1700000 at }
    ensures exact { result ≡ lead_to_points at e.now.speed_travel path.now.points }
    ensures small { result ≤ 5656855000000 }
{
    match path.points.points() {
        [] => 0,
        [first, ..] => time_of_move(length(at, *first), e.speed_travel),
    }
}

/// The settings of an extruder that the printer has.
pub fn extruder(job: &Job, number: u8) -> &ExtruderSettings
    requires known { number < length job.now.settings.extruders }
    ensures { result.now ≡ extruder_of job.now.settings.extruders number }
{
    let settings = &job.settings;
    &settings.extruders.items()[number as usize]
}

/// The time of the travel from `at` to a layer's first path, µs, at the speed of its extruder; 0 where the layer has
/// no path.
pub fn lead(job: &Job, at: Pt, plans: &[ExtruderPlan]) -> u64
    requires known { All (Names job.now.settings) plans.now }
    requires from_in { InSquare 1700000 at }
    ensures exact { result ≡ lead_of (rules_of job.now).speed at plans.now }
    ensures small { result ≤ 5656855000000 }
{
    for x in plans {
        if let Some(path) = x.paths.items().first() {
            return lead_to_path(extruder(job, x.extruder), at, path);
        }
    }
    0
}
