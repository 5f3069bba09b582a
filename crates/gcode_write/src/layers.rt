// The text of a layer.

ghost use Rattle.std.specs.Prelude.{◌≡◌, ◌+◌, ◌*◌, ◌<◌, ◌≤◌, ◌^◌, ◌==◌, None, cond, length};
ghost use Rattle.std.specs.List.{All, sum_by};
ghost use Rattle.plan_types.specs.Plans.{moves_of, moves_of_plan, moves_in, volume_of, volume_of_plan, volume_in, time_of_plan, time_in};
ghost use Rattle.outside.specs.Pens.{Wrote};
ghost use Rattle.gcode_write.specs.Layers.{volume_before, height_at, path_of, after_path, paths_of, after_paths, plans_of, after_plans, fan_change_of, entered_of, after_layer, layer_text_of};

use crate::filament::extruder;
use crate::lines::{put_blow, put_count, put_elapsed};
use crate::moves::put_print;
use crate::paths::put_boundary;
use crate::progress::Progress;
use gcode_text::Counted;
use outside::{Pen, Sink, pens_add_up};
use plan_types::{ExtruderPlan, Kind, LayerPlan, Path};
use settings_core::ExtruderSettings;

fn volume_before(progress: Progress, e: u8) -> u128
    ensures volume { result ≡ volume_before progress e }
    ensures small { result ≤ progress.volume }
{
    if progress.extruder == e {
        progress.volume
    } else {
        0
    }
}

fn height_at(at: u64, z: i32) -> Option<i32>
    ensures { result ≡ height_at at z }
{
    if at == 0 { Some(z) } else { None }
}

fn put_path<S: Sink>(
    pen: &mut Pen<S>,
    extruders: &[ExtruderSettings],
    layer: &LayerPlan,
    progress: Progress,
    e: u8,
    at: u64,
    kind: Option<Kind>,
    path: &Path,
) -> Progress
    requires known { e < length extruders.now }
    requires from { progress.extruder < length extruders.now }
    requires volume { progress.volume + 500 * volume_of path.now < 2 ^ 116 }
    requires elapsed { progress.elapsed + path.now.time < 2 ^ 100 }
    ensures wrote { Wrote S.output pen.old (path_of extruders.now layer.now progress e at kind path.now) pen.new }
    ensures after { result ≡ after_path extruders.now progress e path.now }
    ensures volume { result.volume ≤ progress.volume + 500 * volume_of path.now }
    ensures moves { 1 ≤ moves_of path.now }
{
    pens_add_up::<S>();
    put_boundary(
        pen,
        extruders,
        progress.extruder,
        e,
        at,
        layer.inserts.items(),
    );
    let x = extruder(extruders, e);
    let volume = volume_before(progress, e);
    let _flow = x.material_flow;
    let volume = put_print(pen, &x, height_at(at, layer.z), kind, volume, path);
    Progress {
        extruder: e,
        volume,
        elapsed: progress.elapsed + u128::from(path.time),
        fan: progress.fan,
    }
}

fn put_paths<S: Sink>(
    pen: &mut Pen<S>,
    extruders: &[ExtruderSettings],
    layer: &LayerPlan,
    progress: Progress,
    e: u8,
    at: u64,
    paths: &[Path],
) -> Progress
    requires known { e < length extruders.now }
    requires from { progress.extruder < length extruders.now }
    requires volume { progress.volume + 500 * sum_by volume_of paths.now < 2 ^ 116 }
    requires elapsed { progress.elapsed + sum_by (λ p. p.time) paths.now < 2 ^ 100 }
    requires few { at + sum_by moves_of paths.now < 2 ^ 40 }
    ensures wrote { Wrote S.output pen.old (paths_of extruders.now layer.now progress e at None paths.now) pen.new }
    ensures after { result ≡ after_paths extruders.now progress e paths.now }
    ensures known { result.extruder < length extruders.now }
    ensures volume { result.volume ≤ progress.volume + 500 * sum_by volume_of paths.now }
    ensures elapsed { result.elapsed ≤ progress.elapsed + sum_by (λ p. p.time) paths.now }
    ensures few { length paths.now ≤ sum_by moves_of paths.now }
{
    pens_add_up::<S>();
    let mut now = progress;
    let mut next = at;
    let mut kind = None;
    for path in paths {
        now = put_path(pen, extruders, layer, now, e, next, kind, path);
        next += 1;
        kind = Some(path.kind);
    }
    now
}

fn put_plans<S: Sink>(
    pen: &mut Pen<S>,
    extruders: &[ExtruderSettings],
    layer: &LayerPlan,
    progress: Progress,
    plans: &[ExtruderPlan],
) -> Progress
    requires known { All (λ x. x.extruder < length extruders.now) plans.now }
    requires from { progress.extruder < length extruders.now }
    requires volume { progress.volume + 500 * volume_in plans.now < 2 ^ 116 }
    requires elapsed { progress.elapsed + time_in plans.now < 2 ^ 100 }
    requires few { moves_in plans.now < 2 ^ 40 }
    ensures wrote { Wrote S.output pen.old (plans_of extruders.now layer.now progress 0 plans.now) pen.new }
    ensures after { result ≡ after_plans extruders.now progress plans.now }
    ensures known { result.extruder < length extruders.now }
    ensures volume { result.volume ≤ progress.volume + 500 * volume_in plans.now }
    ensures elapsed { result.elapsed ≤ progress.elapsed + time_in plans.now }
{
    pens_add_up::<S>();
    let mut now = progress;
    let mut next = 0u64;
    for plan in plans {
        let paths = plan.paths.items();
        now = put_paths(pen, extruders, layer, now, plan.extruder, next, paths);
        next += paths.len() as u64;
    }
    now
}

fn put_fan_change<S: Sink>(pen: &mut Pen<S>, stays: bool, power: u8)
    ensures { Wrote S.output pen.old (fan_change_of stays power) pen.new }
{
    pens_add_up::<S>();
    if stays {
        return;
    }
    put_blow(pen, power);
}

fn entered(progress: Progress, layer: &LayerPlan) -> Progress
    requires { progress.elapsed < 2 ^ 100 }
    ensures entered { result ≡ entered_of progress layer.now }
    ensures volume { result.volume ≡ progress.volume }
    ensures elapsed { result.elapsed ≤ progress.elapsed + 2 ^ 64 }
{
    Progress {
        elapsed: progress.elapsed + u128::from(layer.lead),
        fan: layer.fan,
        ..progress
    }
}

// Puts the text of a layer, and says where it leaves the print.
pub(crate) fn put_layer<S: Sink>(
    pen: &mut Pen<S>,
    extruders: &[ExtruderSettings],
    progress: Progress,
    layer: &LayerPlan,
) -> Progress
    requires known { All (λ x. x.extruder < length extruders.now) layer.now.plans }
    requires from { progress.extruder < length extruders.now }
    requires volume { progress.volume ≤ 2 ^ 115 }
    requires elapsed { progress.elapsed + 2 ^ 84 ≤ 2 ^ 100 }
    ensures wrote { Wrote S.output pen.old (layer_text_of extruders.now progress layer.now) pen.new }
    ensures after { result ≡ after_layer extruders.now progress layer.now }
    ensures known { result.extruder < length extruders.now }
    ensures volume { result.volume ≤ progress.volume + 2 ^ 99 }
    ensures elapsed { result.elapsed ≤ progress.elapsed + 2 ^ 84 }
{
    pens_add_up::<S>();
    put_count(pen, Counted::Layer, u64::from(layer.number));
    put_fan_change(pen, progress.fan == layer.fan, layer.fan);
    let begun = entered(progress, layer);
    let after = put_plans(pen, extruders, layer, begun, layer.plans.items());
    put_elapsed(pen, after.elapsed);
    after
}
