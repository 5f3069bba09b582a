// The travel to a path and its print moves.

ghost use Rattle.std.specs.Prelude.{◌≡◌, ◌+◌, ◌*◌, ◌<◌, ◌^◌, ◌==◌, Some, length};
ghost use Rattle.std.specs.List.{All};
ghost use Rattle.slice_base.specs.Plane.{InSquare};
ghost use Rattle.plan_types.specs.Plans.{length_through};
ghost use Rattle.outside.specs.Pens.{Wrote};
ghost use Rattle.gcode_text.specs.Lines.{extrude_of};
ghost use Rattle.gcode_write.specs.Filament.{path_volume_of, extruded_of};
ghost use Rattle.gcode_write.specs.Paths.{retraction_of, retraction_end_of, approach_of, kind_number_of, is_same_kind, kind_change_of, print_moves_of, print_of};

use crate::filament::{extruded, line_area, move_volume, retracted};
use crate::lines::{put_extrude, put_filament, put_kind, put_travel};
use outside::{Pen, Sink, pens_add_up};
use plan_types::{Kind, Path};
use settings_core::ExtruderSettings;
use slice_base::Pt;

fn put_retraction<S: Sink>(pen: &mut Pen<S>, x: &ExtruderSettings, retract: bool, volume: u128)
    requires { volume < 2 ^ 116 }
    ensures { Wrote S.output pen.old (retraction_of x.now retract volume) pen.new }
{
    pens_add_up::<S>();
    if !retract {
        return;
    }
    put_filament(pen, x.retraction_speed, retracted(x, volume));
}

fn put_retraction_end<S: Sink>(pen: &mut Pen<S>, x: &ExtruderSettings, retract: bool, volume: u128)
    requires { volume < 2 ^ 116 }
    ensures { Wrote S.output pen.old (retraction_end_of x.now retract volume) pen.new }
{
    pens_add_up::<S>();
    if !retract {
        return;
    }
    put_filament(pen, x.retraction_speed, extruded(x, volume));
}

fn put_approach<S: Sink>(
    pen: &mut Pen<S>,
    x: &ExtruderSettings,
    retract: bool,
    volume: u128,
    to: Pt,
    z: Option<i32>,
)
    requires { volume < 2 ^ 116 }
    ensures { Wrote S.output pen.old (approach_of x.now retract volume to z) pen.new }
{
    pens_add_up::<S>();
    put_retraction(pen, x, retract, volume);
    put_travel(pen, x.speed_travel, to, z);
    put_retraction_end(pen, x, retract, volume);
}

fn kind_number(kind: Kind) -> u8
    ensures { result ≡ kind_number_of kind }
{
    match kind {
        Kind::WallOuter => 0,
        Kind::WallInner => 1,
        Kind::Skin => 2,
        Kind::Fill => 3,
        Kind::Skirt => 4,
        Kind::Support => 5,
    }
}

fn is_same_kind(before: Option<Kind>, kind: Kind) -> bool
    ensures { result ≡ is_same_kind before kind }
{
    match before {
        None => false,
        Some(before) => kind_number(before) == kind_number(kind),
    }
}

fn put_kind_change<S: Sink>(pen: &mut Pen<S>, stays: bool, kind: Kind)
    ensures { Wrote S.output pen.old (kind_change_of stays kind) pen.new }
{
    pens_add_up::<S>();
    if stays {
        return;
    }
    put_kind(pen, kind);
}

// A print move to a point, behind which the extruder has filled this volume.
fn put_print_move<S: Sink>(
    pen: &mut Pen<S>,
    x: &ExtruderSettings,
    speed: Option<u32>,
    volume: u128,
    to: Pt,
)
    requires { volume < 2 ^ 116 }
    ensures { Wrote S.output pen.old (extrude_of speed to (extruded_of x.now volume)) pen.new }
{
    put_extrude(pen, speed, to, extruded(x, volume));
}

// Print moves from a point through others, and the volume behind them.
fn put_print_moves<S: Sink>(
    pen: &mut Pen<S>,
    x: &ExtruderSettings,
    area: u64,
    speed: u32,
    volume: u128,
    from: Pt,
    points: &[Pt],
) -> u128
    requires small { volume + length_through from points.now * area * x.now.material_flow < 2 ^ 116 }
    requires from { InSquare 1700000 from }
    requires points { All (InSquare 1700000) points.now }
    ensures wrote { Wrote S.output pen.old (print_moves_of x.now area (Some speed) volume from points.now) pen.new }
    ensures volume { result ≡ volume + length_through from points.now * area * x.now.material_flow }
{
    pens_add_up::<S>();
    let mut told = Some(speed);
    let mut total = volume;
    let mut at = from;
    for p in points {
        total += move_volume(x, area, at, *p);
        put_print_move(pen, x, told, total, *p);
        told = None;
        at = *p;
    }
    total
}

// The travel to a path, its kind where it changes, and its print moves; and the volume behind them.
pub(crate) fn put_print<S: Sink>(
    pen: &mut Pen<S>,
    x: &ExtruderSettings,
    z: Option<i32>,
    kind: Option<Kind>,
    volume: u128,
    path: &Path,
) -> u128
    requires { volume + path_volume_of x.now path.now < 2 ^ 116 }
    ensures wrote { Wrote S.output pen.old (print_of x.now z kind volume path.now path.now.points) pen.new }
    ensures volume { result ≡ volume + path_volume_of x.now path.now }
{
    pens_add_up::<S>();
    match path.points.points() {
        [] => volume,
        [from, points @ ..] => {
            put_approach(pen, x, path.retract, volume, *from, z);
            put_kind_change(pen, is_same_kind(kind, path.kind), path.kind);
            put_print_moves(pen, x, line_area(path), path.speed, volume, *from, points)
        }
    }
}
