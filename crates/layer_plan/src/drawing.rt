// Paths, drawn one after another from where one stands.

ghost use Rattle.std.specs.Prelude.{◌≡◌, OnOk};
ghost use Rattle.std.specs.List.{All, slice_get};
ghost use Rattle.slice_base.specs.Plane.{InSquare};
ghost use Rattle.layer_plan.specs.Pieces.{way_if};
ghost use Rattle.layer_plan.specs.Drawing.{first_or, last_or, retracts, with_way, with_ways, with_group};
ghost use Rattle.layer_plan.specs.Inner.Sound.{IsWay, IsPen, IsPiece, IsGroup, IsDrawing};

use crate::groups::{Group, Pen};
use crate::pieces::way_of;
use path_order::{Piece, Visit, order};
use plan_types::Path;
use settings_core::ExtruderSettings;
use slice_base::{Items, Loop, NoMemory, Pt, length};
use std::alloc::Global;

/// The paths of an extruder so far, and where one stands.
#[derive(Drop)]
pub(crate) struct Drawing {
    pub(crate) at: Pt,
    pub(crate) paths: Items<Path>,
}

fn first_or(at: Pt, points: &[Pt]) -> Pt
    ensures { result ≡ first_or at points.now }
{
    match points {
        [] => at,
        [first, ..] => *first,
    }
}

fn last_or(at: Pt, points: &[Pt]) -> Pt
    ensures { result ≡ last_or at points.now }
{
    match points {
        [] => at,
        [.., last] => *last,
    }
}

fn retracts(e: &ExtruderSettings, drawing: &Drawing, to: Pt) -> bool
    requires drawing { IsDrawing drawing.now }
    requires to_in { InSquare 1700000 to }
    ensures { result ≡ retracts e.now drawing.now to }
{
    if e.retraction_enable {
        drawing.paths.is_empty() || u64::from(e.retraction_min_travel) <= length(drawing.at, to)
    } else {
        false
    }
}

fn draw_way(
    e: &ExtruderSettings,
    pen: Pen,
    points: Loop,
    drawing: &mut Drawing,
) -> Result<(), NoMemory>
    requires pen { IsPen pen }
    requires way { IsWay points }
    requires drawing { IsDrawing drawing.old }
    ensures exact { OnOk result (drawing.new ≡ with_way e.now pen drawing.old points) }
    ensures drawing { IsDrawing drawing.new }
{
    let retract = retracts(e, drawing, first_or(drawing.at, points.points()));
    let end = last_or(drawing.at, points.points());
    drawing.paths.push(Path {
        kind: pen.kind,
        width: pen.width,
        thickness: pen.thickness,
        speed: pen.speed,
        points,
        retract,
        time: 0,
        before: 0,
    })?;
    drawing.at = end;
    Ok(())
}

fn draw_visit(
    alloc: Global,
    e: &ExtruderSettings,
    pen: Pen,
    pieces: &[Piece],
    v: Visit,
    drawing: &mut Drawing,
) -> Result<(), NoMemory>
    requires pen { IsPen pen }
    requires pieces { All IsPiece pieces.now }
    requires drawing { IsDrawing drawing.old }
    ensures exact { OnOk result (drawing.new ≡ with_ways e.now pen drawing.old
        (way_if (slice_get pieces.now v.piece) v.start)) }
    ensures drawing { IsDrawing drawing.new }
{
    match pieces.get(v.piece as usize) {
        None => Ok(()),
        Some(p) => {
            let way = way_of(alloc, p, v.start)?;
            draw_way(e, pen, way, drawing)
        }
    }
}

/// Draws the pieces of a group in their order.
pub(crate) fn draw_group(
    alloc: Global,
    e: &ExtruderSettings,
    group: &Group,
    drawing: &mut Drawing,
) -> Result<(), NoMemory>
    requires group { IsGroup group.now }
    requires drawing { IsDrawing drawing.old }
    ensures exact { OnOk result (drawing.new ≡ with_group e.now drawing.old group.now) }
    ensures drawing { IsDrawing drawing.new }
{
    let pieces = group.pieces.items();
    let visits = order(alloc, pieces, drawing.at, group.seam)?;
    for v in visits.as_slice() {
        draw_visit(alloc, e, group.pen, pieces, *v, drawing)?;
    }
    Ok(())
}
