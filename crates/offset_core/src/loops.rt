// Loops whose edges are moved.

ghost use Rattle.std.specs.Prelude.{◌≡◌, ◌+◌, ◌*◌, ◌<◌, ◌≤◌, ◌++◌, [], ◌∷◌, IfOk, OnOk};
ghost use Rattle.std.specs.Int.RustNames.{unsigned_abs};
ghost use Rattle.std.specs.List.{All};
ghost use Rattle.slice_base.specs.Plane.{InSquare};
ghost use Rattle.slice_base.specs.Boxes.{Box, IsIn, grown};
ghost use Rattle.slice_base.specs.Regions.{RegionIn};
ghost use Rattle.offset_core.specs.Corners.{corners_of, unless_same, apart_of, moved_loop_of, moved_loops_of};

use crate::corners::push_corner;
use crate::normals::Distance;
use slice_base::{Loop, NoMemory, Pt, Region, is_same};
use std::alloc::Global;

// Puts `p` behind the others, unless it is `a`.
fn push_unless_same(apart: &mut Loop, a: Pt, p: Pt) -> Result<(), NoMemory>
    ensures { OnOk result (apart.new ≡ apart.old ++ unless_same a p) }
{
    if is_same(a, p) {
        return Ok(());
    }
    apart.push(p)
}

// The points of a loop that aren't the point before them; before the first stands the last.
fn apart(alloc: Global, points: &[Pt]) -> Result<Loop, NoMemory>
    ensures { IfOk result (λ apart. apart ≡ apart_of points.now) }
{
    let mut apart = Loop::new(alloc);
    if points.is_empty() {
        return Ok(apart);
    }
    let mut a = points[points.len() - 1];
    for p in points {
        push_unless_same(&mut apart, a, *p)?;
        a = *p;
    }
    Ok(apart)
}

// What the corners of a loop become, one after the other.
fn corners(alloc: Global, points: &[Pt], d: Distance) -> Result<Loop, NoMemory>
    requires points_in { All (InSquare 1700000) points.now }
    requires some { 0 < unsigned_abs d.by }
    requires d_small { unsigned_abs d.by ≤ 100000 }
    ensures is { IfOk result (λ corners. corners ≡ corners_of d.by points.now) }
    ensures within { IfOk result (λ corners. (box : Box) → All (IsIn box) points.now
        → All (IsIn (grown (3 * unsigned_abs d.by + 3) box)) corners) }
{
    let mut corners = Loop::new(alloc);
    if points.is_empty() {
        return Ok(corners);
    }
    let first = points[0];
    let mut a = points[points.len() - 1];
    let mut p = first;
    for q in &points[1..] {
        push_corner(&mut corners, a, p, *q, d)?;
        a = p;
        p = *q;
    }
    push_corner(&mut corners, a, p, first, d)?;
    Ok(corners)
}

// A loop, its edges moved.
fn moved_loop(alloc: Global, points: &[Pt], d: Distance) -> Result<Loop, NoMemory>
    requires points_in { All (InSquare 1700000) points.now }
    requires some { 0 < unsigned_abs d.by }
    requires d_small { unsigned_abs d.by ≤ 100000 }
    ensures is { IfOk result (λ moved. moved ≡ moved_loop_of d.by points.now) }
    ensures within { IfOk result (λ moved. (box : Box) → All (IsIn box) points.now
        → All (IsIn (grown (3 * unsigned_abs d.by + 3) box)) moved) }
{
    let apart = apart(alloc, points)?;
    corners(alloc, apart.points(), d)
}

/// The loops of a region, their edges moved.
pub(crate) fn moved_loops(alloc: Global, region: &Region, d: Distance) -> Result<Region, NoMemory>
    requires points_in { All (All (InSquare 1700000)) region.now }
    requires some { 0 < unsigned_abs d.by }
    requires d_small { unsigned_abs d.by ≤ 100000 }
    ensures is { IfOk result (λ moved. moved ≡ moved_loops_of d.by region.now) }
    ensures within { IfOk result (λ moved. (box : Box) → RegionIn box region.now
        → RegionIn (grown (3 * unsigned_abs d.by + 3) box) moved) }
{
    let mut moved = Region::new(alloc);
    for l in region.loops() {
        moved.push(moved_loop(alloc, l.points(), d)?)?;
    }
    Ok(moved)
}
