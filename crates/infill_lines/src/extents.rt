// How far across a region reaches.

ghost use Rattle.std.specs.Prelude.{◌≡◌, None};
ghost use Rattle.std.specs.List.{All};
ghost use Rattle.slice_base.specs.Plane.{InSquare};
ghost use Rattle.infill_lines.specs.Fill.{lowered, raised, stretched, extent_of, extent_of_all};
ghost use Rattle.infill_lines.specs.Inner.Places.{IsPlace, IsSpan, IsExtent};

use crate::angles::{Angle, Place, place_of};
use slice_base::{Pt, Region};

/// The least and the greatest place across.
#[derive(Clone, Copy)]
pub(crate) struct Extent {
    pub(crate) least: i32,
    pub(crate) greatest: i32,
}

fn lowered(e: Extent, at: Place) -> Extent
    requires small { IsPlace 3400000 at }
    requires span { IsSpan e }
    ensures exact { result ≡ lowered e at.across }
    ensures span { IsSpan result }
{
    if at.across < e.least {
        Extent {
            least: at.across,
            greatest: e.greatest,
        }
    } else {
        e
    }
}

fn raised(e: Extent, at: Place) -> Extent
    requires small { IsPlace 3400000 at }
    requires span { IsSpan e }
    ensures exact { result ≡ raised e at.across }
    ensures span { IsSpan result }
{
    if e.greatest < at.across {
        Extent {
            least: e.least,
            greatest: at.across,
        }
    } else {
        e
    }
}

fn stretched(extent: Option<Extent>, at: Place) -> Option<Extent>
    requires small { IsPlace 3400000 at }
    requires extent { IsExtent extent }
    ensures exact { result ≡ stretched extent at.across }
    ensures small { IsExtent result }
{
    match extent {
        None => Some(Extent {
            least: at.across,
            greatest: at.across,
        }),
        Some(e) => Some(raised(lowered(e, at), at)),
    }
}

fn extent_of(extent: Option<Extent>, angle: Angle, points: &[Pt]) -> Option<Extent>
    requires inside { All (InSquare 1700000) points.now }
    requires extent { IsExtent extent }
    ensures exact { result ≡ extent_of angle extent points.now }
    ensures small { IsExtent result }
{
    let mut found = extent;
    for p in points {
        found = stretched(found, place_of(angle, *p));
    }
    found
}

pub(crate) fn extent_of_all(angle: Angle, region: &Region) -> Option<Extent>
    requires { All (All (InSquare 1700000)) region.now }
    ensures exact { result ≡ extent_of_all angle None region.now }
    ensures small { IsExtent result }
{
    let mut extent = None;
    for l in region.loops() {
        extent = extent_of(extent, angle, l.points());
    }
    extent
}
