// The crossings of a line in order, and in pairs.

ghost use Rattle.std.specs.Prelude.{◌≡◌, ◌++◌, [], IfOk, OnOk};
ghost use Rattle.std.specs.List.{All};
ghost use Rattle.std.specs.List.Sorted.{IsNonDecreasingBy, IsPermutation};
ghost use Rattle.infill_lines.specs.Fill.{in_order, edge_between, paired};
ghost use Rattle.infill_lines.specs.Inner.Places.{IsPlace};
ghost use Rattle.infill_lines.specs.Inner.Sorting.{number_of, IsOnLine};

use crate::angles::{Angle, Place, point_of};
use crate::crossings::Line;
use slice_base::{Edge, NoMemory, Pt, is_same};
use std::alloc::Global;

fn number_of(p: Place) -> u64
    ensures { result ≡ number_of p }
{
    (i64::from(p.along) + 0x8000_0000) as u64
}

fn sorted(alloc: Global, places: &[Place]) -> Result<Vec<Place>, NoMemory>
    ensures rising { IfOk result (λ v. IsNonDecreasingBy number_of v.items) }
    ensures same { IfOk result (λ v. IsPermutation places.now v.items) }
{
    let mut sorted = Vec::from_slice(alloc, places)?;
    sorted.sort_by_key(|p| number_of(*p))?;
    Ok(sorted)
}

/// The crossings of a line in order along it.
pub(crate) fn in_order(alloc: Global, places: &[Place], line: Line) -> Result<Vec<Place>, NoMemory>
    requires { All (IsOnLine line.at) places.now }
    ensures exact { IfOk result (λ v. v.items ≡ in_order [] places.now) }
    ensures small { IfOk result (λ v. All (IsPlace 3400000) v.items) }
{
    let places = sorted(alloc, places)?;
    Ok(places)
}

fn push_edge(edges: &mut Vec<Edge>, p: Pt, q: Pt) -> Result<(), NoMemory>
    ensures { OnOk result (edges.new.items ≡ edges.old.items ++ edge_between p q) }
{
    if !is_same(p, q) {
        edges.push(Edge { from: p, to: q })?;
    }
    Ok(())
}

/// The edges from each first place to each second one.
pub(crate) fn push_pairs(
    edges: &mut Vec<Edge>,
    angle: Angle,
    places: &[Place],
) -> Result<(), NoMemory>
    requires { All (IsPlace 3400000) places.now }
    ensures { OnOk result (edges.new.items ≡ edges.old.items ++ paired angle places.now) }
{
    let mut i = 0;
    'pairs: while i + 1 < places.len() {
        push_edge(
            edges,
            point_of(angle, places[i]),
            point_of(angle, places[i + 1]),
        )?;
        i += 2;
    }
    Ok(())
}
