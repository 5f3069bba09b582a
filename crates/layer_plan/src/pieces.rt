// The pieces of a group, and the way along each.

ghost use Rattle.std.specs.Prelude.{◌≡◌, ◌++◌, [], ◌∷◌, false, IfOk, OnOk};
ghost use Rattle.layer_plan.specs.Pieces.{loops_of, loops_of_all, lines_of, turned, closed_up, way_of};
ghost use Rattle.layer_plan.specs.Inner.Sound.{IsPiece, IsWay};

use path_order::Piece;
use slice_base::{Edge, Items, Loop, NoMemory, Pt, Region};
use std::alloc::Global;

/// Puts the loops of a region behind other pieces.
pub(crate) fn push_loops(
    alloc: Global,
    pieces: &mut Items<Piece>,
    region: &Region,
) -> Result<(), NoMemory>
    ensures { OnOk result (pieces.new ≡ pieces.old ++ loops_of region.now) }
{
    for l in region.loops() {
        pieces.push(Piece {
            points: l.copy(alloc)?,
            closed: true,
        })?;
    }
    Ok(())
}

/// The loops of some regions as pieces.
pub(crate) fn loops_of_all(alloc: Global, regions: &[Region]) -> Result<Items<Piece>, NoMemory>
    ensures { IfOk result (λ pieces. pieces ≡ loops_of_all regions.now) }
{
    let mut pieces = Items::new(alloc);
    for region in regions {
        push_loops(alloc, &mut pieces, region)?;
    }
    Ok(pieces)
}

fn line_of(alloc: Global, e: Edge) -> Result<Piece, NoMemory>
    ensures { IfOk result (λ piece. piece ≡ record { points = e.from ∷ e.to ∷ []; closed = false }) }
{
    let mut points = Loop::new(alloc);
    points.push(e.from)?;
    points.push(e.to)?;
    Ok(Piece {
        points,
        closed: false,
    })
}

/// Edges as pieces.
pub(crate) fn lines_of(alloc: Global, edges: &[Edge]) -> Result<Items<Piece>, NoMemory>
    ensures { IfOk result (λ pieces. pieces ≡ lines_of edges.now) }
{
    let mut pieces = Items::new(alloc);
    for e in edges {
        pieces.push(line_of(alloc, *e)?)?;
    }
    Ok(pieces)
}

fn turned(alloc: Global, points: &[Pt], start: u64) -> Result<Vec<Pt>, NoMemory>
    ensures { IfOk result (λ ps. ps.items ≡ turned start points.now) }
{
    let at = (start as usize).min(points.len());
    let mut way = Vec::from_slice(alloc, &points[at..])?;
    way.extend_from_slice(&points[..at])?;
    Ok(way)
}

fn closed_up(mut points: Vec<Pt>) -> Result<Vec<Pt>, NoMemory>
    ensures { IfOk result (λ ps. ps.items ≡ closed_up points.items) }
{
    match points.as_slice() {
        [] => Ok(points),
        [first, ..] => {
            let p = *first;
            points.push(p)?;
            Ok(points)
        }
    }
}

/// The way along a piece from a start.
pub(crate) fn way_of(alloc: Global, piece: &Piece, start: u64) -> Result<Loop, NoMemory>
    requires { IsPiece piece.now }
    ensures exact { IfOk result (λ points. points ≡ way_of piece.now start) }
    ensures way { IfOk result IsWay }
{
    let way = turned(alloc, piece.points.points(), start)?;
    if piece.closed {
        Ok(Loop::from_vec(closed_up(way)?))
    } else {
        Ok(Loop::from_vec(way))
    }
}
