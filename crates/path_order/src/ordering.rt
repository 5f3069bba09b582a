// The order of visits.

ghost use Rattle.std.specs.Prelude.{◌≡◌, IfOk, Some};
ghost use Rattle.std.specs.List.{slice_get};
ghost use Rattle.path_order.specs.Order.{order_of, point_or, end_of, stands_after};

use crate::choices::Choice;
use crate::grid::{Grid, refile};
use crate::marks::Marks;
use crate::pieces::{Piece, Visit};
use crate::starts::all_starts;
use settings_core::Seam;
use slice_base::{NoMemory, Pt};
use std::alloc::Global;

fn point_or(at: Pt, points: &[Pt], i: u64) -> Pt
    ensures { result ≡ point_or at (slice_get points.now i) }
{
    match points.get(i as usize) {
        None => at,
        Some(p) => *p,
    }
}

fn end_of(at: Pt, start: u64, piece: &Piece) -> Pt
    ensures { result ≡ end_of at start (Some piece.now) }
{
    if piece.closed {
        point_or(at, piece.points.points(), start)
    } else {
        point_or(at, piece.points.points(), 1u64.saturating_sub(start))
    }
}

fn stands_after(pieces: &[Piece], at: Pt, c: Choice) -> Pt
    ensures { result ≡ stands_after pieces.now at c }
{
    match pieces.get(c.piece as usize) {
        None => at,
        Some(piece) => end_of(at, c.start, piece),
    }
}

/// The order in which pieces are visited, from `from`: always the start that is nearest to where one
/// stands, at a tie that of the least piece, then the least start. A closed piece may begin at each of its
/// points, with the seam at the back only at the one that is furthest back.
pub fn order(alloc: Global, pieces: &[Piece], from: Pt, seam: Seam) -> Result<Vec<Visit>, NoMemory>
    ensures { IfOk result (λ visits. visits.items ≡ order_of pieces.now from seam) }
{
    let mut grid = Grid::of(alloc, all_starts(alloc, pieces, seam)?)?;
    let mut gone = Marks::none(alloc, pieces.len())?;
    let mut visits = Vec::new(alloc);
    let mut at = from;
    let mut due = pieces.len() / 2;
    'visit: while visits.len() < pieces.len() {
        let Some(c) = grid.nearest_left(at, &gone) else {
            break 'visit;
        };
        gone.mark(c.piece);
        visits.push(Visit {
            piece: c.piece,
            start: c.start,
        })?;
        at = stands_after(pieces, at, c);
        refile(alloc, &mut grid, &gone, visits.len() >= due)?;
        due = next_due(due, visits.len(), pieces.len());
    }
    Ok(visits)
}

// When to file anew the next time: after half of what remains.
fn next_due(due: usize, done: usize, all: usize) -> usize {
    if done < due {
        return due;
    }
    done.saturating_add(all.saturating_sub(done) / 2)
        .saturating_add(16)
}
