// Where pieces may begin.

ghost use Rattle.std.specs.Prelude.{◌≡◌, ◌++◌, IfOk, OnOk, Some, None};
ghost use Rattle.path_order.specs.Starts.{is_further_back, further_back, furthest_back, back_of, starts_at, starts_of, all_starts};

use crate::pieces::Piece;
use settings_core::Seam;
use slice_base::{NoMemory, Pt};
use std::alloc::Global;

/// A point at which a piece may begin.
#[derive(Clone, Copy)]
pub(crate) struct Start {
    pub(crate) piece: u64,
    pub(crate) start: u64,
    pub(crate) at: Pt,
}

fn is_further_back(p: Pt, q: Pt) -> bool
    ensures { result ≡ is_further_back p q }
{
    q.y < p.y || (p.y == q.y && p.x < q.x)
}

fn further_back(best: Option<Start>, s: Start) -> Option<Start>
    ensures { result ≡ further_back best s }
{
    match best {
        None => Some(s),
        Some(old) => {
            if is_further_back(s.at, old.at) {
                Some(s)
            } else {
                Some(old)
            }
        }
    }
}

fn start_at(piece: u64, i: usize, p: Pt) -> Start
    ensures { result ≡ record { piece = piece; start = i; at = p } }
{
    Start {
        piece,
        start: i as u64,
        at: p,
    }
}

fn furthest_back(piece: u64, points: &[Pt]) -> Option<Start>
    ensures { result ≡ furthest_back None (starts_at piece 0 points.now) }
{
    let mut best = None;
    for (i, p) in points.iter().enumerate() {
        best = further_back(best, start_at(piece, i, *p));
    }
    best
}

fn push_each(starts: &mut Vec<Start>, piece: u64, points: &[Pt]) -> Result<(), NoMemory>
    ensures { OnOk result (starts.new.items ≡ starts.old.items ++ starts_at piece 0 points.now) }
{
    for (i, p) in points.iter().enumerate() {
        starts.push(start_at(piece, i, *p))?;
    }
    Ok(())
}

fn push_back(starts: &mut Vec<Start>, piece: u64, points: &[Pt]) -> Result<(), NoMemory>
    ensures { OnOk result (starts.new.items ≡ starts.old.items ++ back_of (starts_at piece 0 points.now)) }
{
    match furthest_back(piece, points) {
        None => Ok(()),
        Some(s) => {
            starts.push(s)?;
            Ok(())
        }
    }
}

fn push_starts(
    starts: &mut Vec<Start>,
    number: u64,
    piece: &Piece,
    seam: Seam,
) -> Result<(), NoMemory>
    ensures { OnOk result (starts.new.items ≡ starts.old.items ++ starts_of seam number piece.now) }
{
    match seam {
        Seam::Back => {
            if piece.closed {
                push_back(starts, number, piece.points.points())
            } else {
                push_each(starts, number, piece.points.points())
            }
        }
        Seam::Shortest => push_each(starts, number, piece.points.points()),
    }
}

/// The starts of all pieces, in order.
pub(crate) fn all_starts(
    alloc: Global,
    pieces: &[Piece],
    seam: Seam,
) -> Result<Vec<Start>, NoMemory>
    ensures { IfOk result (λ starts. starts.items ≡ all_starts seam 0 pieces.now) }
{
    let mut starts = Vec::new(alloc);
    for (i, piece) in pieces.iter().enumerate() {
        push_starts(&mut starts, i as u64, piece, seam)?;
    }
    Ok(starts)
}
