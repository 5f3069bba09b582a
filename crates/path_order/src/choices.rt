// The nearest start.

ghost use Rattle.std.specs.Prelude.{◌≡◌, ◌*◌, ◌+◌, ◌≤◌, ◌^◌, ◌-ℤ◌, cond, Some, None};
ghost use Rattle.std.specs.Int.RustNames.{unsigned_abs};
ghost use Rattle.slice_base.specs.Plane.{gap_of, square_of};
ghost use Rattle.path_order.specs.Order.{choice_from, is_before, nearer};
ghost use Rattle.path_order.specs.Inner.Remaining.{considered, nearest_left};

use crate::marks::Marks;
use crate::starts::Start;
use slice_base::Pt;
use slice_base::wide::square;

/// A start to go on with, and the square of the way to it, µm².
#[derive(Clone, Copy)]
pub(crate) struct Choice {
    pub(crate) square: u128,
    pub(crate) piece: u64,
    pub(crate) start: u64,
}

pub(crate) fn choice_from(at: Pt, s: Start) -> Choice
    ensures { result ≡ choice_from at s }
{
    Choice {
        square: square(at, s.at),
        piece: s.piece,
        start: s.start,
    }
}

fn is_before(c: Choice, d: Choice) -> bool
    ensures { result ≡ is_before c d }
{
    c.square < d.square
        || (c.square == d.square
            && (c.piece < d.piece || (c.piece == d.piece && c.start < d.start)))
}

fn nearer(best: Option<Choice>, c: Choice) -> Option<Choice>
    ensures { result ≡ nearer best c }
{
    match best {
        None => Some(c),
        Some(old) => {
            if is_before(c, old) {
                Some(c)
            } else {
                Some(old)
            }
        }
    }
}

pub(crate) fn considered(best: Option<Choice>, at: Pt, gone: &Marks, s: Start) -> Option<Choice>
    ensures { result ≡ considered gone.now at best s }
{
    if gone.is_gone(s.piece) {
        best
    } else {
        nearer(best, choice_from(at, s))
    }
}

/// The nearest start of a piece that isn't gone, over all of them.
pub(crate) fn nearest_left(at: Pt, gone: &Marks, starts: &[Start]) -> Option<Choice>
    ensures { result ≡ nearest_left gone.now at None starts.now }
{
    let mut best = None;
    for s in starts {
        best = considered(best, at, gone, *s);
    }
    best
}
