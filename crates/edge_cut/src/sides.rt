// On which sides of each other the ends of two edges lie, and where they meet by that.

ghost use Rattle.std.specs.Prelude.{◌≡◌, ◌≢◌, ◌≤◌, ◌^◌, ◌&&◌, ◌||◌, ◌-ℤ◌, neg_ℤ, pos, true, int_lt, option_to_list};
ghost use Rattle.std.specs.Ordering.{int_eq};
ghost use Rattle.std.specs.Int.RustNames.{unsigned_abs};
ghost use Rattle.slice_base.specs.Plane.{same_point, cross_of};
ghost use Rattle.edge_cut.specs.Meeting.{meeting_of};
ghost use Rattle.edge_cut.specs.Ordered.{MeetsAtEnds};
ghost use Rattle.edge_cut.specs.Inner.Sides.{AreSides, is_end, share_end};

use crate::crossings::{Parts, crossing};
use crate::passes::Marked;
use slice_base::wide::cross;
use slice_base::{Edge, Pt, is_same};

/// On which side of an edge the two ends of another one lie: above 0 to its left.
#[derive(Clone, Copy)]
pub(crate) struct Sides {
    from: i128,
    to: i128,
}

pub(crate) fn sides_of(e: Edge, f: Edge) -> Sides
    ensures { AreSides e f result }
{
    Sides {
        from: cross(e.from, e.to, e.from, f.from),
        to: cross(e.from, e.to, e.from, f.to),
    }
}

fn are_on_one_side(s: Sides) -> bool
    ensures { result ≡ ((int_lt (pos 0) s.from && int_lt (pos 0) s.to) ||
        (int_lt s.from (pos 0) && int_lt s.to (pos 0))) }
{
    (s.from > 0 && s.to > 0) || (s.from < 0 && s.to < 0)
}

pub(crate) fn are_level(s: Sides) -> bool
    ensures { result ≡ int_eq s.from s.to }
{
    s.from == s.to
}

// Of parallel edges: they lie on one line.
pub(crate) fn are_on_line(s: Sides) -> bool
    ensures { result ≡ int_eq s.from (pos 0) }
{
    s.from == 0
}

pub(crate) fn is_end(e: Edge, p: Pt) -> bool
    ensures { result ≡ is_end e p }
{
    is_same(p, e.from) || is_same(p, e.to)
}

fn share_end(e: Edge, f: Edge) -> bool
    ensures { result ≡ share_end e f }
{
    is_end(e, f.from) || is_end(e, f.to)
}

/// By the sides alone, or by an end that is shared, which tell it for both. Where this fails they may meet anywhere.
pub(crate) fn both_at_ends(e: Marked, f: Marked) -> bool
    ensures forth { result ≡ true → MeetsAtEnds e.edge f }
    ensures back { result ≡ true → MeetsAtEnds f.edge e }
{
    let sides = sides_of(e.edge, f.edge);
    if are_level(sides) {
        return false;
    }
    are_on_one_side(sides) || share_end(e.edge, f.edge) || are_on_one_side(sides_of(f.edge, e.edge))
}

fn parts_of(s: Sides, t: Sides) -> Parts
    requires across_small { unsigned_abs s.from ≤ 2 ^ 65 }
    requires from_small { unsigned_abs t.from ≤ 2 ^ 65 }
    requires to_small { unsigned_abs t.to ≤ 2 ^ 65 }
    ensures on { result.on ≡ t.from }
    ensures across { result.across ≡ neg_ℤ s.from }
    ensures whole { result.whole ≡ t.from -ℤ t.to }
    ensures small { unsigned_abs result.whole ≤ 2 ^ 66 }
{
    Parts {
        on: t.from,
        across: -s.from,
        whole: t.from - t.to,
    }
}

/// Where two edges that aren't parallel meet: one point for both.
pub(crate) fn meeting_of(e: Edge, f: Edge, s: Sides, t: Sides) -> Option<Pt>
    requires first { AreSides e f s }
    requires second { AreSides f e t }
    requires other { s.from ≢ s.to }
    ensures forth { option_to_list result ≡ meeting_of e f }
    ensures back { option_to_list result ≡ meeting_of f e }
{
    crossing(e, f, parts_of(s, t))
}
