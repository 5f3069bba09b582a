// Edges as they are tried against midpoints: what a trial needs of an edge is computed once, and a trial has no branches,
// since what comes of it is hard to guess. Heights and places across are doubled.

ghost use Rattle.std.specs.Prelude.{◌≡◌, ◌≤◌, ◌^◌, ◌&&◌, pos, ◌+ℤ◌, ◌-ℤ◌, ◌*ℤ◌, int_lt, int_le};
ghost use Rattle.std.specs.Int.RustNames.{unsigned_abs};
ghost use Rattle.clip_core.specs.Inner.Rays.{meets_ray};
ghost use Rattle.clip_core.specs.Inner.Slopes.{IsSlope};

use crate::bundles::Bundle;

/// The ends of an edge; the height of its low end, and how far across that stands; and the way from there to the high
/// end, across and up.
#[derive(Clone, Copy)]
pub(crate) struct Slope {
    pub(crate) ends: Bundle,
    pub(crate) low: i64,
    pub(crate) begin: i64,
    pub(crate) across: i64,
    pub(crate) up: i64,
}

/// The sum of two coordinates.
pub(crate) fn total(p: i32, q: i32) -> i64
    ensures exact { result ≡ p +ℤ q }
    ensures small { unsigned_abs result ≤ 2 ^ 32 }
{
    p as i64 + q as i64
}

fn way(from: i64, to: i64) -> i64
    requires from_small { unsigned_abs from ≤ 2 ^ 32 }
    requires to_small { unsigned_abs to ≤ 2 ^ 32 }
    ensures exact { result ≡ to -ℤ from }
    ensures small { unsigned_abs result ≤ 2 ^ 33 }
{
    to - from
}

/// The slope of the edge with these ends.
pub(crate) fn slope_of(ends: Bundle) -> Slope
    ensures ends { result.ends ≡ ends }
    ensures is { IsSlope result }
{
    let low = total(ends.low.y, ends.low.y);
    let high = total(ends.high.y, ends.high.y);
    let begin = total(ends.low.x, ends.low.x);
    let end = total(ends.high.x, ends.high.x);
    Slope {
        ends,
        low,
        begin,
        across: way(begin, end),
        up: way(low, high),
    }
}

fn is_within(at: i64, end: i64) -> bool
    ensures { result ≡ (int_le (pos 0) at && int_lt at end) }
{
    (0 <= at) & (at < end)
}

fn product(a: i64, b: i64) -> i128
    requires a_small { unsigned_abs a ≤ 2 ^ 33 }
    requires b_small { unsigned_abs b ≤ 2 ^ 33 }
    ensures { result ≡ a *ℤ b }
{
    a as i128 * b as i128
}

fn is_less(p: i128, q: i128) -> bool
    ensures { result ≡ int_lt p q }
{
    p < q
}

/// The edge meets the ray that goes from the bundle's midpoint to the right: it reaches its height, and the way from
/// its low end to the midpoint turns to the left of it.
pub(crate) fn meets_ray(s: Slope, b: Bundle) -> bool
    requires { IsSlope s }
    ensures { result ≡ meets_ray s.ends b }
{
    let up = way(s.low, total(b.low.y, b.high.y));
    let across = way(s.begin, total(b.low.x, b.high.x));
    is_within(up, s.up) & is_less(product(s.up, across), product(s.across, up))
}
