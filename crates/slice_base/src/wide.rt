// Steps, products and parts of ways of any coordinates of 32 bits, exact in 128.

ghost use Rattle.std.specs.Prelude.{◌≡◌, ◌<◌, ◌≤◌, ◌^◌, ◌*◌, ◌+ℤ◌, ◌-ℤ◌, ◌*ℤ◌, ◌≤ℤ◌, ◌<ℤ◌, pos};
ghost use Rattle.std.specs.Int.RustNames.{unsigned_abs};
ghost use Rattle.slice_base.specs.Plane.{cross_of, dot_of, gap_of, square_of};
ghost use Rattle.slice_base.specs.Whole.{way_of};

use crate::points::Pt;
use crate::whole::round_div;

/// The step from one coordinate to another, in µm.
pub fn step(from: i32, to: i32) -> i64
    ensures exact { result ≡ to -ℤ from }
    ensures small { unsigned_abs result < 2 ^ 32 }
{
    to as i64 - from as i64
}

/// The product of two steps, in µm².
pub fn product(a: i64, b: i64) -> i128
    requires a_small { unsigned_abs a ≤ 2 ^ 32 }
    requires b_small { unsigned_abs b ≤ 2 ^ 32 }
    ensures exact { result ≡ a *ℤ b }
    ensures small { unsigned_abs result ≤ 2 ^ 64 }
{
    a as i128 * b as i128
}

/// The coordinate at `part` of `whole` of the way from `a` to `b`, in µm, rounded to nearest, half away
/// from `a`.
pub fn way(a: i32, b: i32, part: i64, whole: i64) -> i32
    requires part_from { pos 0 ≤ℤ part }
    requires part_to { part ≤ℤ whole }
    requires some { pos 0 <ℤ whole }
    requires small { unsigned_abs whole < 2 ^ 32 }
    ensures { result ≡ way_of a b part whole }
{
    (a as i128 + round_div(product(step(a, b), part), whole as i128)) as i32
}

/// The difference of two products, in µm².
pub fn difference(p: i128, q: i128) -> i128
    requires p_small { unsigned_abs p ≤ 2 ^ 64 }
    requires q_small { unsigned_abs q ≤ 2 ^ 64 }
    ensures exact { result ≡ p -ℤ q }
    ensures small { unsigned_abs result ≤ 2 ^ 65 }
{
    p - q
}

/// The sum of two products, in µm².
pub fn total(p: i128, q: i128) -> i128
    requires p_small { unsigned_abs p ≤ 2 ^ 64 }
    requires q_small { unsigned_abs q ≤ 2 ^ 64 }
    ensures exact { result ≡ p +ℤ q }
    ensures small { unsigned_abs result ≤ 2 ^ 65 }
{
    p + q
}

/// The cross product of the vectors from `a` to `b` and from `c` to `d`, in µm², for any points: above 0
/// where the second vector turns to the left of the first.
pub fn cross(a: Pt, b: Pt, c: Pt, d: Pt) -> i128
    ensures exact { result ≡ cross_of a b c d }
    ensures small { unsigned_abs result ≤ 2 ^ 65 }
{
    difference(
        product(step(a.x, b.x), step(c.y, d.y)),
        product(step(a.y, b.y), step(c.x, d.x)),
    )
}

/// The dot product of the vectors from `a` to `b` and from `c` to `d`, in µm², for any points.
pub fn dot(a: Pt, b: Pt, c: Pt, d: Pt) -> i128
    ensures exact { result ≡ dot_of a b c d }
    ensures small { unsigned_abs result ≤ 2 ^ 65 }
{
    total(
        product(step(a.x, b.x), step(c.x, d.x)),
        product(step(a.y, b.y), step(c.y, d.y)),
    )
}

fn gap(from: i32, to: i32) -> u64
    ensures exact { result ≡ gap_of from to }
    ensures small { result < 2 ^ 32 }
{
    step(from, to).unsigned_abs()
}

fn gap_squared(gap: u64) -> u128
    requires { gap < 2 ^ 32 }
    ensures exact { result ≡ gap * gap }
    ensures small { result < 2 ^ 64 }
{
    u128::from(gap) * u128::from(gap)
}

/// The square of the distance of two points, in µm², for any points.
pub fn square(a: Pt, b: Pt) -> u128
    ensures exact { result ≡ square_of a b }
    ensures small { result < 2 ^ 65 }
{
    gap_squared(gap(a.x, b.x)) + gap_squared(gap(a.y, b.y))
}
