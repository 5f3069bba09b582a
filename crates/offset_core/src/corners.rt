// What the corners of a loop become when its edges are moved.

ghost use Rattle.std.specs.Prelude.{◌≡◌, ℕ, ◌+◌, ◌*◌, ◌<◌, ◌≤◌, ◌++◌, [], ◌∷◌, pos, ◌<ℤ◌, ◌+ℤ◌, ◌*ℤ◌, true, OnOk};
ghost use Rattle.std.specs.List.{All};
ghost use Rattle.std.specs.Int.RustNames.{unsigned_abs};
ghost use Rattle.slice_base.specs.Plane.{InSquare};
ghost use Rattle.offset_core.specs.Corners.{shifted_of, reach_of, mitre_of, mitred_of, is_near, is_inner_corner, corner_of};
ghost use Rattle.offset_core.specs.Inner.Nearness.{IsWithin};

use crate::normals::{Distance, normal};
use slice_base::wide::cross;
use slice_base::{Loop, NoMemory, Pt, round_div};

// A point, moved by a vector.
fn shifted(p: Pt, n: Pt) -> Pt
    requires p_in { InSquare 1700000 p }
    requires n_in { InSquare 300000 n }
    ensures exact { result ≡ shifted_of p n }
    ensures near { (far : ℕ) → InSquare far n → IsWithin far p result }
{
    Pt {
        x: p.x + n.x,
        y: p.y + n.y,
    }
}

fn product(a: i32, b: i32) -> i64
    requires a_small { unsigned_abs a ≤ 100000 }
    requires b_small { unsigned_abs b ≤ 100000 }
    ensures exact { result ≡ a *ℤ b }
    ensures small { unsigned_abs result ≤ 100000 * 100000 }
{
    a as i64 * b as i64
}

fn total(p: i64, q: i64) -> i64
    requires p_small { unsigned_abs p ≤ 4 * (100000 * 100000) }
    requires q_small { unsigned_abs q ≤ 4 * (100000 * 100000) }
    ensures exact { result ≡ p +ℤ q }
    ensures small { unsigned_abs result ≤ unsigned_abs p + unsigned_abs q }
{
    p + q
}

// A sum of products of distances.
#[derive(Clone, Copy)]
struct Products {
    sum: i64,
}

// The square of the distance, and the dot product of two normals.
fn reach(d: Distance, m: Pt, n: Pt) -> Products
    requires d_small { unsigned_abs d.by ≤ 100000 }
    requires m_in { InSquare 100000 m }
    requires n_in { InSquare 100000 n }
    ensures exact { result.sum ≡ reach_of d.by m n }
    ensures small { unsigned_abs result.sum ≤ 3 * (100000 * 100000) }
{
    Products {
        sum: total(
            product(d.by, d.by),
            total(product(m.x, n.x), product(m.y, n.y)),
        ),
    }
}

// Whether the mitre point is near.
fn is_near(d: Distance, reach: Products) -> bool
    requires d_small { unsigned_abs d.by ≤ 100000 }
    requires reach_small { unsigned_abs reach.sum ≤ 3 * (100000 * 100000) }
    ensures { result ≡ is_near d.by reach.sum }
{
    product(d.by, d.by) <= total(reach.sum, reach.sum)
}

// Whether the moved edges would cross.
fn is_inner_corner(a: Pt, p: Pt, q: Pt, d: Distance) -> bool
    ensures { result ≡ is_inner_corner d.by a p q }
{
    if d.by > 0 {
        cross(a, p, p, q) < 0
    } else {
        cross(a, p, p, q) > 0
    }
}

fn sum(m: i32, n: i32) -> i64
    ensures exact { result ≡ m +ℤ n }
    ensures small { unsigned_abs result ≤ unsigned_abs m + unsigned_abs n }
{
    m as i64 + n as i64
}

fn times(p: i64, q: i64) -> i128
    requires p_small { unsigned_abs p ≤ 200000 }
    requires q_small { unsigned_abs q ≤ 100000 * 100000 }
    ensures exact { result ≡ p *ℤ q }
    ensures small { unsigned_abs result ≤ 200000 * (100000 * 100000) }
{
    p as i128 * q as i128
}

// How far the mitre point is from the corner along one axis, in µm.
fn mitre(d: Distance, reach: Products, m: i32, n: i32) -> i32
    requires d_small { unsigned_abs d.by ≤ 100000 }
    requires m_small { unsigned_abs m ≤ 100000 }
    requires n_small { unsigned_abs n ≤ 100000 }
    requires positive { pos 0 <ℤ reach.sum }
    requires near { unsigned_abs (mitre_of d.by reach.sum m n) ≤ 300000 }
    ensures { result ≡ mitre_of d.by reach.sum m n }
{
    round_div(times(sum(m, n), product(d.by, d.by)), reach.sum as i128) as i32
}

// The mitre point of a corner.
fn mitred(p: Pt, d: Distance, m: Pt, n: Pt, reach: Products) -> Pt
    requires p_in { InSquare 1700000 p }
    requires some { 0 < unsigned_abs d.by }
    requires d_small { unsigned_abs d.by ≤ 100000 }
    requires m_in { InSquare (unsigned_abs d.by) m }
    requires n_in { InSquare (unsigned_abs d.by) n }
    requires is { reach.sum ≡ reach_of d.by m n }
    requires near { is_near d.by reach.sum ≡ true }
    ensures exact { result ≡ mitred_of d.by p m n }
    ensures near { IsWithin (3 * unsigned_abs d.by) p result }
{
    shifted(
        p,
        Pt {
            x: mitre(d, reach, m.x, n.x),
            y: mitre(d, reach, m.y, n.y),
        },
    )
}

fn push_two(points: &mut Loop, p: Pt, q: Pt) -> Result<(), NoMemory>
    ensures { OnOk result (points.new ≡ points.old ++ p ∷ q ∷ []) }
{
    points.push(p)?;
    points.push(q)
}

fn push_three(points: &mut Loop, p: Pt, q: Pt, r: Pt) -> Result<(), NoMemory>
    ensures { OnOk result (points.new ≡ points.old ++ p ∷ q ∷ r ∷ []) }
{
    points.push(p)?;
    push_two(points, q, r)
}

/// Puts what the corner `p` between `a` and `q` becomes behind these points.
pub(crate) fn push_corner(
    points: &mut Loop,
    a: Pt,
    p: Pt,
    q: Pt,
    d: Distance,
) -> Result<(), NoMemory>
    requires a_in { InSquare 1700000 a }
    requires p_in { InSquare 1700000 p }
    requires q_in { InSquare 1700000 q }
    requires some { 0 < unsigned_abs d.by }
    requires d_small { unsigned_abs d.by ≤ 100000 }
    ensures ok { OnOk result (points.new ≡ points.old ++ corner_of d.by a p q) }
    ensures near { OnOk result (All (IsWithin (3 * unsigned_abs d.by) p) (corner_of d.by a p q)) }
{
    let m = normal(a, p, d);
    let n = normal(p, q, d);
    if is_inner_corner(a, p, q, d) {
        return push_three(points, shifted(p, m), p, shifted(p, n));
    }
    let reach = reach(d, m, n);
    if is_near(d, reach) {
        return points.push(mitred(p, d, m, n, reach));
    }
    push_two(points, shifted(p, m), shifted(p, n))
}
