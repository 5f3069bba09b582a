// The signed area of a loop.

ghost use Rattle.std.specs.Prelude.{◌≡◌, ◌+◌, ◌*◌, ◌<◌, ◌≤◌, ◌^◌, pos, ◌+ℤ◌, ◌-ℤ◌, ◌*ℤ◌, length};
ghost use Rattle.std.specs.Int.RustNames.{unsigned_abs};
ghost use Rattle.clip_core.specs.Areas.{wedge, area_of};

use slice_base::{Loop, Pt};

// A sum of twice the areas of triangles, in µm².
#[derive(Clone, Copy)]
pub(crate) struct AreaSum {
    pub(crate) twice: i128,
}

fn product(a: i32, b: i32) -> i64
    ensures exact { result ≡ a *ℤ b }
    ensures small { unsigned_abs result ≤ 2 ^ 62 }
{
    a as i64 * b as i64
}

fn difference(p: i64, q: i64) -> i128
    requires p_small { unsigned_abs p ≤ 2 ^ 62 }
    requires q_small { unsigned_abs q ≤ 2 ^ 62 }
    ensures exact { result ≡ p -ℤ q }
    ensures small { unsigned_abs result ≤ 2 ^ 63 }
{
    p as i128 - q as i128
}

fn wedge(p: Pt, q: Pt) -> AreaSum
    ensures exact { result.twice ≡ wedge p q }
    ensures small { unsigned_abs result.twice ≤ 2 ^ 63 }
{
    AreaSum {
        twice: difference(product(p.x, q.y), product(p.y, q.x)),
    }
}

fn add_wedge(sum: AreaSum, p: Pt, q: Pt) -> AreaSum
    requires { unsigned_abs sum.twice < 2 ^ 126 }
    ensures exact { result.twice ≡ sum.twice +ℤ wedge p q }
    ensures small { unsigned_abs result.twice ≤ unsigned_abs sum.twice + 2 ^ 63 }
{
    AreaSum {
        twice: sum.twice + wedge(p, q).twice,
    }
}

pub(crate) fn area_of(points: &[Pt]) -> AreaSum
    requires { length points.now < 2 ^ 63 }
    ensures { result.twice ≡ area_of points.now }
{
    if points.is_empty() {
        return AreaSum { twice: 0 };
    }
    let first = points[0];
    let mut p = first;
    let mut sum = AreaSum { twice: 0 };
    for q in &points[1..] {
        sum = add_wedge(sum, p, *q);
        p = *q;
    }
    add_wedge(sum, p, first)
}

/// Twice the area at the left of a closed loop less twice that at its right, in µm²: above 0 where the
/// loop goes round its inside counterclockwise, once or more often.
pub fn area(outline: &Loop) -> i128
    ensures { result ≡ area_of outline.now }
{
    area_of(outline.points()).twice
}
