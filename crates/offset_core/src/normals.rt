// The normals of edges: vectors of a given length at a right angle to them.

ghost use Rattle.std.specs.Prelude.{◌≡◌, ◌*◌, ◌≤◌, ◌^◌, pos, ◌-ℤ◌, ◌*ℤ◌};
ghost use Rattle.std.specs.Int.RustNames.{unsigned_abs};
ghost use Rattle.slice_base.specs.Whole.{IsRoot};
ghost use Rattle.slice_base.specs.Plane.{square_of, InSquare};
ghost use Rattle.offset_core.specs.Normals.{nanometres_of, part_of, normal_of};

use slice_base::{Pt, isqrt, round_div, square};

/// How far edges are moved to their right, or to their left below 0, in µm.
#[derive(Clone, Copy)]
pub(crate) struct Distance {
    pub(crate) by: i32,
}

// The distance of two points, in nm.
fn nanometres(p: Pt, q: Pt) -> u64
    requires p_in { InSquare 2000000 p }
    requires q_in { InSquare 2000000 q }
    ensures exact { result ≡ nanometres_of p q }
    ensures near { IsRoot (1000000 * square_of p q) result }
    ensures small { result ≤ 2 ^ 63 }
{
    isqrt(u128::from(square(p, q)) * 1_000_000)
}

fn step(from: i32, to: i32) -> i64
    requires from_in { unsigned_abs from ≤ 2000000 }
    requires to_in { unsigned_abs to ≤ 2000000 }
    ensures exact { result ≡ to -ℤ from }
    ensures small { unsigned_abs result ≤ 4000000 }
{
    to as i64 - from as i64
}

fn product(step: i64, d: Distance) -> i64
    requires step_small { unsigned_abs step ≤ 4000000 }
    requires d_small { unsigned_abs d.by ≤ 100000 }
    ensures exact { result ≡ step *ℤ d.by }
    ensures size { unsigned_abs result ≡ unsigned_abs step * unsigned_abs d.by }
    ensures small { unsigned_abs result ≤ 4000000 * 100000 }
{
    step * d.by as i64
}

fn thousandfold(n: i64) -> i128
    requires { unsigned_abs n ≤ 4000000 * 100000 }
    ensures exact { result ≡ n *ℤ pos 1000 }
    ensures size { unsigned_abs result ≡ 1000 * unsigned_abs n }
{
    n as i128 * 1000
}

// The part along one axis of a vector of length `d`, in µm, in the direction of an edge, which goes `step` µm
// along the axis and is `whole` nm long.
fn part(step: i64, d: Distance, whole: u64) -> i32
    requires step_small { unsigned_abs step ≤ 4000000 }
    requires d_small { unsigned_abs d.by ≤ 100000 }
    requires long { 1000 * unsigned_abs step ≤ whole }
    requires whole_in { whole ≤ 2 ^ 63 }
    ensures exact { result ≡ part_of d.by step whole }
    ensures small { unsigned_abs result ≤ unsigned_abs d.by }
{
    if whole == 0 {
        return 0;
    }
    round_div(thousandfold(product(step, d)), whole as i128) as i32
}

/// The vector of length `d`, in µm, at a right angle to the edge from `p` to `q`, to its right; none for an edge
/// without length.
pub(crate) fn normal(p: Pt, q: Pt, d: Distance) -> Pt
    requires p_in { InSquare 2000000 p }
    requires q_in { InSquare 2000000 q }
    requires d_small { unsigned_abs d.by ≤ 100000 }
    ensures exact { result ≡ normal_of d.by p q }
    ensures small { InSquare (unsigned_abs d.by) result }
{
    let whole = nanometres(p, q);
    Pt {
        x: part(step(p.y, q.y), d, whole),
        y: part(step(q.x, p.x), d, whole),
    }
}
