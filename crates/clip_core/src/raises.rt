// Sums that are raised for a whole stretch of rays at once: a list says at each index by how much the sums
// from there on are greater.

ghost use Rattle.std.specs.Prelude.{◌≡◌, ◌+◌, ◌-◌, ◌*◌, ◌<◌, ◌≤◌, ◌^◌, ℕ, suc, true, length, set, slice_index_or};
ghost use Rattle.std.specs.List.{All};
ghost use Rattle.clip_core.specs.Windings.{none, plus, less};
ghost use Rattle.clip_core.specs.Inner.Small.{AreSmall};
ghost use Rattle.clip_core.specs.Inner.Rays.{IsSmallRay};
ghost use Rattle.clip_core.specs.Inner.Raises.{raised, raised_from, lowered_from, lifted, AllSmall, AreLifted};

use crate::rays::Ray;
use crate::windings::Windings;

fn plus(m: Windings, n: Windings) -> Windings
    requires m_small { AreSmall (2 ^ 62) m }
    requires n_small { AreSmall (2 ^ 61) n }
    ensures { result ≡ plus m n }
{
    Windings {
        first: m.first + n.first,
        second: m.second + n.second,
    }
}

fn less(m: Windings, n: Windings) -> Windings
    requires m_small { AreSmall (2 ^ 62) m }
    requires n_small { AreSmall (2 ^ 61) n }
    ensures { result ≡ less m n }
{
    Windings {
        first: m.first - n.first,
        second: m.second - n.second,
    }
}

/// Raises the sums from `i` up to `end`, which is left out; none where both are one.
pub(crate) fn raise(raises: &mut Vec<Windings>, i: usize, end: usize, share: Windings)
    requires within { end < length raises.old.items }
    requires some { i ≤ end }
    requires share_small { AreSmall 1 share }
    requires small { All (AreSmall (2 ^ 61)) raises.old.items }
    ensures { raises.new.items ≡ lowered_from (raised_from raises.old.items i share) end share }
{
    raises[i] = plus(raises[i], share);
    raises[end] = less(raises[end], share);
}

fn lifted(by: Windings, r: Ray) -> Ray
    requires by_small { AreSmall (2 ^ 61) by }
    requires ray_small { IsSmallRay (2 ^ 61) r }
    ensures { result ≡ lifted by r }
{
    Ray {
        sum: plus(r.sum, by),
        ..r
    }
}

/// Adds what was raised to each ray.
pub(crate) fn lift(rays: &mut Vec<Ray>, raises: &[Windings])
    requires few { length rays.old.items ≤ 100000 }
    requires enough { length rays.old.items < length raises.now }
    requires small { AllSmall (2 ^ 40) rays.old.items raises.now }
    ensures count { length rays.new.items ≡ length rays.old.items }
    ensures exact { AreLifted rays.old.items raises.now rays.new.items }
{
    let mut by = Windings {
        first: 0,
        second: 0,
    };
    for k in 0..rays.len() {
        by = plus(by, raises[k]);
        rays[k] = lifted(by, rays[k]);
    }
}
