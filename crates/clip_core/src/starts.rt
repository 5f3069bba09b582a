// Where each strip begins in the list of rays, so that an edge finds those of its first strip at once.

ghost use Rattle.std.specs.Prelude.{◌≡◌, ◌+◌, ◌<◌, ◌≤◌, ◌++◌, ◌∷◌, [], ℕ, List, length, OnOk, IfOk};
ghost use Rattle.clip_core.specs.declared.rays.Ray.{Ray};
ghost use Rattle.clip_core.specs.Inner.Starts.{IsFirst, AreFirsts};

use crate::rays::{Ray, is_under, strip_at};
use slice_base::NoMemory;
use std::alloc::Global;

/// The rays before the one at `firsts[j]` stand under the strip `base + j`.
#[derive(Drop)]
pub(crate) struct Starts {
    base: u64,
    firsts: Vec<usize>,
}

// From `i` on, the first ray that isn't under the strip.
fn first_from(rays: &[Ray], i: usize, strip: u64) -> usize
    requires { IsFirst strip i rays.now }
    ensures { IsFirst strip result rays.now }
{
    let mut k = i;
    'rest: while k < rays.len() && is_under(strip, rays[k]) {
        k += 1;
    }
    k
}

// The strip of the first ray.
fn base_of(rays: &[Ray]) -> u64
    ensures { result < 2147483648 }
{
    if rays.is_empty() {
        return 0;
    }
    strip_at(rays[0])
}

// How many strips are listed: up to the one above that of the last ray, and not many more than there are rays. Any
// count is right.
fn count_from(rays: &[Ray], base: u64) -> usize
    requires few { length rays.now ≤ 100000 }
    ensures some { 0 < result }
    ensures few { result ≤ 1000000 }
{
    if rays.is_empty() {
        return 1;
    }
    let above = strip_at(rays[rays.len() - 1]).saturating_sub(base);
    above.min(rays.len() as u64 * 9) as usize + 2
}

fn push_first(firsts: &mut Vec<usize>, i: usize) -> Result<(), NoMemory>
    ensures { OnOk result (firsts.new.items ≡ firsts.old.items ++ i ∷ []) }
{
    firsts.push(i)?;
    Ok(())
}

/// Where the strips of these rays begin.
pub(crate) fn starts_of(alloc: Global, rays: &[Ray]) -> Result<Starts, NoMemory>
    requires { length rays.now ≤ 100000 }
    ensures { IfOk result (λ starts. AreFirsts starts.base starts.firsts.items rays.now) }
{
    let base = base_of(rays);
    let count = count_from(rays, base);
    let mut firsts = Vec::with_capacity(alloc, count)?;
    let mut i = 0;
    for j in 0..count {
        i = first_from(rays, i, base + j as u64);
        push_first(&mut firsts, i)?;
    }
    Ok(Starts { base, firsts })
}

// The place of a strip in the list, or the last place where the list ends before it.
fn place_of(above: u64, count: usize) -> usize
    requires { 0 < count }
    ensures inside { result < count }
    ensures least { result ≤ above }
{
    if above < count as u64 {
        above as usize
    } else {
        count - 1
    }
}

/// Up to this index all rays stand under the strip.
pub(crate) fn first_up(starts: &Starts, strip: u64) -> usize
    requires { 0 < length starts.now.firsts.items }
    ensures { (rays : List Ray) → AreFirsts starts.now.base starts.now.firsts.items rays → IsFirst strip result rays }
{
    if strip < starts.base {
        return 0;
    }
    starts.firsts[place_of(strip - starts.base, starts.firsts.len())]
}
