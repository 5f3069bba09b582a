// For each chain the gap from its end that is closed first.

ghost use Rattle.std.specs.Prelude.{◌≡◌, ◌<◌, ◌^◌, ℕ, length, IfOk, MatchOption, ⊤, None, slice_index_or};
ghost use Rattle.slice_base.specs.Shapes.{Loops};
ghost use Rattle.stitch_core.specs.Next.{IsGap, IsNext};
ghost use Rattle.stitch_core.specs.Inner.Nearest.{IsNearest, AreNearest, IsRenewed, earlier_of, leads_to, is_stale_of};

use crate::gaps::{Gap, gap_between};
use slice_base::{Loop, NoMemory};
use std::alloc::Global;

// A gap for each slot: of those from the end of its chain the one that is closed first.
#[derive(Drop)]
pub(crate) struct Nearest {
    gaps: Vec<Option<Gap>>,
}

// The lesser of two gaps; of equal ones the first.
fn earlier(best: Option<Gap>, gap: Option<Gap>) -> Option<Gap>
    ensures { result ≡ earlier_of best gap }
{
    match (best, gap) {
        (Some(f), Some(g)) => { if g.squared < f.squared { gap } else { best } }
        (None, Some(_)) => gap,
        (_, None) => best,
    }
}

fn find_nearest(slots: &[Loop], from: u32) -> Option<Gap>
    requires { length slots.now < 2 ^ 32 }
    ensures { IsNearest slots.now from result }
{
    let mut best = None;
    for to in 0..slots.len() as u32 {
        best = earlier(best, gap_between(slots, from, to));
    }
    best
}

fn leads_to(gap: Option<Gap>, to: u32) -> bool
    ensures { result ≡ leads_to gap to }
{
    match gap {
        None => false,
        Some(g) => g.to == to,
    }
}

// Whether the nearest gap of a slot has to be looked for anew: its chain has another end, or is gone, or the
// chain that the gap leads to is gone.
fn is_stale(closing: Gap, from: u32, nearest: Option<Gap>) -> bool
    ensures { result ≡ is_stale_of closing from nearest }
{
    from == closing.from || from == closing.to || leads_to(nearest, closing.to)
}

fn renewed(slots: &[Loop], closing: Gap, from: u32, old: Option<Gap>) -> Option<Gap>
    requires { length slots.now < 2 ^ 32 }
    ensures { IsRenewed slots.now closing from old result }
{
    if is_stale(closing, from, old) {
        find_nearest(slots, from)
    } else {
        old
    }
}

impl Nearest {
    pub(crate) fn of(alloc: Global, slots: &[Loop]) -> Result<Nearest, NoMemory>
        requires { length slots.now < 2 ^ 32 }
        ensures { IfOk result (λ n. AreNearest slots.now n.gaps.items) }
    {
        let mut gaps = Vec::new(alloc);
        for from in 0..slots.len() as u32 {
            gaps.push(find_nearest(slots, from))?;
        }
        Ok(Nearest { gaps })
    }

    // The gap to close next.
    pub(crate) fn next(&self) -> Option<Gap>
        ensures { (slots : Loops) → AreNearest slots self.now.gaps.items
            → MatchOption result ((g : Gap) → IsGap slots g → ⊥) (λ g. IsNext slots g) }
    {
        let mut best = None;
        for gap in &self.gaps {
            best = earlier(best, *gap);
        }
        best
    }

    // Looks anew for what isn't the nearest gap of its slot any more, once a gap is closed.
    pub(crate) fn renew(&mut self, slots: &[Loop], closing: Gap)
        requires few { length slots.now < 2 ^ 32 }
        requires same { length self.old.gaps.items ≡ length slots.now }
        ensures same { length self.new.gaps.items ≡ length self.old.gaps.items }
        ensures renewed { (k : ℕ) → k < length self.old.gaps.items
            → IsRenewed slots.now closing k (slice_index_or self.old.gaps.items k None)
            (slice_index_or self.new.gaps.items k None) }
    {
        for from in 0..self.gaps.len() {
            self.gaps[from] = renewed(slots, closing, from as u32, self.gaps[from]);
        }
    }
}
