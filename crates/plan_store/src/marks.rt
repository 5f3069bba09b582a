// What a window remembers beside its plans.

ghost use Rattle.std.specs.Prelude.{◌≡◌, ◌<◌, slice_index_or, None};
ghost use Rattle.preheat_plan.specs.Held.{at_of};

use preheat_plan::Left;
use slice_base::Pt;

// How many paths stand before the plans, and their time; how many paths were taken; where one stands; the
// extruder in use; where each extruder was left; and how many plans were taken.
#[derive(Clone, Copy)]
pub(crate) struct Marks {
    pub(crate) base: u128,
    pub(crate) base_time: u128,
    pub(crate) next: u128,
    pub(crate) end: Pt,
    pub(crate) current: u8,
    pub(crate) left: [Option<Left>; 8],
    pub(crate) taken: u32,
}

impl Marks {
    // Where an extruder was left.
    pub(crate) fn left_by(&self, e: u8) -> Option<Left>
        requires { e < 8 }
        ensures { result ≡ slice_index_or self.now.left e None }
    {
        self.left[e as usize]
    }
}

// An extruder that was never used counts from the start.
pub(crate) fn at(left: Option<Left>) -> u128
    ensures { result ≡ at_of left }
{
    match left {
        None => 0,
        Some(left) => left.at,
    }
}
