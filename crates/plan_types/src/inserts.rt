// Commands that heat an extruder ahead of its use, in the plan of a layer.

ghost use Rattle.std.specs.Prelude.{◌≡◌, ◌≤◌, [], length};
ghost use Rattle.plan_types.specs.Inserts.{with_insert};

use arrayvec::ArrayVec;
use std::marker::Model;

/// A preheat: before a path, an extruder is set to heat up.
#[derive(Clone, Copy, PartialEq, Eq, Debug, Default)]
pub struct Insert {
    /// The path before which it stands, counted from 0 through all paths of the layer.
    pub at: u64,
    /// The extruder that heats up.
    pub extruder: u8,
    /// The temperature to reach, °C.
    pub degrees: u16,
}

/// The preheats of a layer in the order in which they were put there, 64 at most, seen as their list. Takes
/// no memory of its own.
#[derive(Drop)]
pub struct Inserts {
    items: ArrayVec<Insert, 64>,
}

impl Model for Inserts {
    ghost use Rattle.std.specs.Prelude.{List};
    ghost use Rattle.plan_types.specs.declared.inserts.Insert.{Insert};

    ghost Value = { List Insert };

    ghost view = { λ a. a.items.items };
}

impl Inserts {
    /// No preheat.
    pub fn new() -> Self
        ensures { result ≡ [] }
    {
        Inserts {
            items: ArrayVec::new(),
        }
    }

    /// The preheats, in order.
    pub fn items(&self) -> &[Insert]
        ensures value { result.now ≡ self.now }
        ensures few { length result.now ≤ 64 }
    {
        self.items.as_slice()
    }

    /// Puts a preheat behind the others. Where 64 are there already it is left out; the plans of a job
    /// never have more than 16.
    pub fn put(&mut self, insert: Insert)
        ensures { self.new ≡ with_insert insert self.old }
    {
        if self.items.len() < 64 {
            self.items.push(insert);
        }
    }
}
