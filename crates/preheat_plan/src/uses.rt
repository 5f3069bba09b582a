// What a window remembers of an extruder, and what a layer does with it.

/// Where an extruder was left: right behind the last of its paths.
#[derive(Clone, Copy, PartialEq, Eq, Debug)]
pub struct Left {
    /// How many paths of the whole plan stand before.
    pub at: u128,
    /// The time of these paths, µs.
    pub time: u128,
}

/// So many paths of one extruder on a layer.
#[derive(Clone, Copy, PartialEq, Eq, Debug, Default)]
pub struct Use {
    pub extruder: u8,
    pub count: u64,
}
