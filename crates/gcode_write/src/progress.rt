// Where a print stands.

/// What the text of a layer takes from the layers before it.
#[derive(Clone, Copy, PartialEq, Eq, Debug)]
pub struct Progress {
    /// The extruder that printed last.
    pub extruder: u8,
    /// What its print moves filled since its filament was last at zero: µm³ by the flow in percent.
    pub volume: u128,
    /// The estimated time since the print began, µs.
    pub elapsed: u128,
    /// The power at which the fan runs, of 255 at most.
    pub fan: u8,
}
