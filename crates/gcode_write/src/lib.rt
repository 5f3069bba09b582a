// Writes the file of a job into a sink, layer by layer. A job and the plans of its layers go in; what comes out
// is exactly the header, the text of each layer and the footer that `specs/Ends` and `specs/Layers` define, or,
// once the sink failed, a front of them.
#![tactic(auto)]

mod ends;
mod filament;
mod layers;
mod lines;
mod moves;
mod paths;
mod progress;
#[cfg(test)]
mod tests;
mod writer;

pub use filament::extruded;
pub use progress::Progress;
pub use writer::{Unbegun, WriteFault, Writer};
