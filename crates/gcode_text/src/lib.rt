// The lines of a file of G-code for Marlin. A move, a temperature, a count or a time goes in, and one line of
// bytes comes out, exactly the one that the definition of that name in `specs/Lines` gives.
#![tactic(auto)]

mod append;
mod labels;
mod lines;
#[cfg(test)]
mod tests;

pub use append::Line;
pub use labels::{Counted, FixedLine};
pub use lines::{bed, blow, count, elapsed, extrude, filament, heat, kind, plain, tool, travel};
