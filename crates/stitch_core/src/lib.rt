// Stitching: directed edges go in, closed loops and the number of chains that couldn't be closed come out.
// The result is exactly `stitch_of` of `specs/Stitch.antt`: loose chains are joined across the least gap.
#![tactic(auto)]

mod gaps;
mod joins;
mod laws;
mod nearest;
mod stitches;

pub use laws::closes_the_least_gap;
pub use stitches::{Stitched, stitch};

#[cfg(test)]
mod plain;
#[cfg(test)]
mod tests;
