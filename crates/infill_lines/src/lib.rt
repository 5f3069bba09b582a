// The lines that fill a region. What goes in are a region, an angle and a step; what comes out are the
// parts of equally spaced parallel lines that lie inside: `fill_of` in `specs/`.
#![tactic(auto)]

mod angles;
mod crossings;
mod extents;
mod filling;
mod pairs;
mod rows;
#[cfg(test)]
mod tests;

pub use angles::Angle;
pub use filling::fill;
