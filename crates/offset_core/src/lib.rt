// Offsets: a region and a distance go in; the region that is bounded by its loops, with their edges moved by
// that distance, comes out, or the number of edges where a cut has too many. It is `offset_of` of
// `specs/Offset.antt`.
#![tactic(auto)]

mod corners;
mod loops;
mod normals;
mod offsetting;

pub use offsetting::offset;
