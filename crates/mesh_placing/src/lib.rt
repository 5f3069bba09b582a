// Places of meshes: triangles and the settings go in; the triangles moved to their place in the volume of
// the machine come out, or the first of them that would lie outside and how far they would, as `placed`,
// `first_outside` and `excess_of` in `specs/` say.
#![tactic(auto)]

mod laws;
mod placing;

pub use laws::extent_is_tight;
pub use placing::{Excess, OutsideVolume, Side, put_in_place};

#[cfg(test)]
mod tests;
