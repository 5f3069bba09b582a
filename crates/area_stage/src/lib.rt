// Areas: settings and meshes in place go in, and the job comes out, with what is printed of each mesh on each layer,
// the extruders of each layer and the skirt; or why there is none. It is what `AreasGive` of `specs/Areas.antt` says.
#![tactic(auto)]

mod columns;
mod faults;
mod fills;
mod held;
mod layers;
mod outlines;
mod phases;
mod skirts;
mod stage;
mod taking;
#[cfg(test)]
mod tests;
mod walling;
mod wanting;

pub use faults::AreaFault;
pub use stage::{MAX_LAYERS, areas, areas_wide, one_areas};
