// Sections: triangles and the settings go in; the planes of the layers, how many they are, and the directed
// edges of the outlines in which a plane cuts a mesh come out. The results are exactly those of `plane_of`,
// `IsLayerCount` and `section_of` in `specs/`.
#![tactic(auto)]

mod cutting;
mod laws;
mod mesh;
mod planes;
mod shelves;

pub use cutting::section;
pub use laws::one_layer_count;
pub use mesh::{Mesh, mesh_of, top_of_all};
pub use planes::{layer_count, plane, thickness, z};

#[cfg(test)]
mod tests;
