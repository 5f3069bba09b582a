// Sample meshes. A number goes in; the ASCII STL texts of two meshes come out, each a column of 64 sides with
// an outline that the number draws: `mesh_text` of `specs/Meshes.antt`.
#![tactic(auto)]

mod columns;
mod draws;
mod facets;
#[cfg(test)]
mod tests;

pub use columns::{SampleMesh, sample_mesh};
