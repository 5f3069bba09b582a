// Walls and skin. The outline of a layer goes in, and its walls with what lies inside them come out (`walls_of` of
// `specs/Walls.antt`); the inner areas of all layers go in, and skin and fill of one layer come out (`skin_of` of
// `specs/Skin.antt`). Where a cut has too many edges, the number of edges of the first such cut comes out.
#![tactic(auto)]

mod skins;
#[cfg(test)]
mod tests;
mod walling;

pub use skins::{Split, skin};
pub use walling::{WallSet, walls};
