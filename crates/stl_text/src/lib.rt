// Reads ASCII STL. What goes in are the bytes of a file; what comes out are the triangles that the
// grammar in `specs/Mesh.antt` gives them, or the number of the first line at fault, or of facets where
// they are too many.
#![tactic(auto)]

mod faults;
mod gathered;
mod laws;
mod lines;
mod reader;
mod states;
#[cfg(test)]
mod tests;
mod words;

pub use faults::StlFault;
pub use gathered::MOST_TRIANGLES;
pub use laws::one_reading;
pub use lines::MOST_COORDINATE;
pub use reader::read_stl;
