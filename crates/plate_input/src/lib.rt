// Reads what a task asks to slice. What goes in are the items of a command line and a shelf; what comes
// out are the settings and the meshes in place, or the first fault, as `PlateGives` in `specs/` says.
#![tactic(auto)]

mod faults;
mod files;
mod gathered;
mod laws;
mod meshes;
mod plates;
mod reading;
mod settled;
#[cfg(test)]
mod tests;

pub use faults::PlateFault;
pub use files::MOST_BYTES;
pub use laws::{one_made, one_plate};
pub use plates::Plate;
pub use reading::read_plate;
pub use settled::make_plate;
