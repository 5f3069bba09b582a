// What the plans of a print take together. In go plans one after another; out come the estimated time of the print,
// and the filament of each extruder, as the definitions `time_of` and `filaments_of` say.
#![tactic(auto)]

mod amounts;
mod laws;
mod spent;

pub use amounts::{Amounts, amounts_of};
pub use laws::{filament_is_told, times_are_told};
pub use spent::Spent;
