// How long before its use an extruder starts to heat up, and before which path of a window of layer plans.
// In go the settings of an extruder and plans with the times of their paths; out comes the time that it
// needs, and the latest path from which that time is left, as the definitions `need_of` and `place_of` say.
#![tactic(auto)]

mod heating;
mod placing;
mod spots;
#[cfg(test)]
mod tests;
mod times;

pub use heating::need;
pub use placing::place;
pub use spots::{Spot, path_count, spot_at};
pub use times::{elapsed, layer_time};
