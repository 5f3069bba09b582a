// Where each switch of the whole plan is preheated, and what a window of the last few plans has to
// remember to find the same places. In go plans of layers; out come, as laws, that the plans with leads,
// times and preheats, `completed_of`, rest on a window of plans alone, and that a window follows them. Beside the
// laws stand calls for the travel that leads to a layer.
#![tactic(auto)]

mod laws;
mod leads;
mod uses;

pub use laws::{
    each_switch_is_preheated, eight_at_most, few_preheats, rests_on_a_window, windows_follow,
};
pub use leads::{end_of_plans, extruder, lead};
pub use uses::{Left, Use};
