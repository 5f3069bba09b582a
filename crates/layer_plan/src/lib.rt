// The plan of a layer. What goes in are a job and the number of a layer; what comes out are the paths of
// each extruder in their order, with their speeds and times: `plan_of` in `specs/`.
#![tactic(auto)]

mod counting;
mod drawing;
mod groups;
mod laws;
mod pieces;
mod planning;
#[cfg(test)]
mod tests;

pub use laws::plans_keep_to_their_job;
pub use planning::plan_layer;
