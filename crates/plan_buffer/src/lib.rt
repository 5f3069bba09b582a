// The buffer between the plans of a job's layers and its file. Plans go in one after another; each is written
// into the sink once no later plan can put a preheat into it. So after k plans the sink holds exactly
// `written_of job plans k`, and in the end `file_of job plans`, or, once the sink failed, a front of it.
#![tactic(auto)]

mod buffer;
mod laws;
#[cfg(test)]
mod tests;
mod writing;

pub use buffer::PlanBuffer;
pub use laws::{texts_add_up, texts_rest_on_plans, writes_a_front};
