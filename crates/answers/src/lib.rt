// What a run answers. What goes in is a refusal, or what was done; what comes out is the status and the
// lines that the console gets, as `Statuses` and `Lines` in `specs/` say.
#![tactic(auto)]

mod lines;
mod pieces;
mod refusal;
mod run;
#[cfg(test)]
mod tests;

pub use lines::{Generated, Step, put_checked, put_done, put_generated, put_refusal, put_step};
pub use refusal::{Refusal, status};
pub use run::Run;
