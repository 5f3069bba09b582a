// The workers of a ring. What goes in are a planner, a consumer, and how many layers and workers there are;
// what comes out is the consumer, which has accepted the plans of all layers in order, or a cause and how far
// it came. How a worker ends is `Ended` of `specs/Ends.antt`; the history is a run, as ring_core defines runs.
#![tactic(auto)]

mod crew;
mod ends;
mod run;
mod step;
#[cfg(test)]
mod tests;
mod turns;
mod worker;

pub use run::run_ring;
pub use worker::work;
