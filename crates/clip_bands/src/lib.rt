// An index of spans: which of them share a number with a given span, and which hold a given height. What
// goes in is a list of spans; what comes out are the indices of those that pass, rising, which is `indices`
// of `specs/Indices.antt`.
#![tactic(auto)]

mod bands;

pub use bands::{Bands, NoMemory, Span};

#[cfg(test)]
mod tests;
