// The order in which pieces are printed. What goes in are closed loops and lines, and where one stands;
// what comes out is the list of visits, each to the nearest start that remains: `order_of` in `specs/`.
#![tactic(auto)]

mod choices;
mod grid;
mod marks;
mod ordering;
mod pieces;
mod starts;
#[cfg(test)]
mod tests;

pub use ordering::order;
pub use pieces::{Piece, Visit};
