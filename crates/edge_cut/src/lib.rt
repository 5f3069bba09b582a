// Cuts directed edges where they meet. What goes in is a list of edges of two operands; what comes
// out is the list of their pieces after four passes of cutting at the rounded meeting points, which is
// `cut_of` of `specs/Cut.antt`, or the number of edges where there are too many.
#![tactic(auto)]

mod boxes;
mod columns;
mod crossings;
mod cutting;
mod laws;
mod marks;
mod meetings;
mod passes;
mod sides;
mod stops;

pub use crossings::{Met, meeting};
pub use cutting::{CutFault, cut};
pub use laws::{
    crossing_is_exchanged, crossing_lies_on_both, is_cut_alike, is_cut_exchanged,
    own_edge_adds_no_stop, shared_ends_lie_on_both, some_edges_give_all_stops, stays_cut,
    stops_are_ordered, whole_edges_meet_at_ends,
};
pub use passes::Marked;

#[cfg(test)]
mod tests;
