// Clips regions against each other. What goes in are one or two regions; what comes out is the region
// that is bounded by the cut edges on whose two sides a rule of winding numbers differs, which is
// `clipped_of` of `specs/Clip.antt`, or the number of edges where there are too many.
#![tactic(auto)]

mod areas;
mod bundles;
mod clipping;
mod keeping;
mod laws;
mod net_counts;
mod outlines;
mod raises;
mod rays;
mod slopes;
mod spots;
mod starts;
mod strips;
mod tidying;
mod windings;

pub use areas::area;
pub use bundles::Bundle;
pub use clipping::{Rule, clean, meet, subtract, unite};
pub use edge_cut::CutFault;
pub use keeping::Operation;
pub use laws::{
    bundles_are_in_order, cancelled_goes, is_kept_exchanged, lone_operand_keeps_none,
    net_is_up_less_down, nothing_without_itself, sides_differ_by_net,
};
pub use windings::Windings;

#[cfg(test)]
mod tests;
