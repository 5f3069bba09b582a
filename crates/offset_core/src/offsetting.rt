// The offset of a region.

ghost use Rattle.std.specs.Prelude.{◌≡◌, ◌+◌, ◌-◌, ◌*◌, ◌≤◌, IfOk, Ok, MatchResult};
ghost use Rattle.std.specs.Int.RustNames.{unsigned_abs};
ghost use Rattle.slice_base.specs.Boxes.{Box, grown, around};
ghost use Rattle.slice_base.specs.Regions.{points_in, HaveAtLeast, RegionIn};
ghost use Rattle.edge_cut.specs.Faults.{IsCutFault};
ghost use Rattle.offset_core.specs.Offset.{offset_of};

use crate::loops::moved_loops;
use crate::normals::Distance;
use clip_core::{Rule, clean};
use edge_cut::CutFault;
use slice_base::Region;
use std::alloc::Global;

/// The region with its outlines moved `by` µm outward, or inward below 0: where its loops, their edges moved,
/// wind round more than 0 times. Corners are mitred; one of less than 60 degrees is cut off. What has no
/// room left goes, holes too. `TooTangled` comes exactly where a list of edges has more than 100,000, as in
/// `clean`.
#[tactic(auto, unfolding(crate::specs::Offset::offset_of))]
pub fn offset(alloc: Global, region: &Region, by: i32) -> Result<Region, CutFault>
    requires distance { unsigned_abs by ≤ 100000 }
    requires room { RegionIn (around (1700000 - (3 * unsigned_abs by + 3))) region.now }
    ensures answer { MatchResult result (λ moved. offset_of by region.now ≡ Ok moved)
        (IsCutFault (offset_of by region.now)) }
    ensures few { IfOk result (λ moved. points_in moved ≤ 150000) }
    ensures least { IfOk result (λ moved. HaveAtLeast 1 moved) }

    // Points stay as near to the region as three times the distance, and 3 µm.
    ensures within { IfOk result (λ moved. (box : Box) → RegionIn box region.now
        → RegionIn (grown (3 * unsigned_abs by + 3) box) moved) }
{
    if by == 0 {
        return clean(alloc, region, Rule::Positive);
    }
    let moved = moved_loops(alloc, region, Distance { by })?;
    clean(alloc, &moved, Rule::Positive)
}
