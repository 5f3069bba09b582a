// The walls of an outline.

ghost use Rattle.std.specs.Prelude.{◌≡◌, ◌+◌, ◌-◌, ◌*◌, ◌<◌, ◌≤◌, ◌≤ℤ◌, pos, neg_ℤ, length, IfOk, Ok, MatchResult};
ghost use Rattle.std.specs.Int.RustNames.{unsigned_abs};
ghost use Rattle.std.specs.List.{All};
ghost use Rattle.slice_base.specs.Boxes.{Box, grown, around};
ghost use Rattle.slice_base.specs.Regions.{RegionIn};
ghost use Rattle.slice_base.specs.Outcomes.{up_to};
ghost use Rattle.edge_cut.specs.Faults.{IsCutFault};
ghost use Rattle.offset_core.specs.Offset.{offset_of};
ghost use Rattle.wall_skin.specs.Sizes.{IsSmall};
ghost use Rattle.wall_skin.specs.Walls.{middle_of, wall_of, inner_area_of, walls_of};

use edge_cut::CutFault;
use offset_core::offset;
use slice_base::{Items, Region};
use std::alloc::Global;

/// The walls of an outline, from the outside in, and what lies inside them.
#[derive(Drop)]
pub struct WallSet {
    /// For each wall, the loops that its middle follows.
    pub loops: Items<Region>,
    /// What lies inside all walls.
    pub inner: Region,
}

// Minus `n`.
fn inward(n: u32) -> i32
    requires { n ≤ 40000 }
    ensures { result ≡ neg_ℤ (pos n) }
{
    -(n as i32)
}

// The outline, moved inward by `n` µm, which are at most `most`.
fn inset(alloc: Global, outline: &Region, n: u32, most: u32) -> Result<Region, CutFault>
    requires some { n ≤ most }
    requires few { most ≤ 40000 }
    requires room { RegionIn (around (1700000 - (3 * most + 3))) outline.now }
    ensures answer { MatchResult result (λ inner. offset_of (neg_ℤ (pos n)) outline.now ≡ Ok inner)
        (IsCutFault (offset_of (neg_ℤ (pos n)) outline.now)) }
    ensures small { IfOk result (λ inner. IsSmall inner) }
    ensures within { IfOk result (λ inner. (box : Box) → RegionIn box outline.now
        → RegionIn (grown (3 * most + 3) box) inner) }
{
    offset(alloc, outline, inward(n))
}

// How far so many walls reach inward, in µm.
fn depth(width: u32, count: u32) -> u32
    requires width_to { width ≤ 2000 }
    requires few { count ≤ 20 }
    ensures exact { result ≡ count * width }
    ensures small { result ≤ 40000 }
{
    count * width
}

// How far the middle of wall `k` lies inside the outline, in µm.
fn middle(width: u32, count: u32, k: u32) -> u32
    requires width_to { width ≤ 2000 }
    requires width_some { 0 < width }
    requires few { count ≤ 20 }
    requires below { k < count }
    ensures exact { result ≡ middle_of width k }
    ensures within { result ≤ count * width }
{
    (width + 1) / 2 + depth(width, k)
}

// The walls, from the outside in.
fn wall_loops(
    alloc: Global,
    outline: &Region,
    count: u32,
    width: u32,
    most: u32,
) -> Result<Items<Region>, CutFault>
    requires width_to { width ≤ 2000 }
    requires width_some { 0 < width }
    requires few { count ≤ 20 }
    requires most_is { most ≡ count * width }
    requires most_small { most ≤ 40000 }
    requires room { RegionIn (around (1700000 - (3 * most + 3))) outline.now }
    ensures answer { MatchResult result (λ walls. up_to (wall_of outline.now width) count ≡ Ok walls)
        (IsCutFault (up_to (wall_of outline.now width) count)) }
    ensures small { IfOk result (λ walls. All IsSmall walls) }
    ensures within { IfOk result (λ walls. (box : Box) → RegionIn box outline.now
        → All (RegionIn (grown (3 * most + 3) box)) walls) }
{
    let mut walls = Items::new(alloc);
    for k in 0..count {
        let by = middle(width, count, k);
        walls.push(inset(alloc, outline, by, most)?)?;
    }
    Ok(walls)
}

// What lies inside all walls.
fn inner_area(
    alloc: Global,
    outline: &Region,
    count: u32,
    width: u32,
    most: u32,
) -> Result<Region, CutFault>
    requires most_is { most ≡ count * width }
    requires most_small { most ≤ 40000 }
    requires room { RegionIn (around (1700000 - (3 * most + 3))) outline.now }
    ensures answer { MatchResult result (λ inner. inner_area_of outline.now width count ≡ Ok inner)
        (IsCutFault (inner_area_of outline.now width count)) }
    ensures small { IfOk result (λ inner. IsSmall outline.now → IsSmall inner) }
    ensures within { IfOk result (λ inner. (box : Box) → RegionIn box outline.now
        → RegionIn (grown (3 * most + 3) box) inner) }
{
    if count == 0 {
        return Ok(outline.copy(alloc)?);
    }
    inset(alloc, outline, most, most)
}

fn walls_by(
    alloc: Global,
    outline: &Region,
    count: u32,
    width: u32,
    most: u32,
) -> Result<WallSet, CutFault>
    requires width_to { width ≤ 2000 }
    requires width_some { 0 < width }
    requires few { count ≤ 20 }
    requires most_is { most ≡ count * width }
    requires most_small { most ≤ 40000 }
    requires room { RegionIn (around (1700000 - (3 * most + 3))) outline.now }
    ensures answer { MatchResult result (λ set. walls_of outline.now count width ≡ Ok set)
        (IsCutFault (walls_of outline.now count width)) }
    ensures as_many { IfOk result (λ set. length set.loops ≡ count) }
    ensures small { IfOk result (λ set. All IsSmall set.loops) }
    ensures inner_small { IfOk result (λ set. IsSmall outline.now → IsSmall set.inner) }
    ensures within { IfOk result (λ set. (box : Box) → RegionIn box outline.now
        → All (RegionIn (grown (3 * most + 3) box)) set.loops) }
    ensures inner_within { IfOk result (λ set. (box : Box) → RegionIn box outline.now
        → RegionIn (grown (3 * most + 3) box) set.inner) }
{
    let loops = wall_loops(alloc, outline, count, width, most)?;
    let inner = inner_area(alloc, outline, count, width, most)?;
    Ok(WallSet { loops, inner })
}

// The width as a number without a sign.
fn positive(width: i32) -> u32
    ensures { result ≡ unsigned_abs width }
{
    width.unsigned_abs()
}

/// The walls of an outline, `count` of them, each `width` µm wide, and what lies inside them; with no wall that is
/// the outline. `TooTangled` comes exactly where the first of these cuts, from the outside in and the inner area
/// last, that has too many edges has `count` of them.
pub fn walls(alloc: Global, outline: &Region, count: u32, width: i32) -> Result<WallSet, CutFault>
    requires width_from { pos 50 ≤ℤ width }
    requires width_to { width ≤ℤ pos 2000 }
    requires few { count ≤ 20 }
    requires room { RegionIn (around (1700000 - (3 * (count * unsigned_abs width) + 3))) outline.now }
    ensures answer { MatchResult result (λ set. walls_of outline.now count (unsigned_abs width) ≡ Ok set)
        (IsCutFault (walls_of outline.now count (unsigned_abs width))) }
    ensures as_many { IfOk result (λ set. length set.loops ≡ count) }
    ensures small { IfOk result (λ set. All IsSmall set.loops) }
    ensures inner_small { IfOk result (λ set. IsSmall outline.now → IsSmall set.inner) }

    // Points stay as near to the outline as three times the depth of the walls, and 3 µm.
    ensures within { IfOk result (λ set. (box : Box) → RegionIn box outline.now
        → All (RegionIn (grown (3 * (count * unsigned_abs width) + 3) box)) set.loops) }
    ensures inner_within { IfOk result (λ set. (box : Box) → RegionIn box outline.now
        → RegionIn (grown (3 * (count * unsigned_abs width) + 3) box) set.inner) }
{
    let wide = positive(width);
    let most = depth(wide, count);
    walls_by(alloc, outline, count, wide, most)
}
