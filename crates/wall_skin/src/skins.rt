// Skin and fill.

ghost use Rattle.std.specs.Prelude.{◌≡◌, ◌+◌, ◌-◌, ◌<◌, ◌≤◌, ◌==◌, ◌++◌, [], length, false, take, drop, IfOk, Ok, MatchResult};
ghost use Rattle.std.specs.List.{All};
ghost use Rattle.slice_base.specs.Boxes.{Box};
ghost use Rattle.slice_base.specs.Regions.{RegionIn};
ghost use Rattle.slice_base.specs.Outcomes.{fold_ok};
ghost use Rattle.edge_cut.specs.Faults.{IsCutFault};
ghost use Rattle.clip_core.specs.declared.keeping.Operation.TheVariants.{Meet};
ghost use Rattle.clip_core.specs.Clip.{clipped_of};
ghost use Rattle.wall_skin.specs.Sizes.{IsSmall};
ghost use Rattle.wall_skin.specs.Skin.{lacks_near, shared_of, skin_outside_of, skin_in_of, skin_of};

use clip_core::{meet, subtract};
use edge_cut::CutFault;
use slice_base::{NoMemory, Region};
use std::alloc::Global;

/// What is filled of a layer.
#[derive(Drop)]
pub struct Split {
    /// What is filled solid, as the top or the bottom of the print.
    pub skin: Region,
    /// What is filled by lines far apart.
    pub fill: Region,
}

// Whether no layer is near.
fn wants_none(bottom: u32, top: u32) -> bool
    ensures { result ≡ (bottom + top == 0) }
{
    u64::from(bottom) + u64::from(top) == 0
}

// Whether a near layer isn't there.
fn lacks_near(count: usize, layer: u32, bottom: u32, top: u32) -> bool
    ensures { result ≡ lacks_near count layer bottom top }
{
    layer < bottom || count as u64 <= u64::from(layer) + u64::from(top)
}

// The inner areas of the near layers below.
fn below(inners: &[Region], layer: usize, bottom: usize) -> &[Region]
    requires there { bottom ≤ layer }
    requires layer_in { layer < length inners.now }
    ensures { result.now ≡ take bottom (drop (layer - bottom) inners.now) }
{
    &inners[layer - bottom..layer]
}

// The inner areas of the near layers above.
fn above(inners: &[Region], layer: usize, top: usize) -> &[Region]
    requires there { layer + top < length inners.now }
    ensures { result.now ≡ take top (drop (layer + 1) inners.now) }
{
    &inners[layer + 1..layer + 1 + top]
}

// What lies in a region and in all others, met from the left.
fn meet_all(alloc: Global, first: Region, others: &[Region]) -> Result<Region, CutFault>
    ensures answer { MatchResult result (λ region. fold_ok (clipped_of Meet) first others.now ≡ Ok region)
        (IsCutFault (fold_ok (clipped_of Meet) first others.now)) }
    ensures within { IfOk result (λ region. (box : Box) → RegionIn box first → All (RegionIn box) others.now
        → RegionIn box region) }
{
    let mut shared = first;
    for other in others {
        shared = meet(alloc, &shared, other)?;
    }
    Ok(shared)
}

// What lies in all of these regions; nothing where there is none.
fn shared(alloc: Global, regions: &[Region]) -> Result<Region, CutFault>
    ensures answer { MatchResult result (λ region. shared_of regions.now ≡ Ok region)
        (IsCutFault (shared_of regions.now)) }
    ensures within { IfOk result (λ region. (box : Box) → All (RegionIn box) regions.now → RegionIn box region) }
{
    match regions {
        [] => Ok(Region::new(alloc)),
        [first, rest @ ..] => meet_all(alloc, first.copy(alloc)?, rest),
    }
}

// What lies in all of these regions, those below and then those above.
fn shared_by_both(alloc: Global, lower: &[Region], upper: &[Region]) -> Result<Region, CutFault>
    ensures answer { MatchResult result (λ region. shared_of (lower.now ++ upper.now) ≡ Ok region)
        (IsCutFault (shared_of (lower.now ++ upper.now))) }
    ensures within { IfOk result (λ region. (box : Box) → All (RegionIn box) lower.now → All (RegionIn box) upper.now
        → RegionIn box region) }
{
    let count = lower.len();
    if count == 0 {
        return shared(alloc, upper);
    }
    let first = shared(alloc, lower)?;
    meet_all(alloc, first, upper)
}

// As skin what lies outside of a region, as fill the rest.
fn skin_outside(alloc: Global, inner: &Region, shared: &Region) -> Result<Split, CutFault>
    ensures answer { MatchResult result (λ s. skin_outside_of inner.now shared.now ≡ Ok s)
        (IsCutFault (skin_outside_of inner.now shared.now)) }
    ensures skin_small { IfOk result (λ s. IsSmall s.skin) }
    ensures fill_small { IfOk result (λ s. IsSmall s.fill) }
    ensures skin_within { IfOk result (λ s. (box : Box) → RegionIn box inner.now → RegionIn box shared.now
        → RegionIn box s.skin) }
    ensures fill_within { IfOk result (λ s. (box : Box) → RegionIn box inner.now → RegionIn box shared.now
        → RegionIn box s.fill) }
{
    let skin = subtract(alloc, inner, shared)?;
    let fill = subtract(alloc, inner, &skin)?;
    Ok(Split { skin, fill })
}

// All as fill.
fn only_fill(alloc: Global, inner: &Region) -> Result<Split, NoMemory>
    ensures { IfOk result (λ s. s ≡ record { skin = []; fill = inner.now }) }
{
    Ok(Split {
        skin: Region::new(alloc),
        fill: inner.copy(alloc)?,
    })
}

// All as skin.
fn only_skin(alloc: Global, inner: &Region) -> Result<Split, NoMemory>
    ensures { IfOk result (λ s. s ≡ record { skin = inner.now; fill = [] }) }
{
    Ok(Split {
        skin: inner.copy(alloc)?,
        fill: Region::new(alloc),
    })
}

// Skin and fill in an inner area, by near layers that are there.
fn skin_by_near(
    alloc: Global,
    inners: &[Region],
    inner: &Region,
    layer: u32,
    bottom: u32,
    top: u32,
) -> Result<Split, CutFault>
    requires some { (bottom + top == 0) ≡ false }
    requires there { lacks_near (length inners.now) layer bottom top ≡ false }
    ensures answer { MatchResult result (λ s. skin_in_of inners.now layer bottom top inner.now ≡ Ok s)
        (IsCutFault (skin_in_of inners.now layer bottom top inner.now)) }
    ensures skin_small { IfOk result (λ s. IsSmall s.skin) }
    ensures fill_small { IfOk result (λ s. IsSmall s.fill) }
    ensures skin_within { IfOk result (λ s. (box : Box) → RegionIn box inner.now → All (RegionIn box) inners.now
        → RegionIn box s.skin) }
    ensures fill_within { IfOk result (λ s. (box : Box) → RegionIn box inner.now → All (RegionIn box) inners.now
        → RegionIn box s.fill) }
{
    let lower = below(inners, layer as usize, bottom as usize);
    let upper = above(inners, layer as usize, top as usize);
    let shared = shared_by_both(alloc, lower, upper)?;
    skin_outside(alloc, inner, &shared)
}

// Skin and fill in an inner area.
fn skin_in(
    alloc: Global,
    inners: &[Region],
    inner: &Region,
    layer: u32,
    bottom: u32,
    top: u32,
) -> Result<Split, CutFault>
    requires small { IsSmall inner.now }
    ensures answer { MatchResult result (λ s. skin_in_of inners.now layer bottom top inner.now ≡ Ok s)
        (IsCutFault (skin_in_of inners.now layer bottom top inner.now)) }
    ensures skin_small { IfOk result (λ s. IsSmall s.skin) }
    ensures fill_small { IfOk result (λ s. IsSmall s.fill) }
    ensures skin_within { IfOk result (λ s. (box : Box) → RegionIn box inner.now → All (RegionIn box) inners.now
        → RegionIn box s.skin) }
    ensures fill_within { IfOk result (λ s. (box : Box) → RegionIn box inner.now → All (RegionIn box) inners.now
        → RegionIn box s.fill) }
{
    if wants_none(bottom, top) {
        return Ok(only_fill(alloc, inner)?);
    }
    if lacks_near(inners.len(), layer, bottom, top) {
        return Ok(only_skin(alloc, inner)?);
    }
    skin_by_near(alloc, inners, inner, layer, bottom, top)
}

/// Skin and fill of a layer, by the inner areas of all layers from the lowest up: skin is what doesn't lie inside all
/// of the `bottom` layers below and the `top` layers above it. Where both numbers are 0 all is fill, and where one of
/// these layers isn't there all is skin. `TooTangled` comes exactly where the first of these cuts that has too many
/// edges has `count` of them.
pub fn skin(
    alloc: Global,
    inners: &[Region],
    layer: u32,
    bottom: u32,
    top: u32,
) -> Result<Split, CutFault>
    requires below { layer < length inners.now }
    requires small { All IsSmall inners.now }
    ensures answer { MatchResult result (λ s. skin_of inners.now layer bottom top ≡ Ok s)
        (IsCutFault (skin_of inners.now layer bottom top)) }
    ensures skin_small { IfOk result (λ s. IsSmall s.skin) }
    ensures fill_small { IfOk result (λ s. IsSmall s.fill) }
    ensures skin_within { IfOk result (λ s. (box : Box) → All (RegionIn box) inners.now → RegionIn box s.skin) }
    ensures fill_within { IfOk result (λ s. (box : Box) → All (RegionIn box) inners.now → RegionIn box s.fill) }
{
    let at = layer as usize;
    let inner = &inners[at];
    skin_in(alloc, inners, inner, layer, bottom, top)
}
