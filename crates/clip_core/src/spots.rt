// The order in which rays stand: what is sorted for it is small, a key and an index, in place of whole rays.

ghost use Rattle.std.specs.Prelude.{◌≡◌, ◌≤◌, ◌<◌, length, slice_index_or, IfOk};
ghost use Rattle.std.specs.List.{All};
ghost use Rattle.clip_core.specs.Inner.Rays.{IsKeyOf};
ghost use Rattle.clip_core.specs.Inner.Spots.{IsSpotOf, AreNumbered, AreRising, HaveSpots};

use crate::bundles::Bundle;
use crate::strips::key_of;
use slice_base::NoMemory;
use std::alloc::Global;

/// The key that a bundle is ordered by, and its index among all bundles.
#[derive(Clone, Copy)]
pub(crate) struct Spot {
    pub(crate) key: u64,
    pub(crate) index: u32,
}

fn spot_from(bundle: Bundle, index: usize, bits: u32) -> Spot
    requires few { index < 100000 }
    requires bits_from { 2 ≤ bits }
    requires bits_to { bits ≤ 40 }
    ensures keyed { IsKeyOf bits bundle result.key }
    ensures index { result.index ≡ index }
{
    Spot {
        key: key_of(bundle, bits),
        index: index as u32,
    }
}

fn spots_from(alloc: Global, bundles: &[Bundle], bits: u32) -> Result<Vec<Spot>, NoMemory>
    requires few { length bundles.now ≤ 100000 }
    requires bits_from { 2 ≤ bits }
    requires bits_to { bits ≤ 40 }
    ensures count { IfOk result (λ spots. length spots.items ≡ length bundles.now) }
    ensures are { IfOk result (λ spots. All (IsSpotOf bits bundles.now) spots.items) }
    ensures numbered { IfOk result (λ spots. AreNumbered spots.items) }
{
    let mut spots = Vec::with_capacity(alloc, bundles.len())?;
    for index in 0..bundles.len() {
        spots.push(spot_from(bundles[index], index, bits))?;
    }
    Ok(spots)
}

/// The spots of these bundles by their keys.
pub(crate) fn sorted_spots(
    alloc: Global,
    bundles: &[Bundle],
    bits: u32,
) -> Result<Vec<Spot>, NoMemory>
    requires few { length bundles.now ≤ 100000 }
    requires bits_from { 2 ≤ bits }
    requires bits_to { bits ≤ 40 }
    ensures count { IfOk result (λ spots. length spots.items ≡ length bundles.now) }
    ensures are { IfOk result (λ spots. All (IsSpotOf bits bundles.now) spots.items) }
    ensures each { IfOk result (λ spots. HaveSpots bundles.now spots.items) }
    ensures rising { IfOk result (λ spots. AreRising spots.items) }
{
    let mut spots = spots_from(alloc, bundles, bits)?;
    spots.sort_unstable_by_key(|s| s.key);
    Ok(spots)
}
