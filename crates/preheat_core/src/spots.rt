// Paths of a window of layer plans, by their place and by their number.

ghost use Rattle.std.specs.Prelude.{◌≡◌, ◌+◌, ◌*◌, ◌<◌, ◌≤◌, ◌^◌, length};
ghost use Rattle.std.specs.List.{All};
ghost use Rattle.plan_types.specs.Steps.{path_count_of, path_counts_of};
ghost use Rattle.preheat_core.specs.Spots.{IsSpot, number_of};

use plan_types::LayerPlan;

/// A path of a window of layer plans.
#[derive(Clone, Copy, PartialEq, Eq, Debug)]
pub struct Spot {
    /// The place of its layer's plan in the window, from 0.
    pub slot: u32,
    /// Its number in that layer, from 0 through all paths.
    pub path: u64,
}

/// How many paths a layer has.
pub fn path_count(layer: &LayerPlan) -> u64
    requires small { path_count_of layer.now < 2 ^ 40 }
    ensures { result ≡ path_count_of layer.now }
{
    let mut n = 0u64;
    for x in layer.plans.items() {
        n += x.paths.len() as u64;
    }
    n
}

/// The path of a window before which so many paths of the window stand.
pub fn spot_at(window: &[LayerPlan], number: u128) -> Spot
    requires small { All (λ l. path_count_of l < 2 ^ 40) window.now }
    requires few { length window.now < 2 ^ 32 }
    requires number { number < path_counts_of window.now }
    ensures spot { IsSpot window.now result }
    ensures number { number_of window.now result ≡ number }
{
    let mut rest = number;
    let mut slot = 0u32;
    for l in window {
        let n = u128::from(path_count(l));
        if rest < n {
            return Spot {
                slot,
                path: rest as u64,
            };
        }
        rest -= n;
        slot += 1;
    }
    Spot { slot: 0, path: 0 }
}

// How many paths of a window stand before a spot.
pub(crate) fn number(window: &[LayerPlan], spot: Spot) -> u128
    requires small { All (λ l. path_count_of l < 2 ^ 40) window.now }
    requires few { length window.now < 2 ^ 32 }
    requires spot { IsSpot window.now spot }
    ensures number { result ≡ number_of window.now spot }
    ensures small { result < 2 ^ 73 }
{
    let mut n = 0u128;
    for slot in 0..spot.slot {
        n += u128::from(path_count(&window[slot as usize]));
    }
    n + u128::from(spot.path)
}
