// The times of the paths of a window of layer plans, added up.

ghost use Rattle.std.specs.Prelude.{◌≡◌, ◌+◌, ◌<◌, ◌≤◌, ◌^◌, length, take, slice_index, ℕ};
ghost use Rattle.std.specs.List.{All, sum};
ghost use Rattle.plan_types.specs.Steps.{path_count_of, path_counts_of};
ghost use Rattle.preheat_core.specs.Times.{times_in, times_of, all_times, elapsed_of, IsTimed};
ghost use Rattle.preheat_core.specs.Inner.Befores.{befores_in};

use crate::spots::path_count;
use plan_types::{ExtruderPlan, LayerPlan};

fn time_in(plans: &[ExtruderPlan], path: u64) -> u64
    ensures { result ≡ slice_index (times_in plans.now) path }
{
    let mut rest = path;
    for x in plans {
        let n = x.paths.len() as u64;
        if rest < n {
            let path = &x.paths.items()[rest as usize];
            return path.time;
        }
        rest -= n;
    }
    0
}

fn before_in(plans: &[ExtruderPlan], path: u64) -> u128
    ensures { result ≡ slice_index (befores_in plans.now) path }
{
    let mut rest = path;
    for x in plans {
        let n = x.paths.len() as u64;
        if rest < n {
            let path = &x.paths.items()[rest as usize];
            return path.before;
        }
        rest -= n;
    }
    0
}

// The time of a path with the travel to it.
fn time_at(layer: &LayerPlan, path: u64) -> u128
    requires path { path < path_count_of layer.now }
    ensures exact { result ≡ slice_index (times_of layer.now) path }
    ensures small { result < 2 ^ 65 }
{
    let own = time_in(layer.plans.items(), path) as u128;
    if path == 0 {
        own + layer.lead as u128
    } else {
        own
    }
}

// The time from a layer's first boundary to a path.
fn before_at(layer: &LayerPlan, path: u64) -> u128
    requires path { path < path_count_of layer.now }
    requires timed { IsTimed layer.now }
    ensures { result ≡ sum (take path (times_of layer.now)) }
{
    before_in(layer.plans.items(), path)
}

/// The time of the paths of a layer, with the travel to the first, in µs.
pub fn layer_time(layer: &LayerPlan) -> u128
    requires small { path_count_of layer.now < 2 ^ 40 }
    requires timed { IsTimed layer.now }
    requires total { sum (times_of layer.now) < 2 ^ 100 }
    ensures { result ≡ sum (times_of layer.now) }
{
    let n = path_count(layer);
    if n == 0 {
        return 0;
    }
    let before = before_at(layer, n - 1);
    before + time_at(layer, n - 1)
}

/// The time of so many first paths of a window, in µs.
pub fn elapsed(window: &[LayerPlan], number: u128) -> u128
    requires small { All (λ l. path_count_of l < 2 ^ 40) window.now }
    requires timed { All IsTimed window.now }
    requires total { sum (all_times window.now) < 2 ^ 100 }
    ensures exact { result ≡ elapsed_of window.now number }
    ensures small { result < 2 ^ 100 }
{
    let mut rest = number;
    let mut time = 0u128;
    for l in window {
        let n = u128::from(path_count(l));
        if rest < n {
            return time + before_at(l, rest as u64);
        }
        rest -= n;
        time += layer_time(l);
    }
    time
}
