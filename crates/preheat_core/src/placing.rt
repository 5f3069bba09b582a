// The path before which a preheat stands.

ghost use Rattle.std.specs.Prelude.{◌≡◌, ◌+◌, ◌-◌, ◌/◌, ◌<◌, ◌≤◌, ◌^◌, length, IfSome, cond};
ghost use Rattle.std.specs.List.{All, sum};
ghost use Rattle.std.specs.Option.{option_map};
ghost use Rattle.plan_types.specs.Steps.{path_count_of, path_counts_of};
ghost use Rattle.preheat_core.specs.Need.{latest};
ghost use Rattle.preheat_core.specs.Spots.{IsSpot, number_of};
ghost use Rattle.preheat_core.specs.Times.{all_times, elapsed_of, IsTimed};
ghost use Rattle.preheat_core.specs.Places.{since_at, is_covering, place_of};

use crate::heating::need;
use crate::spots::{Spot, number, spot_at};
use crate::times::elapsed;
use plan_types::LayerPlan;
use settings_core::ExtruderSettings;

// The boundary that is looked for is at least `low`, and below `high`.
#[derive(Clone, Copy, PartialEq, Eq, Debug)]
struct Span {
    low: u128,
    high: u128,
}

fn later(left: Option<u128>, more: u128) -> Option<u128>
    requires left { IfSome left (λ t. t < 2 ^ 100) }
    requires more { more < 2 ^ 100 }
    ensures exact { result ≡ option_map (λ t. t + more) left }
    ensures small { IfSome result (λ t. t < 2 ^ 101) }
{
    match left {
        None => None,
        Some(left) => Some(left + more),
    }
}

fn is_covering(
    window: &[LayerPlan],
    e: &ExtruderSettings,
    left: Option<u128>,
    front: u128,
    start: u128,
    at: u128,
) -> bool
    requires small { All (λ l. path_count_of l < 2 ^ 40) window.now }
    requires timed { All IsTimed window.now }
    requires total { sum (all_times window.now) < 2 ^ 100 }
    requires left { IfSome left (λ t. t < 2 ^ 100) }
    requires order { front ≤ at }
    requires start { at ≤ start }
    ensures { result ≡ is_covering window.now e.now left front start at }
{
    let here = elapsed(window, at);
    let since = later(left, here - elapsed(window, front));
    elapsed(window, start) - here >= need(e, since)
}

fn half(
    window: &[LayerPlan],
    e: &ExtruderSettings,
    left: Option<u128>,
    front: u128,
    start: u128,
    span: Span,
) -> Span
    requires small { All (λ l. path_count_of l < 2 ^ 40) window.now }
    requires timed { All IsTimed window.now }
    requires total { sum (all_times window.now) < 2 ^ 100 }
    requires left { IfSome left (λ t. t < 2 ^ 100) }
    requires span { span.low + 1 < span.high }
    requires front { front ≤ span.low }
    requires start { span.high ≤ start + 1 }
    ensures { let mid = span.low + (span.high - span.low) / 2 in result
        ≡ cond (is_covering window.now e.now left front start mid) (record span { low = mid })
        (record span { high = mid }) }
{
    let mid = span.low + (span.high - span.low) / 2;
    if is_covering(window, e, left, front, start, mid) {
        Span { low: mid, ..span }
    } else {
        Span { high: mid, ..span }
    }
}

fn search(
    window: &[LayerPlan],
    e: &ExtruderSettings,
    left: Option<u128>,
    front: u128,
    start: u128,
) -> u128
    requires small { All (λ l. path_count_of l < 2 ^ 40) window.now }
    requires timed { All IsTimed window.now }
    requires total { sum (all_times window.now) < 2 ^ 100 }
    requires left { IfSome left (λ t. t < 2 ^ 100) }
    requires order { front ≤ start }
    requires room { start < 2 ^ 73 }
    ensures placed { result ≡ place_of window.now e.now left front start }
    ensures within { result ≤ start }
{
    let mut span = Span {
        low: front,
        high: start + 1,
    };
    'halves: while span.high - span.low > 1 {
        span = half(window, e, left, front, start, span);
    }
    span.low
}

/// The latest path from the front to the start, both included, from which the times of the paths up to the
/// start add up to at least the need there; where there is none, the front. `left` is the time in µs from
/// where the extruder was left to the front, `None` for never used. Takes no memory: the path is searched
/// by halves.
pub fn place(
    window: &[LayerPlan],
    front: Spot,
    start: Spot,
    e: &ExtruderSettings,
    left: Option<u128>,
) -> Spot
    requires small { All (λ l. path_count_of l < 2 ^ 40) window.now }
    requires few { length window.now < 2 ^ 32 }
    requires timed { All IsTimed window.now }
    requires total { sum (all_times window.now) < 2 ^ 100 }
    requires left { IfSome left (λ t. t < 2 ^ 100) }
    requires front { IsSpot window.now front }
    requires start { IsSpot window.now start }
    requires order { number_of window.now front ≤ number_of window.now start }
    ensures spot { IsSpot window.now result }
    ensures placed { number_of window.now result ≡ place_of window.now e.now left (number_of window.now front)
        (number_of window.now start) }
{
    let low = number(window, front);
    let high = number(window, start);
    spot_at(window, search(window, e, left, low, high))
}
