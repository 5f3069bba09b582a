// The time that an extruder needs to heat up.

ghost use Rattle.std.specs.Prelude.{◌≡◌, ◌*◌, ◌<◌, ◌≤◌, ◌^◌, IfSome};
ghost use Rattle.preheat_core.specs.Need.{rise_of, drop_of, need_of};

use settings_core::ExtruderSettings;

fn rise(e: &ExtruderSettings) -> u128
    ensures exact { result ≡ rise_of e.now }
    ensures small { result ≤ 400000 }
{
    let degrees = e
        .material_print_temperature
        .saturating_sub(e.material_standby_temperature);
    u128::from(degrees) * 1000
}

// How far it would cool, without an end, in millionths of a thousandth of a degree.
fn cooled(e: &ExtruderSettings, since: u128) -> u128
    requires since { since < 2 ^ 101 }
    ensures exact { result ≡ e.now.machine_nozzle_cool_down_speed * since }
    ensures small { result < 2 ^ 121 }
{
    u128::from(e.machine_nozzle_cool_down_speed) * since
}

fn drop(e: &ExtruderSettings, since: Option<u128>) -> u128
    requires since { IfSome since (λ t. t < 2 ^ 101) }
    ensures exact { result ≡ drop_of e.now since }
    ensures small { result ≤ 400000 }
{
    match since {
        None => rise(e),
        Some(since) => rise(e).min(cooled(e, since).div_ceil(1_000_000)),
    }
}

/// The time that an extruder needs to heat up to its print temperature, in µs, and a second more: since it
/// was left, that many µs ago, it cools down, at most to its standby temperature; never used, it has that
/// temperature. `None` is for never used.
pub fn need(e: &ExtruderSettings, since: Option<u128>) -> u128
    requires since { IfSome since (λ t. t < 2 ^ 101) }
    ensures { result ≡ need_of e.now since }
{
    let rate = u128::from(e.machine_nozzle_heat_up_speed);
    (drop(e, since) * 1_000_000).div_ceil(rate) + 1_000_000
}
