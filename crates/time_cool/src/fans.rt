// The fan.

ghost use Rattle.std.specs.Prelude.{◌≡◌, ◌*◌, ◌<◌, ◌≤◌};
ghost use Rattle.slice_base.specs.Whole.{round_nat};
ghost use Rattle.time_cool.specs.Fans.{fan_of};

use settings_core::Settings;
use slice_base::round_nat;

// A power in the proportion of one number to a greater one.
fn part_of(power: u64, number: u64, whole: u64) -> u64
    requires some { 0 < whole }
    requires less { number ≤ whole }
    requires few { whole ≤ 100000 }
    requires small { power ≤ 25500 }
    ensures exact { result ≡ round_nat (power * number) (100 * whole) }
    ensures small { result ≤ 255 }
{
    round_nat(power * number, 100 * whole)
}

/// The power of the fan on a layer, in 255ths.
pub fn fan(settings: &Settings, layer: u32) -> u8
    ensures { result ≡ fan_of settings.now layer }
{
    let power = 255 * u64::from(settings.cool_fan_speed);
    let number = u64::from(layer);
    let full = u64::from(settings.cool_fan_full_layer);
    if full <= number + 1 {
        part_of(power, 1, 1) as u8
    } else {
        part_of(power, number, full - 1) as u8
    }
}
