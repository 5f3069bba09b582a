// Volumes of print moves, and the filament that they take.

ghost use Rattle.std.specs.Prelude.{◌≡◌, ◌+◌, ◌*◌, ◌<◌, ◌≤◌, ◌^◌, pos, ◌-ℤ◌, length};
ghost use Rattle.std.specs.Int.RustNames.{unsigned_abs};
ghost use Rattle.slice_base.specs.Plane.{InSquare};
ghost use Rattle.plan_types.specs.Extruders.{extruder_of};
ghost use Rattle.gcode_write.specs.Filament.{line_area_of, move_volume_of, filament_through, extruded_of, retracted_of};

use plan_types::Path;
use settings_core::ExtruderSettings;
use slice_base::{Pt, length, round_div};

// The settings of an extruder that is there.
pub(crate) fn extruder(extruders: &[ExtruderSettings], e: u8) -> ExtruderSettings
    requires { e < length extruders.now }
    ensures { result ≡ extruder_of extruders.now e }
{
    extruders[usize::from(e)]
}

fn area(width: u32, thickness: u32) -> u64
    ensures { result ≡ width * thickness }
{
    u64::from(width) * u64::from(thickness)
}

pub(crate) fn line_area(path: &Path) -> u64
    ensures { result ≡ line_area_of path.now }
{
    area(path.width.unsigned_abs(), path.thickness.unsigned_abs())
}

fn swept(length: u64, area: u64) -> u128
    requires { length ≤ 5656855 }
    ensures exact { result ≡ length * area }
    ensures small { result ≤ 2 ^ 87 }
{
    u128::from(length) * u128::from(area)
}

fn flowing(volume: u128, flow: u32) -> u128
    requires volume { volume ≤ 2 ^ 87 }
    requires flow { flow ≤ 500 }
    ensures { result ≡ volume * flow }
{
    volume * u128::from(flow)
}

pub(crate) fn move_volume(x: &ExtruderSettings, area: u64, from: Pt, to: Pt) -> u128
    requires from { InSquare 1700000 from }
    requires to { InSquare 1700000 to }
    ensures { result ≡ move_volume_of x.now area from to }
{
    flowing(swept(length(from, to), area), x.material_flow)
}

fn square(diameter: u32) -> u64
    requires low { 500 ≤ diameter }
    requires high { diameter ≤ 10000 }
    ensures exact { result ≡ diameter * diameter }
    ensures low { 250000 ≤ result }
    ensures high { result ≤ 100000000 }
{
    u64::from(diameter) * u64::from(diameter)
}

fn filament_through(diameter: u32, volume: u128) -> i128
    requires low { 500 ≤ diameter }
    requires high { diameter ≤ 10000 }
    requires small { volume < 2 ^ 116 }
    ensures { result ≡ filament_through diameter volume }
{
    round_div((volume * 452) as i128, (355 * square(diameter)) as i128)
}

fn bounded_filament(diameter: u32, volume: u128) -> i128
    requires low { 500 ≤ diameter }
    requires high { diameter ≤ 10000 }
    requires small { volume < 2 ^ 116 }
    ensures exact { result ≡ filament_through diameter volume }
    ensures small { unsigned_abs result < 2 ^ 99 }
{
    filament_through(diameter, volume)
}

/// The filament of an extruder for a volume by its flow: in hundred-thousandths of a millimetre, for so many µm³ times
/// percent.
pub fn extruded(x: &ExtruderSettings, volume: u128) -> i128
    requires { volume < 2 ^ 116 }
    ensures exact { result ≡ extruded_of x.now volume }
    ensures small { unsigned_abs result < 2 ^ 99 }
{
    bounded_filament(x.material_diameter, volume)
}

fn less(e: i128, amount: u32) -> i128
    requires e { unsigned_abs e < 2 ^ 99 }
    requires amount { amount ≤ 100000 }
    ensures { result ≡ e -ℤ pos (100 * amount) }
{
    e - i128::from(100 * amount)
}

pub(crate) fn retracted(x: &ExtruderSettings, volume: u128) -> i128
    requires { volume < 2 ^ 116 }
    ensures { result ≡ retracted_of x.now volume }
{
    less(extruded(x, volume), x.retraction_amount)
}
