// The extruders that layers want, as the bits of a number.

ghost use Rattle.std.specs.Prelude.{◌≡◌, ◌<◌, ◌+◌, ◌==◌, ℕ, map, length, IfOk};
ghost use Rattle.std.specs.List.{All};
ghost use Rattle.area_stage.specs.Extruders.{has_loop, has_some_loop, is_filled, is_printed_inside, is_printed, wanted_bit, wanted_of, used_of, least_of, first_of, last_of};
ghost use Rattle.area_stage.specs.Inner.Layers.{AreBelow};

use crate::walling::mesh_settings;
use plan_types::{MeshAreas, has_bit};
use settings_core::{MeshSettings, Settings};
use slice_base::{Items, NoMemory, Region};
use std::alloc::Global;

// The numbers of all extruders that there can be, rising.
const ALL: [u8; 8] = [0, 1, 2, 3, 4, 5, 6, 7];

// Whether there is a loop.
fn has_loop(region: &Region) -> bool
    ensures { result ≡ has_loop region.now }
{
    match region.loops() {
        [] => false,
        [_, ..] => true,
    }
}

// Whether one of these regions has a loop.
fn has_some_loop(regions: &[Region]) -> bool
    ensures { result ≡ has_some_loop regions.now }
{
    for region in regions {
        if has_loop(region) {
            return true;
        }
    }
    false
}

// Whether there is fill, and fill lines are wanted.
fn is_filled(m: MeshSettings, fill: &Region) -> bool
    ensures { result ≡ is_filled m fill.now }
{
    has_loop(fill) && 0 < m.infill_line_distance
}

// Whether something is printed inside the walls.
fn is_printed_inside(m: MeshSettings, areas: &MeshAreas) -> bool
    ensures { result ≡ is_printed_inside m areas.now }
{
    has_loop(&areas.skin) || is_filled(m, &areas.fill)
}

// Whether something of the mesh is printed on a layer.
fn is_printed(m: MeshSettings, areas: &MeshAreas) -> bool
    ensures { result ≡ is_printed m areas.now }
{
    has_some_loop(areas.walls.items()) || is_printed_inside(m, areas)
}

// The bit of the mesh's extruder, where something of the mesh is printed.
fn wanted_bit(m: MeshSettings, areas: &MeshAreas) -> u8
    ensures is { result ≡ wanted_bit m areas.now }
    ensures own { AreBelow (m.extruder_nr + 1) result }
{
    if is_printed(m, areas) {
        1 << m.extruder_nr
    } else {
        0
    }
}

/// The extruders that a layer with these areas wants.
pub(crate) fn wanted(settings: &Settings, areas: &[MeshAreas]) -> u8
    requires { length areas.now ≡ length settings.now.meshes }
    ensures is { result ≡ wanted_of settings.now areas.now }
    ensures known { AreBelow (length settings.now.extruders) result }
{
    let mut bits = 0;
    for i in 0..areas.len() {
        bits |= wanted_bit(mesh_settings(settings, i), &areas[i]);
    }
    bits
}

/// The extruders that each layer wants.
pub(crate) fn each_wanted(
    alloc: Global,
    settings: &Settings,
    areas: &[Items<MeshAreas>],
) -> Result<Items<u8>, NoMemory>
    requires { All (λ a. length a ≡ length settings.now.meshes) areas.now }
    ensures is { IfOk result (λ wanted. wanted ≡ map (wanted_of settings.now) areas.now) }
    ensures known { IfOk result (λ wanted. All (AreBelow (length settings.now.extruders)) wanted) }
{
    let mut all = Items::new(alloc);
    for a in areas {
        all.push(wanted(settings, a.items()))?;
    }
    Ok(all)
}

/// The extruders that some layer wants.
pub(crate) fn used(wanted: &[u8]) -> u8
    ensures is { result ≡ used_of wanted.now }
    ensures known { (n : ℕ) → All (AreBelow n) wanted.now → AreBelow n result }
{
    let mut bits = 0;
    for w in wanted {
        bits |= *w;
    }
    bits
}

// The least of these extruders.
fn least(bits: u8) -> u8
    ensures is { result ≡ least_of bits }
    ensures known { (n : ℕ) → 0 < n → AreBelow n bits → result < n }
{
    for e in &ALL {
        if has_bit(bits, *e) {
            return *e;
        }
    }
    0
}

/// The least extruder of the first layer that wants one; 0 where none does.
pub(crate) fn first(wanted: &[u8]) -> u8
    ensures is { result ≡ first_of wanted.now }
    ensures known { (n : ℕ) → 0 < n → All (AreBelow n) wanted.now → result < n }
{
    for w in wanted {
        if *w != 0 {
            return least(*w);
        }
    }
    0
}

/// The last of an order; the one before it, where the order has none.
pub(crate) fn last(before: u8, order: &[u8]) -> u8
    ensures { result ≡ last_of before order.now }
{
    let mut last = before;
    for e in order {
        last = *e;
    }
    last
}
