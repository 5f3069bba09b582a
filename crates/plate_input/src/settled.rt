// What pairs and meshes give: settings, and meshes in place.

ghost use Rattle.std.specs.Prelude.{◌≡◌, ◌≤◌, ◌<◌, length, slice_index_or, None, IfOk, IfErr};
ghost use Rattle.std.specs.List.{All};
ghost use Rattle.settings_core.specs.Resolve.{settings_of, fault_of};
ghost use Rattle.plate_input.specs.Inner.Stages.{SettingRefusal, KeptGives};
ghost use Rattle.plate_input.specs.Plate.{MakesPlate, UnlessNoMemory};

use crate::faults::PlateFault;
use crate::files::MOST_BYTES;
use crate::gathered::Gathered;
use crate::meshes::place_meshes;
use crate::plates::Plate;
use settings_core::{Pair, SettingFault, Settings, resolve};
use slice_base::{Items, Text};
use std::alloc::Global;

fn pair_at(pairs: &[Pair], index: u64) -> &Pair
    requires { index < length pairs.now }
    ensures { result.now ≡ slice_index_or pairs.now index result.now }
{
    &pairs[index as usize]
}

// The settings that pairs give, with a mesh for each extruder in the list.
fn settle(alloc: Global, pairs: &[Pair], extruders: &[u8]) -> Result<Settings, PlateFault>
    requires few { length extruders.now ≤ 16 }
    requires below_eight { All (λ e. e < 8) extruders.now }
    ensures faultless { IfOk result (λ s. fault_of pairs.now extruders.now ≡ None) }
    ensures settings { IfOk result (λ s. s ≡ settings_of pairs.now extruders.now) }
    ensures as_many { IfOk result (λ s. length s.meshes ≡ length extruders.now) }
    ensures refused { IfErr result (λ r. SettingRefusal r pairs.now extruders.now) }
{
    match resolve(alloc, pairs, extruders) {
        Ok(settings) => Ok(settings),
        Err(SettingFault::BadValue { pair }) => {
            let misread = pair_at(pairs, pair);
            let key = misread.key.copy(alloc)?;
            let scope = misread.scope;
            Err(PlateFault::BadValue { scope, key })
        }
        Err(SettingFault::OutOfRange { pair }) => {
            let outlier = pair_at(pairs, pair);
            let key = outlier.key.copy(alloc)?;
            let scope = outlier.scope;
            Err(PlateFault::OutOfRange { scope, key })
        }
        Err(SettingFault::UnknownExtruder { mesh }) => Err(PlateFault::UnknownExtruder { mesh }),
        Err(SettingFault::NoMemory) => Err(PlateFault::NoMemory),
    }
}

/// The plate that pairs, the extruders given with the meshes and the bytes of the meshes' files define, or
/// the first fault of these.
pub fn make_plate(
    alloc: Global,
    pairs: &[Pair],
    extruders: &[u8],
    files: Items<Text>,
) -> Result<Plate, PlateFault>
    requires few { length extruders.now ≤ 16 }
    requires some { 0 < length extruders.now }
    requires below_eight { All (λ e. e < 8) extruders.now }
    requires as_many { length files ≡ length extruders.now }
    requires short { All (λ bytes. length bytes ≤ MOST_BYTES) files }
    ensures gives { UnlessNoMemory (MakesPlate pairs.now extruders.now files) result }
{
    let settings = settle(alloc, pairs, extruders)?;
    let meshes = place_meshes(alloc, files, &settings)?;
    Ok(Plate { settings, meshes })
}

/// The plate of all that was gathered, or the first refusal.
pub(crate) fn finish(alloc: Global, gathered: Gathered) -> Result<Plate, PlateFault>
    requires few { length gathered.extruders ≤ 16 }
    requires some { 0 < length gathered.extruders }
    requires below_eight { All (λ e. e < 8) gathered.extruders }
    requires as_many { length gathered.meshes ≡ length gathered.extruders }
    requires short { All (λ bytes. length bytes ≤ MOST_BYTES) gathered.meshes }
    ensures gives { UnlessNoMemory (KeptGives gathered.pairs gathered.not_json gathered.extruders gathered.meshes)
        result }
{
    let Gathered {
        pairs,
        not_json,
        extruders,
        meshes,
    } = gathered;
    match not_json {
        Some(name) => Err(PlateFault::NotJson { name }),
        None => make_plate(alloc, pairs.items(), extruders.items(), meshes),
    }
}
