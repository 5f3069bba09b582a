// Plates.

use cross_section::Mesh;
use settings_core::Settings;
use slice_base::Items;
use std::marker::Model;

/// What a task asks to slice: its settings, and its meshes in place, in the order of the words. There are
/// 1 to 16 meshes, as many as the settings have. Each has 1 to 1,000,000 triangles, and all its corners lie
/// in the volume of the machine: over the bed, and from there up to its height.
#[derive(Drop)]
pub struct Plate {
    pub settings: Settings,
    pub meshes: Items<Mesh>,
}

impl Model for Plate {
    ghost use Rattle.plate_input.specs.Values.{PlateValue, AreInPlace};

    ghost Value = { PlateValue };

    ghost view = { λ a. record { settings = a.settings; meshes = a.meshes } };

    ghost invariant = { λ a. AreInPlace a.settings a.meshes };
}
