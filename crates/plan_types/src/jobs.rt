// A job: settings, and the areas of all layers.

use crate::orders::Order;
use settings_core::Settings;
use slice_base::{Items, Region};
use std::marker::Model;

/// The areas of one mesh on one layer. Loops are closed, the last point not repeated, with the inside at
/// their left. A region has at most 150,000 points, each within 1.6 m of the origin, and no loop without
/// points; there are at most 20 walls.
#[derive(Drop)]
pub struct MeshAreas {
    /// The lines of the walls, from the outermost inward.
    pub walls: Items<Region>,
    /// What is filled solid, as the top or the bottom of the print.
    pub skin: Region,
    /// What is filled by lines far apart.
    pub fill: Region,
}

impl Model for MeshAreas {
    ghost use Rattle.plan_types.specs.Areas.{MeshAreasValue, AreAreas};

    ghost Value = { MeshAreasValue };

    ghost view = { λ a. record { walls = a.walls; skin = a.skin; fill = a.fill } };

    ghost invariant = { λ a. AreAreas a.walls a.skin a.fill };
}

/// The areas of all meshes on one layer.
#[derive(Drop)]
pub struct LayerAreas {
    /// The layer's number, from 0.
    pub number: u32,
    /// The height of the layer's upper side over the bed, µm.
    pub z: i32,
    /// The layer's height, µm.
    pub thickness: i32,
    /// The extruders that print on the layer, each once.
    pub order: Order,
    /// The areas of each mesh of the settings, in order.
    pub meshes: Items<MeshAreas>,
}

/// All that is to be printed, and how. There are at most 40,000 layers, each at most 2 mm high, with areas of
/// each mesh of the settings; extruders that are named are there; each loop of the skirt has 1 to 150,000 points, within
/// 1.6 m of the origin.
#[derive(Drop)]
pub struct Job {
    pub settings: Settings,
    /// The areas of each layer, from the lowest up.
    pub layers: Items<LayerAreas>,
    /// The loops of the skirt.
    pub skirt: Region,
    /// The extruder with which the print starts.
    pub first: u8,
    /// Bit e is set where extruder e is wanted on some layer.
    pub used: u8,
    /// How many outlines stayed open and were left out.
    pub open_outlines: u64,
}

impl Model for Job {
    ghost use Rattle.plan_types.specs.Jobs.{JobValue, IsJob};

    ghost Value = { JobValue };

    ghost view = { λ a. record { settings = a.settings; layers = a.layers; skirt = a.skirt; first = a.first; used = a.used; open_outlines = a.open_outlines } };

    ghost invariant = { λ a. IsJob a.settings a.layers a.skirt a.first a.used };
}
