// Skin and fill of all meshes on a layer.

ghost use Rattle.std.specs.Prelude.{◌≡◌, ◌<◌, ℕ, length, Ok, MatchResult};
ghost use Rattle.std.specs.List.{All};
ghost use Rattle.edge_cut.specs.Faults.{IsCutFault};
ghost use Rattle.wall_skin.specs.Skin.{skin_of};
ghost use Rattle.area_stage.specs.Faults.{named};
ghost use Rattle.area_stage.specs.Inner.Faults.{IsAreaFault};
ghost use Rattle.area_stage.specs.Fills.{layer_splits_of};

use crate::faults::{AreaFault, named_result};
use crate::held::{Column, Filled};
use crate::walling::mesh_settings;
use edge_cut::CutFault;
use settings_core::{MeshSettings, Settings};
use slice_base::Items;
use std::alloc::Global;
use wall_skin::skin;

// Skin and fill of a mesh on a layer.
fn split(alloc: Global, m: MeshSettings, column: &Column, layer: u32) -> Result<Filled, CutFault>
    requires { layer < length column.now }
    ensures { MatchResult result (λ p. skin_of column.now layer m.bottom_layers m.top_layers ≡ Ok p)
        (IsCutFault (skin_of column.now layer m.bottom_layers m.top_layers)) }
{
    let parts = skin(
        alloc,
        column.inners.items(),
        layer,
        m.bottom_layers,
        m.top_layers,
    )?;
    Ok(Filled {
        skin: parts.skin,
        fill: parts.fill,
    })
}

// The same, the fault named.
fn named_split(
    alloc: Global,
    m: MeshSettings,
    column: &Column,
    layer: u32,
    i: u8,
) -> Result<Filled, AreaFault>
    requires { layer < length column.now }
    ensures { MatchResult result (λ p. named i layer (skin_of column.now layer m.bottom_layers m.top_layers) ≡ Ok p)
        (IsAreaFault (named i layer (skin_of column.now layer m.bottom_layers m.top_layers))) }
{
    named_result(split(alloc, m, column, layer), i, layer)
}

/// Skin and fill of all meshes on a layer, or the first cut that fails, named.
pub(crate) fn layer_splits(
    alloc: Global,
    settings: &Settings,
    columns: &[Column],
    layer: u32,
) -> Result<Items<Filled>, AreaFault>
    requires as_many { length columns.now ≡ length settings.now.meshes }
    requires below { All (λ column. layer < length column) columns.now }
    ensures { MatchResult result (λ splits. layer_splits_of settings.now columns.now layer ≡ Ok splits)
        (IsAreaFault (layer_splits_of settings.now columns.now layer)) }
{
    let mut splits = Items::new(alloc);
    for i in 0..columns.len() {
        let m = mesh_settings(settings, i);
        splits.push(named_split(alloc, m, &columns[i], layer, i as u8)?)?;
    }
    Ok(splits)
}
