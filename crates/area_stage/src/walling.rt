// The walls of all meshes on a layer.

ghost use Rattle.std.specs.Prelude.{◌≡◌, ◌<◌, ◌^◌, ◌≤◌, ◌+◌, ◌*◌, ◌==◌, ℕ, List, [], ◌∷◌, cond, pos, take, length, IfOk, Ok, MatchResult, slice_index_or};
ghost use Rattle.std.specs.List.{All};
ghost use Rattle.slice_base.specs.declared.points.Tri.{Tri};
ghost use Rattle.slice_base.specs.Boxes.{TriIn, around};
ghost use Rattle.slice_base.specs.Regions.{RegionIn};
ghost use Rattle.slice_base.specs.Outcomes.{each_ok};
ghost use Rattle.settings_core.specs.Values.{SettingsValue};
ghost use Rattle.edge_cut.specs.Faults.{IsCutFault};
ghost use Rattle.cross_section.specs.Planes.{plane_of};
ghost use Rattle.wall_skin.specs.Sizes.{IsSmall};
ghost use Rattle.wall_skin.specs.Walls.{walls_of};
ghost use Rattle.area_stage.specs.Faults.{named};
ghost use Rattle.area_stage.specs.Inner.Faults.{IsAreaFault};
ghost use Rattle.area_stage.specs.Meshes.{mesh_settings_of};
ghost use Rattle.area_stage.specs.Outlines.{cleaned_of, open_at, open_on};
ghost use Rattle.area_stage.specs.Walls.{walls_at, layer_walls_of};
ghost use Rattle.area_stage.specs.Inner.Walls.{walls_with, walls_without_of, AreLayerWalls, AreJobWalls};

use crate::faults::{AreaFault, named_result};
use crate::held::{Inner, Outline, Walled, Walls};
use crate::outlines::{PlaneHeight, cleaned, height, without};
use cross_section::Mesh;
use edge_cut::CutFault;
use settings_core::{MeshSettings, Settings};
use slice_base::{Items, NoMemory, Region};
use std::alloc::Global;
use wall_skin::walls;

/// The walls of a mesh on a layer, its cleaned outline, and how many chains of its section stayed open.
#[derive(Drop)]
struct MeshWalls {
    set: Walled,
    outline: Outline,
    open_outlines: u32,
}

/// The walls of all meshes on a layer, with the cleaned outlines of the first layer, and how many chains of all
/// sections stayed open.
#[derive(Drop)]
pub(crate) struct LayerWalls {
    pub(crate) sets: Items<Walled>,
    pub(crate) outlines: Items<Outline>,
    pub(crate) open_outlines: u64,
}

/// The same of many layers.
#[derive(Drop)]
pub(crate) struct JobWalls {
    pub(crate) sets: Items<Items<Walled>>,
    pub(crate) outlines: Items<Outline>,
    pub(crate) open_outlines: u64,
}

/// The settings of mesh `i`. There are at most 16 meshes, and each has an extruder that is there.
pub(crate) fn mesh_settings(settings: &Settings, i: usize) -> MeshSettings
    requires { i < length settings.now.meshes }
    ensures is { result ≡ mesh_settings_of settings.now i }
    ensures known { result.extruder_nr < length settings.now.extruders }
    ensures few { length settings.now.meshes ≤ 16 }
{
    settings.meshes.items()[i]
}

// The walls of an outline.
fn walls_with(alloc: Global, m: MeshSettings, outline: &Region) -> Result<Walled, CutFault>
    requires small { IsSmall outline.now }
    requires inside { RegionIn (around 1000000) outline.now }
    ensures { MatchResult result (λ set. walls_with m outline.now ≡ Ok set) (IsCutFault (walls_with m outline.now)) }
{
    let set = walls(alloc, outline, m.wall_line_count, m.wall_line_width as i32)?;
    Ok(Walled {
        walls: Walls { loops: set.loops },
        inner: Inner { area: set.inner },
    })
}

// The walls of a cleaned outline without others.
fn walls_without(
    alloc: Global,
    m: MeshSettings,
    own: &Outline,
    others: &[Outline],
) -> Result<Walled, CutFault>
    ensures { MatchResult result (λ set. walls_without_of m own.now others.now ≡ Ok set)
        (IsCutFault (walls_without_of m own.now others.now)) }
{
    match others {
        [] => walls_with(alloc, m, &own.region),
        [first, rest @ ..] => {
            let outline = without(alloc, &own.region, &first.region, rest)?;
            walls_with(alloc, m, &outline)
        }
    }
}

// The walls of a mesh at a height, by the cleaned outlines of the meshes before it.
fn mesh_walls(
    alloc: Global,
    mesh: &Mesh,
    m: MeshSettings,
    others: &[Outline],
    at: PlaneHeight,
) -> Result<MeshWalls, CutFault>
    requires inside { All (TriIn (around 1000000)) mesh.now }
    ensures answer { (before : List (List Tri)) → each_ok (cleaned_of at.z) before ≡ Ok others.now
        → MatchResult result (λ w. walls_at at.z before mesh.now m ≡ Ok w.set)
        (IsCutFault (walls_at at.z before mesh.now m)) }
    ensures own { IfOk result (λ w. cleaned_of at.z mesh.now ≡ Ok w.outline) }
    ensures open_outlines { IfOk result (λ w. w.open_outlines ≡ open_at at.z mesh.now) }
{
    let own = cleaned(alloc, mesh, at)?;
    let set = walls_without(alloc, m, &own.outline, others)?;
    Ok(MeshWalls {
        set,
        outline: own.outline,
        open_outlines: own.open_outlines,
    })
}

// The same, the fault named.
fn named_walls(
    alloc: Global,
    mesh: &Mesh,
    m: MeshSettings,
    others: &[Outline],
    at: PlaneHeight,
    i: u8,
    layer: u32,
) -> Result<MeshWalls, AreaFault>
    requires inside { All (TriIn (around 1000000)) mesh.now }
    ensures answer { (before : List (List Tri)) → each_ok (cleaned_of at.z) before ≡ Ok others.now
        → MatchResult result (λ w. named i layer (walls_at at.z before mesh.now m) ≡ Ok w.set)
        (IsAreaFault (named i layer (walls_at at.z before mesh.now m))) }
    ensures own { IfOk result (λ w. cleaned_of at.z mesh.now ≡ Ok w.outline) }
    ensures open_outlines { IfOk result (λ w. w.open_outlines ≡ open_at at.z mesh.now) }
{
    named_result(mesh_walls(alloc, mesh, m, others, at), i, layer)
}

// The cleaned outlines, where the layer is the first.
fn first_outlines(alloc: Global, outlines: Items<Outline>, layer: u32) -> Items<Outline>
    ensures { result ≡ cond (layer == 0) outlines [] }
{
    if layer == 0 {
        outlines
    } else {
        Items::new(alloc)
    }
}

/// The walls of all meshes on a layer, or the first cut that fails, named.
pub(crate) fn layer_walls(
    alloc: Global,
    settings: &Settings,
    meshes: &[Mesh],
    layer: u32,
) -> Result<LayerWalls, AreaFault>
    requires as_many { length meshes.now ≡ length settings.now.meshes }
    requires low { plane_of settings.now layer < 2 ^ 31 }
    requires inside { All (All (TriIn (around 1000000))) meshes.now }
    ensures { MatchResult result (AreLayerWalls settings.now meshes.now layer)
        (IsAreaFault (layer_walls_of settings.now meshes.now layer)) }
{
    let at = height(settings, layer);
    let mut outlines = Items::new(alloc);
    let mut sets = Items::new(alloc);
    let mut open_outlines = 0u64;
    for i in 0..meshes.len() {
        let m = mesh_settings(settings, i);
        let next = named_walls(alloc, &meshes[i], m, outlines.items(), at, i as u8, layer)?;
        open_outlines += next.open_outlines as u64;
        outlines.push(next.outline)?;
        sets.push(next.set)?;
    }
    Ok(LayerWalls {
        sets,
        outlines: first_outlines(alloc, outlines, layer),
        open_outlines,
    })
}

/// No walls, of no layer.
pub(crate) fn no_walls(alloc: Global) -> JobWalls
    ensures { (s : SettingsValue) (meshes : List (List Tri)) → AreJobWalls s meshes 0 result }
{
    JobWalls {
        sets: Items::new(alloc),
        outlines: Items::new(alloc),
        open_outlines: 0,
    }
}

// The cleaned outlines of the first layer: the new ones, where there was no layer.
fn kept_outlines(count: usize, old: Items<Outline>, new: Items<Outline>) -> Items<Outline>
    ensures { result ≡ cond (count == 0) new old }
{
    if count == 0 { new } else { old }
}

/// The walls of one more layer behind the others.
pub(crate) fn with_layer(walls: JobWalls, layer: LayerWalls) -> Result<JobWalls, NoMemory>
    requires few { walls.open_outlines ≤ 40000 * (16 * 2 ^ 32) }
    requires layer_few { layer.open_outlines ≤ 16 * 2 ^ 32 }
    ensures { (s : SettingsValue) (meshes : List (List Tri)) (n : ℕ) → AreJobWalls s meshes n walls
        → AreLayerWalls s meshes n layer → IfOk result (λ more. AreJobWalls s meshes (n + 1) more) }
{
    let count = walls.sets.len();
    let mut sets = walls.sets;
    sets.push(layer.sets)?;
    Ok(JobWalls {
        sets,
        outlines: kept_outlines(count, walls.outlines, layer.outlines),
        open_outlines: walls.open_outlines + layer.open_outlines,
    })
}
