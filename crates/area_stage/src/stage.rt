// The areas of all layers.

ghost use Rattle.std.specs.Prelude.{◌≡◌, ◌<◌, ◌≤◌, ◌^◌, ◌⊎◌, ℕ, pos, List, Err, Ok, length, IfOk, IfErr, Result, MatchResult};
ghost use Rattle.std.specs.List.{All};
ghost use Rattle.slice_base.specs.declared.points.Tri.{Tri};
ghost use Rattle.slice_base.specs.Boxes.{TriIn, TriUnder, around};
ghost use Rattle.slice_base.specs.Limits.{max_layers};
ghost use Rattle.settings_core.specs.Values.{SettingsValue};
ghost use Rattle.mesh_placing.specs.Volume.{bed_of};
ghost use Rattle.cross_section.specs.Heights.{top_of_all};
ghost use Rattle.cross_section.specs.Planes.{plane_of, IsLayerCount};
ghost use Rattle.plan_types.specs.Jobs.{JobValue};
ghost use Rattle.area_stage.specs.declared.faults.AreaFault.{AreaFault};
ghost use Rattle.area_stage.specs.Faults.{named};
ghost use Rattle.area_stage.specs.Inner.Faults.{IsAreaFault};
ghost use Rattle.area_stage.specs.Skirt.{skirt_of};
ghost use Rattle.area_stage.specs.Jobs.{joined_job_of};
ghost use Rattle.area_stage.specs.Areas.{job_up_to, AreasGive};
ghost use Rattle.area_stage.specs.Inner.Held.{AreLines};
ghost use Rattle.area_stage.specs.Inner.Counts.{FitsCount, IsCountFault};

use crate::columns::all_parted;
use crate::faults::{AreaFault, named_result};
use crate::held::{Filled, Outline, Walls};
use crate::layers::{all_areas, job};
use crate::phases::{job_splits, job_splits_wide, job_walls, job_walls_wide};
use crate::skirts::skirt;
use cross_section::{Mesh, layer_count, one_layer_count, top_of_all};
use plan_types::Job;
use settings_core::Settings;
use slice_base::{Items, NoMemory, Region};
use std::alloc::Global;
use std::thread::Threads;

/// The most layers that a job may have.
pub const MAX_LAYERS: u32 = 40_000;

/// Settings and meshes give one answer at most: a job, or why there is none. The call does nothing.
pub fn one_areas()
    ensures { (s : SettingsValue) (meshes : List (List Tri)) (a b : Result JobValue AreaFault) → AreasGive s meshes a
        → AreasGive s meshes b → a ≡ b }
{
    one_layer_count();
}

// The skirt, its failing cut named.
fn job_skirt(
    alloc: Global,
    settings: &Settings,
    outlines: Items<Outline>,
) -> Result<Region, AreaFault>
    requires some { 0 < length settings.now.meshes }
    ensures answer { MatchResult result (λ loops. named 0 0 (skirt_of settings.now outlines) ≡ Ok loops)
        (IsAreaFault (named 0 0 (skirt_of settings.now outlines))) }
    ensures each { IfOk result (λ loops. AreLines loops) }
{
    named_result(skirt(alloc, settings, outlines.items()), 0, 0)
}

// The job of walls, skin and fill of all layers, and a skirt.
fn joined_job(
    alloc: Global,
    settings: Settings,
    walls: Items<Items<Walls>>,
    splits: Items<Items<Filled>>,
    skirt: Region,
    open_outlines: u64,
) -> Result<Job, NoMemory>
    requires some { 0 < length settings.meshes }
    requires few { length walls ≤ 40000 }
    requires walls_as_many { All (λ sets. length sets ≡ length settings.meshes) walls }
    requires splits_as_many { All (λ layer. length layer ≡ length settings.meshes) splits }
    requires lines { AreLines skirt }
    ensures { IfOk result (λ job. job ≡ joined_job_of settings walls splits skirt open_outlines) }
{
    let areas = all_areas(alloc, walls, splits)?;
    job(alloc, settings, areas, skirt, open_outlines)
}

// The job of so many layers, worked out one after another.
fn job_up_to(
    alloc: Global,
    settings: Settings,
    meshes: &[Mesh],
    count: u32,
) -> Result<Job, AreaFault>
    requires some { 0 < length meshes.now }
    requires as_many { length meshes.now ≡ length settings.meshes }
    requires few { count ≤ 40000 }
    requires layered { 0 < count }
    requires low { (k : ℕ) → k < count → plane_of settings k < 2 ^ 31 }
    requires inside { All (All (TriIn (around 1000000))) meshes.now }
    ensures { MatchResult result (λ job. job_up_to settings meshes.now count ≡ Ok job)
        (IsAreaFault (job_up_to settings meshes.now count)) }
{
    let walls = job_walls(alloc, &settings, meshes, count)?;
    let skirt = job_skirt(alloc, &settings, walls.outlines)?;
    let parted = all_parted(alloc, meshes.len(), walls.sets)?;
    let splits = job_splits(alloc, &settings, parted.columns.items(), count)?;
    Ok(joined_job(
        alloc,
        settings,
        parted.walls,
        splits,
        skirt,
        walls.open_outlines,
    )?)
}

// The same, worked out by many threads.
fn job_up_to_wide<R: Threads + Sync>(
    rt: &R,
    alloc: Global,
    threads: u32,
    settings: Settings,
    meshes: &[Mesh],
    count: u32,
) -> Result<Job, AreaFault>
    requires threads { 0 < threads }
    requires some { 0 < length meshes.now }
    requires as_many { length meshes.now ≡ length settings.meshes }
    requires few { count ≤ 40000 }
    requires layered { 0 < count }
    requires low { (k : ℕ) → k < count → plane_of settings k < 2 ^ 31 }
    requires inside { All (All (TriIn (around 1000000))) meshes.now }
    ensures { MatchResult result (λ job. job_up_to settings meshes.now count ≡ Ok job)
        (IsAreaFault (job_up_to settings meshes.now count)) }
{
    let walls = job_walls_wide(rt, alloc, threads, &settings, meshes, count)?;
    let skirt = job_skirt(alloc, &settings, walls.outlines)?;
    let parted = all_parted(alloc, meshes.len(), walls.sets)?;
    let splits = job_splits_wide(rt, alloc, threads, &settings, parted.columns.items(), count)?;
    Ok(joined_job(
        alloc,
        settings,
        parted.walls,
        splits,
        skirt,
        walls.open_outlines,
    )?)
}

// How many layers there are, where they are neither none nor too many.
fn fitting_count(settings: &Settings, meshes: &[Mesh]) -> Result<u32, AreaFault>
    requires some { 0 < length meshes.now }
    requires each { All (λ m. 0 < length m) meshes.now }
    requires on_bed { All (All (TriIn (bed_of settings.now))) meshes.now }
    requires under_top { All (All (TriUnder (pos settings.now.machine_height))) meshes.now }
    ensures fits { IfOk result (λ count. FitsCount settings.now meshes.now count) }
    ensures refused { IfErr result (λ fault. IsCountFault settings.now meshes.now fault) }
    ensures low { IfOk result (λ count. (k : ℕ) → k < count → plane_of settings.now k < 2 ^ 31) }
    ensures inside { All (All (TriIn (around 1000000))) meshes.now }
{
    // Read so that what holds of the settings is known here.
    let _height = settings.machine_height;
    let count = layer_count(settings, top_of_all(meshes));
    if count == 0 {
        return Err(AreaFault::NoLayers);
    }
    if count > MAX_LAYERS {
        return Err(AreaFault::TooManyLayers { count });
    }
    Ok(count)
}

/// The job of settings and meshes in place, one mesh for each of the settings' meshes. That there are no layers, or
/// over 40,000, is found before memory is wanted; of cuts with too many edges the first is named, in the order of
/// work: outlines and walls by layer, then mesh; the skirt; skin and fill by layer, then mesh. Layers are worked out
/// one after another.
pub fn areas(alloc: Global, settings: Settings, meshes: &[Mesh]) -> Result<Job, AreaFault>
    requires some { 0 < length meshes.now }
    requires as_many { length meshes.now ≡ length settings.meshes }
    requires each { All (λ m. 0 < length m) meshes.now }
    requires on_bed { All (All (TriIn (bed_of settings))) meshes.now }
    requires under_top { All (All (TriUnder (pos settings.machine_height))) meshes.now }
    ensures says { (result ≡ Err AreaFault.NoMemory) ⊎ AreasGive settings meshes.now result }

    // They give one answer at most, so it is the result unless memory ran out.
    ensures one { (a : Result JobValue AreaFault) → AreasGive settings meshes.now a → (result ≡ a)
        ⊎ (result ≡ Err AreaFault.NoMemory) }

    // Want of memory never stands where there are no layers, or too many.
    ensures none { IsLayerCount settings (top_of_all meshes.now) 0 → result ≡ Err AreaFault.NoLayers }
    ensures too_many { (n : ℕ) → IsLayerCount settings (top_of_all meshes.now) n → max_layers < n
        → result ≡ Err (AreaFault.TooManyLayers n) }
{
    one_areas();
    one_layer_count();
    let count = fitting_count(&settings, meshes)?;
    job_up_to(alloc, settings, meshes, count)
}

/// The same, layers worked out at once by so many threads, for which the call may wait.
pub fn areas_wide<R: Threads + Sync>(
    rt: &R,
    alloc: Global,
    threads: u32,
    settings: Settings,
    meshes: &[Mesh],
) -> Result<Job, AreaFault>
    requires threads { 0 < threads }
    requires some { 0 < length meshes.now }
    requires as_many { length meshes.now ≡ length settings.meshes }
    requires each { All (λ m. 0 < length m) meshes.now }
    requires on_bed { All (All (TriIn (bed_of settings))) meshes.now }
    requires under_top { All (All (TriUnder (pos settings.machine_height))) meshes.now }
    ensures says { (result ≡ Err AreaFault.NoMemory) ⊎ AreasGive settings meshes.now result }

    // They give one answer at most, so it is the result unless memory ran out.
    ensures one { (a : Result JobValue AreaFault) → AreasGive settings meshes.now a → (result ≡ a)
        ⊎ (result ≡ Err AreaFault.NoMemory) }

    // Want of memory never stands where there are no layers, or too many.
    ensures none { IsLayerCount settings (top_of_all meshes.now) 0 → result ≡ Err AreaFault.NoLayers }
    ensures too_many { (n : ℕ) → IsLayerCount settings (top_of_all meshes.now) n → max_layers < n
        → result ≡ Err (AreaFault.TooManyLayers n) }
{
    one_areas();
    one_layer_count();
    let count = fitting_count(&settings, meshes)?;
    job_up_to_wide(rt, alloc, threads, settings, meshes, count)
}
