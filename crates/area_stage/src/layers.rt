// The layers of a job, and the job.

ghost use Rattle.std.specs.Prelude.{◌≡◌, ◌≤◌, ◌<◌, map, length, IfOk};
ghost use Rattle.std.specs.List.{All};
ghost use Rattle.cross_section.specs.Planes.{z_of};
ghost use Rattle.plan_types.specs.Jobs.{IsLayer};
ghost use Rattle.area_stage.specs.Jobs.{areas_on, all_areas_of, layer_of, layers_from, job_of};
ghost use Rattle.area_stage.specs.Inner.Held.{AreLines};

use crate::held::{Filled, Walls};
use crate::wanting::{each_wanted, first, last, used, wanted};
use cross_section::{thickness, z};
use plan_types::{Job, LayerAreas, MeshAreas, extruder_order, orders_have_each_once};
use settings_core::Settings;
use slice_base::{Items, NoMemory, Region};
use std::alloc::Global;

// The areas of all meshes on a layer.
fn areas_on(
    alloc: Global,
    walls: Items<Walls>,
    splits: Items<Filled>,
) -> Result<Items<MeshAreas>, NoMemory>
    ensures { IfOk result (λ areas. areas ≡ areas_on walls splits) }
{
    let mut splits = splits.into_vec().into_iter();
    let mut areas = Items::new(alloc);
    for set in walls.into_vec() {
        let Some(split) = splits.next() else {
            return Ok(areas);
        };
        areas.push(MeshAreas {
            walls: set.loops,
            skin: split.skin,
            fill: split.fill,
        })?;
    }
    Ok(areas)
}

/// The areas of all meshes on all layers.
pub(crate) fn all_areas(
    alloc: Global,
    walls: Items<Items<Walls>>,
    splits: Items<Items<Filled>>,
) -> Result<Items<Items<MeshAreas>>, NoMemory>
    ensures { IfOk result (λ areas. areas ≡ all_areas_of walls splits) }
{
    let mut splits = splits.into_vec().into_iter();
    let mut areas = Items::new(alloc);
    for sets in walls.into_vec() {
        let Some(layer) = splits.next() else {
            return Ok(areas);
        };
        areas.push(areas_on(alloc, sets, layer)?)?;
    }
    Ok(areas)
}

// Layer `k` with its areas, where this extruder printed last.
fn layer(settings: &Settings, k: u32, last: u8, areas: Items<MeshAreas>) -> LayerAreas
    requires few { k < 40000 }
    requires as_many { length areas ≡ length settings.now.meshes }
    ensures is { result ≡ layer_of settings.now k last areas }
    ensures sound { IsLayer settings.now result }
{
    orders_have_each_once();
    let wanted = wanted(settings, areas.items());
    LayerAreas {
        number: k,
        z: z(settings, k) as i32,
        thickness: thickness(settings, k) as i32,
        order: extruder_order(last, wanted),
        meshes: areas,
    }
}

// The layers with these areas, where this extruder prints first.
fn layers(
    alloc: Global,
    settings: &Settings,
    first: u8,
    areas: Items<Items<MeshAreas>>,
) -> Result<Items<LayerAreas>, NoMemory>
    requires few { length areas ≤ 40000 }
    requires as_many { All (λ a. length a ≡ length settings.now.meshes) areas }
    ensures is { IfOk result (λ layers. layers ≡ layers_from settings.now 0 first areas) }
    ensures count { IfOk result (λ layers. length layers ≡ length areas) }
    ensures sound { IfOk result (λ layers. All (IsLayer settings.now) layers) }
{
    let mut layers = Items::new(alloc);
    let mut before = first;
    let mut k = 0u32;
    for a in areas.into_vec() {
        let next = layer(settings, k, before, a);
        before = last(before, next.order.extruders());
        layers.push(next)?;
        k += 1;
    }
    Ok(layers)
}

/// The job of these areas.
pub(crate) fn job(
    alloc: Global,
    settings: Settings,
    areas: Items<Items<MeshAreas>>,
    skirt: Region,
    open_outlines: u64,
) -> Result<Job, NoMemory>
    requires some { 0 < length settings.meshes }
    requires few { length areas ≤ 40000 }
    requires as_many { All (λ a. length a ≡ length settings.meshes) areas }
    requires lines { AreLines skirt }
    ensures { IfOk result (λ job. job ≡ job_of settings areas skirt open_outlines) }
{
    // Read so that what holds of the settings is known here.
    let _count = settings.machine_extruder_count;
    let wanted = each_wanted(alloc, &settings, areas.items())?;
    let first = first(wanted.items());
    let used = used(wanted.items());
    let layers = layers(alloc, &settings, first, areas)?;
    Ok(Job {
        settings,
        layers,
        skirt,
        first,
        used,
        open_outlines,
    })
}
