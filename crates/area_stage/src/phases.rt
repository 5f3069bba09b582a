// Walls, and skin and fill, of all layers: one layer after another, or many at once.

ghost use Rattle.std.specs.Prelude.{◌≡◌, ◌+◌, ◌≤◌, ◌<◌, ◌^◌, ℕ, List, length, slice_index_or, Result, IfOk, IfErr, Ok, MatchResult};
ghost use Rattle.std.specs.List.{All};
ghost use Rattle.slice_base.specs.Boxes.{TriIn, around};
ghost use Rattle.slice_base.specs.Outcomes.{up_to};
ghost use Rattle.cross_section.specs.Planes.{plane_of};
ghost use Rattle.wall_skin.specs.declared.skins.Split.{Split};
ghost use Rattle.area_stage.specs.declared.faults.AreaFault.{AreaFault};
ghost use Rattle.area_stage.specs.declared.walling.LayerWalls.{LayerWalls};
ghost use Rattle.area_stage.specs.Inner.Faults.{IsAreaFault, GivesNumber};
ghost use Rattle.area_stage.specs.Walls.{layer_walls_of};
ghost use Rattle.area_stage.specs.Fills.{layer_splits_of};
ghost use Rattle.area_stage.specs.Inner.Walls.{AreJobWalls, GivesLayerWalls};

use crate::faults::AreaFault;
use crate::fills::layer_splits;
use crate::held::{Column, Filled};
use crate::taking::worked_out;
use crate::walling::{JobWalls, LayerWalls, layer_walls, no_walls, with_layer};
use cross_section::Mesh;
use settings_core::Settings;
use slice_base::{Items, NoMemory};
use std::alloc::Global;
use std::thread::Threads;

/// The walls of so many layers, one layer after another.
pub(crate) fn job_walls(
    alloc: Global,
    settings: &Settings,
    meshes: &[Mesh],
    count: u32,
) -> Result<JobWalls, AreaFault>
    requires as_many { length meshes.now ≡ length settings.now.meshes }
    requires few { count ≤ 40000 }
    requires low { (k : ℕ) → k < count → plane_of settings.now k < 2 ^ 31 }
    requires inside { All (All (TriIn (around 1000000))) meshes.now }
    ensures { MatchResult result (AreJobWalls settings.now meshes.now count)
        (IsAreaFault (up_to (layer_walls_of settings.now meshes.now) count)) }
{
    let mut walls = no_walls(alloc);
    for k in 0..count {
        walls = with_layer(walls, layer_walls(alloc, settings, meshes, k)?)?;
    }
    Ok(walls)
}

// How many layers a thread has in its share of a run, after which all threads go on together: so many that waiting for
// the last layer of a run costs little, and few enough that a cut that fails ends the work soon.
const RUN: u32 = 64;

// How many of the layers that are left are worked out next.
fn next_few(left: u32, threads: u32) -> u32
    requires left { 0 < left }
    requires threads { 0 < threads }
    ensures some { 0 < result }
    ensures most { result ≤ left }
{
    threads.saturating_mul(RUN).min(left)
}

fn walls_at_once<R: Threads + Sync>(
    rt: &R,
    alloc: Global,
    threads: u32,
    settings: &Settings,
    meshes: &[Mesh],
    from: u32,
    count: u32,
) -> Result<Vec<Result<LayerWalls, AreaFault>>, NoMemory>
    requires threads { 0 < threads }
    requires as_many { length meshes.now ≡ length settings.now.meshes }
    requires few { from + count ≤ 40000 }
    requires low { (k : ℕ) → k < from + count → plane_of settings.now k < 2 ^ 31 }
    requires inside { All (All (TriIn (around 1000000))) meshes.now }
    ensures each { IfOk result (λ v. (i : ℕ) (d : Result LayerWalls AreaFault) → i < length v.items
        → GivesLayerWalls settings.now meshes.now (from + i) (slice_index_or v.items i d)) }
    ensures len { IfOk result (λ v. length v.items ≡ count) }
{
    worked_out(
        rt,
        alloc,
        threads,
        from,
        count,
        &|layer| layer_walls(alloc, settings, meshes, layer),
    )
}

// The walls of the layers below `from`, and behind them those of so many more layers, worked out at once.
fn with_layers<R: Threads + Sync>(
    rt: &R,
    alloc: Global,
    threads: u32,
    settings: &Settings,
    meshes: &[Mesh],
    below: JobWalls,
    from: u32,
    count: u32,
) -> Result<JobWalls, AreaFault>
    requires threads { 0 < threads }
    requires as_many { length meshes.now ≡ length settings.now.meshes }
    requires few { from + count ≤ 40000 }
    requires low { (k : ℕ) → k < from + count → plane_of settings.now k < 2 ^ 31 }
    requires inside { All (All (TriIn (around 1000000))) meshes.now }
    requires below { AreJobWalls settings.now meshes.now from below }
    ensures walls { IfOk result (AreJobWalls settings.now meshes.now (from + count)) }
    ensures fault { IfErr result (λ fault. (n : ℕ) → from + count ≤ n
        → IsAreaFault (up_to (layer_walls_of settings.now meshes.now) n) fault) }
{
    let results = walls_at_once(rt, alloc, threads, settings, meshes, from, count)?;
    let mut walls = below;
    for item in results {
        walls = with_layer(walls, item?)?;
    }
    Ok(walls)
}

/// The same, by so many threads.
pub(crate) fn job_walls_wide<R: Threads + Sync>(
    rt: &R,
    alloc: Global,
    threads: u32,
    settings: &Settings,
    meshes: &[Mesh],
    count: u32,
) -> Result<JobWalls, AreaFault>
    requires threads { 0 < threads }
    requires as_many { length meshes.now ≡ length settings.now.meshes }
    requires few { count ≤ 40000 }
    requires low { (k : ℕ) → k < count → plane_of settings.now k < 2 ^ 31 }
    requires inside { All (All (TriIn (around 1000000))) meshes.now }
    ensures { MatchResult result (AreJobWalls settings.now meshes.now count)
        (IsAreaFault (up_to (layer_walls_of settings.now meshes.now) count)) }
{
    let mut walls = no_walls(alloc);
    let mut from = 0;
    'runs: while from < count {
        let few = next_few(count - from, threads);
        walls = with_layers(rt, alloc, threads, settings, meshes, walls, from, few)?;
        from += few;
    }
    Ok(walls)
}

/// Skin and fill of so many layers, one layer after another.
pub(crate) fn job_splits(
    alloc: Global,
    settings: &Settings,
    columns: &[Column],
    count: u32,
) -> Result<Items<Items<Filled>>, AreaFault>
    requires as_many { length columns.now ≡ length settings.now.meshes }
    requires long { All (λ column. length column ≡ count) columns.now }
    ensures { MatchResult result (λ splits. up_to (layer_splits_of settings.now columns.now) count ≡ Ok splits)
        (IsAreaFault (up_to (layer_splits_of settings.now columns.now) count)) }
{
    let mut splits = Items::new(alloc);
    for k in 0..count {
        splits.push(layer_splits(alloc, settings, columns, k)?)?;
    }
    Ok(splits)
}

fn splits_at_once<R: Threads + Sync>(
    rt: &R,
    alloc: Global,
    threads: u32,
    settings: &Settings,
    columns: &[Column],
    from: u32,
    count: u32,
) -> Result<Vec<Result<Items<Filled>, AreaFault>>, NoMemory>
    requires threads { 0 < threads }
    requires as_many { length columns.now ≡ length settings.now.meshes }
    requires few { from + count ≤ 40000 }
    requires long { All (λ column. from + count ≤ length column) columns.now }
    ensures each { IfOk result (λ v. (i : ℕ) (d : Result (List Split) AreaFault) → i < length v.items
        → GivesNumber (layer_splits_of settings.now columns.now) (from + i) (slice_index_or v.items i d)) }
    ensures len { IfOk result (λ v. length v.items ≡ count) }
{
    worked_out(
        rt,
        alloc,
        threads,
        from,
        count,
        &|layer| layer_splits(alloc, settings, columns, layer),
    )
}

// Skin and fill of the layers below `from`, and behind them those of so many more layers, worked out at once.
fn with_splits<R: Threads + Sync>(
    rt: &R,
    alloc: Global,
    threads: u32,
    settings: &Settings,
    columns: &[Column],
    below: Items<Items<Filled>>,
    from: u32,
    count: u32,
) -> Result<Items<Items<Filled>>, AreaFault>
    requires threads { 0 < threads }
    requires as_many { length columns.now ≡ length settings.now.meshes }
    requires few { from + count ≤ 40000 }
    requires long { All (λ column. from + count ≤ length column) columns.now }
    requires below { up_to (layer_splits_of settings.now columns.now) from ≡ Ok below }
    ensures splits { IfOk result (λ all. up_to (layer_splits_of settings.now columns.now) (from + count) ≡ Ok all) }
    ensures fault { IfErr result (λ fault. (n : ℕ) → from + count ≤ n
        → IsAreaFault (up_to (layer_splits_of settings.now columns.now) n) fault) }
{
    let results = splits_at_once(rt, alloc, threads, settings, columns, from, count)?;
    let mut splits = below;
    for item in results {
        splits.push(item?)?;
    }
    Ok(splits)
}

/// The same, by so many threads.
pub(crate) fn job_splits_wide<R: Threads + Sync>(
    rt: &R,
    alloc: Global,
    threads: u32,
    settings: &Settings,
    columns: &[Column],
    count: u32,
) -> Result<Items<Items<Filled>>, AreaFault>
    requires threads { 0 < threads }
    requires as_many { length columns.now ≡ length settings.now.meshes }
    requires few { count ≤ 40000 }
    requires long { All (λ column. length column ≡ count) columns.now }
    ensures { MatchResult result (λ splits. up_to (layer_splits_of settings.now columns.now) count ≡ Ok splits)
        (IsAreaFault (up_to (layer_splits_of settings.now columns.now) count)) }
{
    let mut splits = Items::new(alloc);
    let mut from = 0;
    'runs: while from < count {
        let few = next_few(count - from, threads);
        splits = with_splits(rt, alloc, threads, settings, columns, splits, from, few)?;
        from += few;
    }
    Ok(splits)
}
