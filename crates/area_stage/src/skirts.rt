// The skirt.

ghost use Rattle.std.specs.Prelude.{◌≡◌, ◌≤◌, ◌<◌, ◌+◌, ◌==◌, ◌++◌, ◌∷◌, [], ℕ, cond, pos, int_lt, length, IfOk, OnOk, Ok, MatchResult};
ghost use Rattle.slice_base.specs.Boxes.{around};
ghost use Rattle.slice_base.specs.Regions.{RegionIn};
ghost use Rattle.slice_base.specs.Outcomes.{up_to};
ghost use Rattle.edge_cut.specs.Faults.{IsCutFault};
ghost use Rattle.clip_core.specs.Areas.{area_of};
ghost use Rattle.area_stage.specs.Skirt.{united_of, line_distance_of, without_holes, line_of, joined, lines_of, lines_round_of, skirt_of};
ghost use Rattle.area_stage.specs.Inner.Held.{AreLines};

use crate::held::{Line, Outline};
use crate::walling::mesh_settings;
use clip_core::{area, unite};
use edge_cut::CutFault;
use offset_core::offset;
use settings_core::Settings;
use slice_base::{Items, Loop, NoMemory, Region};
use std::alloc::Global;

// A distance outward, in µm.
#[derive(Clone, Copy)]
struct Outward {
    by: i32,
}

// What lies in one of two regions, or in one of more.
fn united(
    alloc: Global,
    first: &Region,
    second: &Region,
    others: &[Outline],
) -> Result<Region, CutFault>
    requires first_inside { RegionIn (around 1000000) first.now }
    requires second_inside { RegionIn (around 1000000) second.now }
    ensures answer { MatchResult result (λ all. united_of (first.now ∷ second.now ∷ others.now) ≡ Ok all)
        (IsCutFault (united_of (first.now ∷ second.now ∷ others.now))) }
    ensures within { IfOk result (λ all. RegionIn (around 1000000) all) }
{
    let mut all = unite(alloc, first, second)?;
    for other in others {
        all = unite(alloc, &all, &other.region)?;
    }
    Ok(all)
}

// How far line `k` lies outside.
fn line_distance(settings: &Settings, k: u32) -> Outward
    requires some { 0 < length settings.now.meshes }
    requires few { k ≤ 9 }
    ensures exact { result.by ≡ pos (line_distance_of settings.now k) }
    ensures small { line_distance_of settings.now k ≤ 40000 }
{
    let width = mesh_settings(settings, 0).wall_line_width;
    Outward {
        by: (settings.skirt_gap + (width + 1) / 2 + k * width) as i32,
    }
}

// Whether the loop isn't a hole.
fn is_outer(l: &Loop) -> bool
    ensures { result ≡ int_lt (pos 0) (area_of l.now) }
{
    area(l) > 0
}

// Puts the loop behind the others, unless it is a hole.
fn push_outer(loops: &mut Region, l: Loop) -> Result<(), NoMemory>
    ensures { OnOk result (loops.new ≡ loops.old ++ without_holes (l ∷ [])) }
{
    if is_outer(&l) {
        return loops.push(l);
    }
    Ok(())
}

// The loops that aren't holes.
fn without_holes(alloc: Global, loops: Region) -> Result<Region, NoMemory>
    ensures { IfOk result (λ r. r ≡ without_holes loops) }
{
    let mut outer = Region::new(alloc);
    for l in loops.into_vec() {
        push_outer(&mut outer, l)?;
    }
    Ok(outer)
}

// Line `k` round a region.
fn line(alloc: Global, settings: &Settings, region: &Region, k: u32) -> Result<Line, CutFault>
    requires some { 0 < length settings.now.meshes }
    requires few { k ≤ 9 }
    requires inside { RegionIn (around 1000000) region.now }
    ensures { MatchResult result (λ r. line_of settings.now region.now k ≡ Ok r)
        (IsCutFault (line_of settings.now region.now k)) }
{
    let by = line_distance(settings, k).by;
    let loops = offset(alloc, region, by)?;
    Ok(Line {
        loops: without_holes(alloc, loops)?,
    })
}

// Puts the loops of a line behind the others.
fn push_line(loops: &mut Region, line: Line) -> Result<(), NoMemory>
    requires { AreLines loops.old }
    ensures ok { OnOk result (loops.new ≡ loops.old ++ line) }
    ensures each { OnOk result (AreLines loops.new) }
{
    for l in line.loops.into_vec() {
        loops.push(l)?;
    }
    Ok(())
}

// The loops of all lines, line by line.
fn joined(alloc: Global, lines: Items<Line>) -> Result<Region, NoMemory>
    ensures is { IfOk result (λ loops. loops ≡ joined lines) }
    ensures each { IfOk result (λ loops. AreLines loops) }
{
    let mut loops = Region::new(alloc);
    for line in lines.into_vec() {
        push_line(&mut loops, line)?;
    }
    Ok(loops)
}

// All lines round a region, each by itself.
fn each_line(alloc: Global, settings: &Settings, region: &Region) -> Result<Items<Line>, CutFault>
    requires some { 0 < length settings.now.meshes }
    requires inside { RegionIn (around 1000000) region.now }
    ensures { MatchResult result (λ lines. up_to (line_of settings.now region.now) settings.now.skirt_line_count
        ≡ Ok lines) (IsCutFault (up_to (line_of settings.now region.now) settings.now.skirt_line_count)) }
{
    let mut lines = Items::new(alloc);
    for k in 0..settings.skirt_line_count {
        lines.push(line(alloc, settings, region, k)?)?;
    }
    Ok(lines)
}

// All lines round a region.
fn lines(alloc: Global, settings: &Settings, region: &Region) -> Result<Region, CutFault>
    requires some { 0 < length settings.now.meshes }
    requires inside { RegionIn (around 1000000) region.now }
    ensures answer { MatchResult result (λ loops. lines_of settings.now region.now ≡ Ok loops)
        (IsCutFault (lines_of settings.now region.now)) }
    ensures each { IfOk result (λ loops. AreLines loops) }
{
    let lines = each_line(alloc, settings, region)?;
    Ok(joined(alloc, lines)?)
}

// The lines round outlines, united.
fn lines_round(alloc: Global, settings: &Settings, outlines: &[Outline]) -> Result<Region, CutFault>
    requires some { 0 < length settings.now.meshes }
    ensures answer { MatchResult result (λ loops. lines_round_of settings.now outlines.now ≡ Ok loops)
        (IsCutFault (lines_round_of settings.now outlines.now)) }
    ensures each { IfOk result (λ loops. AreLines loops) }
{
    match outlines {
        [] => lines(alloc, settings, &Region::new(alloc)),
        [only] => lines(alloc, settings, &only.region),
        [first, second, others @ ..] => {
            let all = united(alloc, &first.region, &second.region, others)?;
            lines(alloc, settings, &all)
        }
    }
}

/// The skirt round the cleaned outlines of the first layer: its lines, in µm, from the innermost outward; none where
/// no lines are wanted.
#[tactic(auto, unfolding(crate::specs::Skirt::skirt_of))]
pub(crate) fn skirt(
    alloc: Global,
    settings: &Settings,
    outlines: &[Outline],
) -> Result<Region, CutFault>
    requires some { 0 < length settings.now.meshes }
    ensures answer { MatchResult result (λ loops. skirt_of settings.now outlines.now ≡ Ok loops)
        (IsCutFault (skirt_of settings.now outlines.now)) }
    ensures each { IfOk result (λ loops. AreLines loops) }
{
    if settings.skirt_line_count == 0 {
        return Ok(Region::new(alloc));
    }
    lines_round(alloc, settings, outlines)
}
