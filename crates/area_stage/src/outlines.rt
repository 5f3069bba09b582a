// The outlines of meshes at the height of a layer.

ghost use Rattle.std.specs.Prelude.{◌≡◌, ◌+◌, ◌<◌, ◌^◌, ◌∷◌, [], List, pos, length, IfOk, Ok, MatchResult};
ghost use Rattle.std.specs.List.{All};
ghost use Rattle.slice_base.specs.declared.points.Tri.{Tri};
ghost use Rattle.slice_base.specs.Boxes.{Box, TriIn, around};
ghost use Rattle.slice_base.specs.Regions.{RegionIn};
ghost use Rattle.slice_base.specs.Outcomes.{fold_ok};
ghost use Rattle.edge_cut.specs.Faults.{IsCutFault};
ghost use Rattle.cross_section.specs.Planes.{plane_of};
ghost use Rattle.clip_core.specs.declared.keeping.Operation.TheVariants.{Subtract};
ghost use Rattle.clip_core.specs.Clip.{clipped_of};
ghost use Rattle.wall_skin.specs.Sizes.{IsSmall};
ghost use Rattle.area_stage.specs.Outlines.{stitched_of, cleaned_of, without_of, open_at};

use crate::held::Outline;
use clip_core::{Rule, clean, subtract};
use cross_section::{Mesh, plane, section};
use edge_cut::CutFault;
use settings_core::Settings;
use slice_base::{NoMemory, Region};
use std::alloc::Global;
use stitch_core::{Stitched, stitch};

/// The height of a plane over the bed, in µm.
#[derive(Clone, Copy)]
pub(crate) struct PlaneHeight {
    pub(crate) z: i32,
}

/// The cleaned outline of a mesh at a height, and how many chains of its section stayed open.
#[derive(Drop)]
pub(crate) struct CleanedOutline {
    pub(crate) outline: Outline,
    pub(crate) open_outlines: u32,
}

/// The height of a layer's plane.
pub(crate) fn height(settings: &Settings, layer: u32) -> PlaneHeight
    requires { plane_of settings.now layer < 2 ^ 31 }
    ensures { result.z ≡ pos (plane_of settings.now layer) }
{
    PlaneHeight {
        z: plane(settings, layer) as i32,
    }
}

// The section of a mesh at a height, stitched.
fn stitched(alloc: Global, mesh: &Mesh, at: PlaneHeight) -> Result<Stitched, NoMemory>
    ensures is { IfOk result (λ s. s ≡ stitched_of at.z mesh.now) }
    ensures within { IfOk result (λ s. (box : Box) → All (TriIn box) mesh.now → RegionIn box s.loops) }
{
    // A mesh has no more triangles than `stitch` takes edges.
    mesh.count();
    let edges = section(alloc, mesh, at.z)?;
    stitch(alloc, edges.as_slice())
}

/// The cleaned outline of a mesh at a height.
pub(crate) fn cleaned(
    alloc: Global,
    mesh: &Mesh,
    at: PlaneHeight,
) -> Result<CleanedOutline, CutFault>
    requires inside { All (TriIn (around 1000000)) mesh.now }
    ensures answer { MatchResult result (λ c. cleaned_of at.z mesh.now ≡ Ok c.outline)
        (IsCutFault (cleaned_of at.z mesh.now)) }
    ensures open_outlines { IfOk result (λ c. c.open_outlines ≡ open_at at.z mesh.now) }
{
    let stitched = stitched(alloc, mesh, at)?;
    let region = clean(alloc, &stitched.loops, Rule::NonZero)?;
    Ok(CleanedOutline {
        outline: Outline { region },
        open_outlines: stitched.open_outlines,
    })
}

/// A region without a first other one, and then without more.
pub(crate) fn without(
    alloc: Global,
    region: &Region,
    first: &Region,
    others: &[Outline],
) -> Result<Region, CutFault>
    requires inside { RegionIn (around 1000000) region.now }
    requires first_inside { RegionIn (around 1000000) first.now }
    ensures answer { MatchResult result (λ rest. without_of region.now (first.now ∷ others.now) ≡ Ok rest)
        (IsCutFault (without_of region.now (first.now ∷ others.now))) }
    ensures small { IfOk result (λ rest. IsSmall rest) }
    ensures within { IfOk result (λ rest. RegionIn (around 1000000) rest) }
{
    let mut rest = subtract(alloc, region, first)?;
    for other in others {
        rest = subtract(alloc, &rest, &other.region)?;
    }
    Ok(rest)
}
