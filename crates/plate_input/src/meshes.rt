// The meshes of a task, read and put in place.

ghost use Rattle.std.specs.Prelude.{◌≡◌, ◌≤◌, ◌<◌, length, IfOk};
ghost use Rattle.std.specs.List.{All};
ghost use Rattle.slice_base.specs.Limits.{max_facets};
ghost use Rattle.plate_input.specs.Inner.Stages.{TrianglesGive, MeshGives, LiesInside};
ghost use Rattle.plate_input.specs.Meshes.{MeshesGive};
ghost use Rattle.plate_input.specs.Plate.{UnlessNoMemory};

use crate::faults::PlateFault;
use crate::files::MOST_BYTES;
use cross_section::{Mesh, mesh_of};
use mesh_placing::put_in_place;
use settings_core::Settings;
use slice_base::{Items, Text, Tri};
use std::alloc::Global;
use stl_text::{MOST_TRIANGLES, StlFault, read_stl};

// The triangles of a mesh's file, one at least.
fn read_triangles(alloc: Global, bytes: &[u8], mesh: u8) -> Result<Items<Tri>, PlateFault>
    requires { length bytes.now ≤ MOST_BYTES }
    ensures gives { UnlessNoMemory (TrianglesGive mesh bytes.now) result }
    ensures some { IfOk result (λ tris. 0 < length tris) }
    ensures few { IfOk result (λ tris. length tris ≤ max_facets) }
{
    match read_stl(alloc, bytes) {
        Ok(read) => {
            let tris = Items::of(read);
            if tris.is_empty() {
                Err(PlateFault::NoTriangles { mesh })
            } else {
                Ok(tris)
            }
        }
        Err(StlFault::BadLine { line }) => Err(PlateFault::BadStl { mesh, line }),
        Err(StlFault::TooManyTriangles { count }) => Err(PlateFault::TooManyTriangles {
            mesh,
            count,
        }),
        Err(StlFault::NoMemory) => Err(PlateFault::NoMemory),
    }
}

// A mesh, moved to its place.
fn place_mesh(
    alloc: Global,
    bytes: &[u8],
    settings: &Settings,
    mesh: u8,
) -> Result<Mesh, PlateFault>
    requires short { length bytes.now ≤ MOST_BYTES }
    requires known { mesh < length settings.now.meshes }
    ensures gives { UnlessNoMemory (MeshGives settings.now mesh bytes.now) result }
    ensures inside { IfOk result (LiesInside settings.now) }
{
    let mut tris = read_triangles(alloc, bytes, mesh)?.into_vec();
    match put_in_place(tris.as_mut_slice(), settings, mesh) {
        Err(outside) => Err(PlateFault::OutsideVolume {
            mesh,
            triangle: outside.triangle,
            excess: outside.excess,
        }),
        Ok(()) => Ok(mesh_of(alloc, tris.as_slice())?),
    }
}

/// All meshes in place, or the first refusal. The bytes of each file are let go once its mesh is read.
pub(crate) fn place_meshes(
    alloc: Global,
    files: Items<Text>,
    settings: &Settings,
) -> Result<Items<Mesh>, PlateFault>
    requires short { All (λ bytes. length bytes ≤ MOST_BYTES) files }
    requires known { length files ≡ length settings.now.meshes }
    ensures gives { UnlessNoMemory (MeshesGive settings.now 0 files) result }
    ensures as_many { IfOk result (λ meshes. length meshes ≡ length settings.now.meshes) }
    ensures inside { IfOk result (All (LiesInside settings.now)) }
{
    // Read so that the bounds of the settings are known here.
    let _bounded = settings.machine_width;
    let mut meshes = Items::new(alloc);
    let mut number: u8 = 0;
    for bytes in files.into_vec() {
        let mesh = place_mesh(alloc, bytes.bytes(), settings, number)?;
        meshes.push(mesh)?;
        number += 1;
    }
    Ok(meshes)
}
