// The outline of a column, and its mesh.

ghost use Rattle.std.specs.Prelude.{◌≡◌, ◌≤◌, ◌<◌, ◌+◌, length, unsigned_abs, IfOk};
ghost use Rattle.slice_base.specs.Plane.{InSquare};
ghost use Rattle.sample_meshes.specs.Draws.{after_draws};
ghost use Rattle.sample_meshes.specs.Columns.{axis_of, drawn_before, direction_of, share_of, way_of, moved_by, point_at, outline_of};
ghost use Rattle.sample_meshes.specs.Meshes.{mesh_text};

use crate::draws::{radius, skip_draws};
use crate::facets::column;
use slice_base::{NoMemory, Pt, Text};
use std::alloc::Global;

/// One of the two meshes that a number draws.
#[derive(Clone, Copy, PartialEq, Eq, Debug)]
pub enum SampleMesh {
    /// The column round (60, 100) mm.
    First,
    /// The column round (90, 100) mm, whose radii are drawn after those of the first.
    Second,
}

fn axis(mesh: SampleMesh) -> Pt
    ensures value { result ≡ axis_of mesh }
    ensures place { InSquare 100000 result }
{
    match mesh {
        SampleMesh::First => Pt {
            x: 60_000,
            y: 100_000,
        },
        SampleMesh::Second => Pt {
            x: 90_000,
            y: 100_000,
        },
    }
}

fn drawn(mesh: SampleMesh) -> u32
    ensures value { result ≡ drawn_before mesh }
    ensures few { result ≤ 64 }
{
    match mesh {
        SampleMesh::First => 0,
        SampleMesh::Second => 64,
    }
}

// Direction j of 64, counterclockwise round the square from -8 to 8.
fn direction(j: u32) -> Pt
    requires { j < 64 }
    ensures value { result ≡ direction_of j }
    ensures x_small { unsigned_abs result.x ≤ 8 }
    ensures y_small { unsigned_abs result.y ≤ 8 }
{
    let t = (j % 16) as i32;
    match j / 16 {
        0 => Pt { x: 8, y: t - 8 },
        1 => Pt { x: 8 - t, y: 8 },
        2 => Pt { x: -8, y: 8 - t },
        _ => Pt { x: t - 8, y: -8 },
    }
}

// A coordinate of a direction.
#[derive(Clone, Copy)]
struct Eighths {
    of: i32,
}

// A radius in eighths of a direction's coordinate.
fn share(direction: Eighths, radius: u32) -> Eighths
    requires small { unsigned_abs direction.of ≤ 8 }
    requires near { radius ≤ 9500 }
    ensures value { result.of ≡ share_of direction.of radius }
    ensures near { unsigned_abs result.of ≤ 9501 }
{
    let far = ((2 * (direction.of.unsigned_abs() * radius) + 8) / 16) as i32;
    Eighths {
        of: if direction.of < 0 { -far } else { far },
    }
}

// The way from the axis to point j of the outline.
fn way(j: u32, radius: u32) -> Pt
    requires few { j < 64 }
    requires near { radius ≤ 9500 }
    ensures value { result ≡ way_of j radius }
    ensures small { InSquare 9501 result }
{
    let way = direction(j);
    let across = share(Eighths { of: way.x }, radius);
    let along = share(Eighths { of: way.y }, radius);
    Pt {
        x: across.of,
        y: along.of,
    }
}

fn moved_by(p: Pt, way: Pt) -> Pt
    requires place { InSquare 100000 p }
    requires small { InSquare 9501 way }
    ensures { result ≡ moved_by p way }
{
    Pt {
        x: p.x + way.x,
        y: p.y + way.y,
    }
}

// The outline of a mesh: 64 points, counterclockwise.
#[tactic(auto, using(crate::proofs::Outlines::outline_none, crate::proofs::Outlines::outline_more))]
fn outline(alloc: Global, number: u32, mesh: SampleMesh) -> Result<Vec<Pt>, NoMemory>
    ensures value { IfOk result (λ points. points.items ≡ outline_of number mesh 64) }
    ensures len { IfOk result (λ points. length points.items ≡ 64) }
{
    let mut points = Vec::new(alloc);
    'points: for j in 0..64 {
        let state = skip_draws(number, drawn(mesh) + (j + 1));
        points.push(moved_by(axis(mesh), way(j, radius(state))))?;
    }
    Ok(points)
}

/// The text of a mesh that a number draws, in ASCII STL
/// (https://en.wikipedia.org/wiki/STL_(file_format)): a column 60 mm high, of 51,324 facets, whose corners
/// stand 9.000 to 9.500 mm from its axis along directions round a square. Want of memory is its only fault.
pub fn sample_mesh(alloc: Global, number: u32, mesh: SampleMesh) -> Result<Text, NoMemory>
    ensures { IfOk result (λ text. text ≡ mesh_text number mesh) }
{
    let points = outline(alloc, number, mesh)?;
    Ok(Text::from_vec(column(alloc, points.as_slice())?))
}
