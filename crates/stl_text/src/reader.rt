// Reads a whole text, line by line.

ghost use Rattle.std.specs.Prelude.{◌≡◌, ◌≤◌, ◌↔◌, ℕ, [], List, All, Err, length, IfOk, IfErr, OnOk, MatchResult};
ghost use Rattle.slice_base.specs.declared.points.Tri.{Tri};
ghost use Rattle.slice_base.specs.Limits.{max_facets, max_file_bytes};
ghost use Rattle.stl_text.specs.Mesh.{HasFacets, IsFault, IsMesh, HasTooMany, IsNear};
ghost use Rattle.stl_text.specs.Inner.Gathers.{Gathers, IsAnswer};

use crate::faults::StlFault;
use crate::gathered::{Gathered, MOST_TRIANGLES};
use crate::lines::line_of;
use crate::states::{State, Step, is_end, step_of};
use crate::words::split_line;
use slice_base::Tri;
use std::alloc::Global;

/// The fewest bytes that a facet's seven lines can have.
const LEAST_FACET: usize = 73;

// Reads all lines; the error is the number of the first line at fault.
fn gather(bytes: &[u8], gathered: &mut Gathered) -> Result<(), u32>
    requires size { length bytes.now ≤ max_file_bytes }
    requires empty { Gathers [] gathered.old }
    ensures ok { OnOk result ((facets : List Tri) × HasFacets bytes.now facets × Gathers facets gathered.new) }
    ensures err { IfErr result (IsFault bytes.now) }
{
    let mut rest = bytes;
    let mut number: u32 = 0;
    let mut state = State::Outside;
    'lines: while !rest.is_empty() {
        let (line, after) = split_line(rest);
        rest = after;
        number += 1;
        match step_of(state, line_of(line)) {
            Step::Bad => return Err(number),
            Step::To(next) => state = next,
            Step::Whole(facet) => {
                gathered.take(facet);
                state = State::InSolid;
            }
        }
    }
    if is_end(state) {
        Ok(())
    } else {
        Err(number + 1)
    }
}

// The answer to a text whose lines are all gathered.
fn finish(gathered: Gathered) -> Result<Vec<Tri>, StlFault>
    ensures { (facets : List Tri) → Gathers facets gathered → IsAnswer facets result }
{
    if gathered.facets > MOST_TRIANGLES {
        return Err(StlFault::TooManyTriangles {
            count: gathered.facets,
        });
    }
    if gathered.is_short {
        return Err(StlFault::NoMemory);
    }
    Ok(gathered.triangles)
}

/// The triangles of the facets of an ASCII STL file, in µm from its mm, without those with two equal
/// corners. Several solids are one mesh. The file has at most 268,435,456 bytes.
///
/// The format is that of 3D Systems' StereoLithography Interface Specification.
pub fn read_stl(alloc: Global, bytes: &[u8]) -> Result<Vec<Tri>, StlFault>
    requires { length bytes.now ≤ max_file_bytes }

    ensures mesh { IfOk result (λ v. IsMesh bytes.now v.items) }
    ensures gives { (triangles : List Tri) → IsMesh bytes.now triangles
        → MatchResult result (λ v. v.items ≡ triangles) (λ e. e ≡ StlFault.NoMemory) }
    ensures bad_line { (n : ℕ) → (result ≡ Err (StlFault.BadLine n)) ↔ IsFault bytes.now n }
    ensures too_many { (n : ℕ) → (result ≡ Err (StlFault.TooManyTriangles n)) ↔ HasTooMany bytes.now n }
    ensures no_memory { result ≡ Err StlFault.NoMemory → (triangles : List Tri) × IsMesh bytes.now triangles }

    ensures near { IfOk result (λ v. All IsNear v.items) }
    ensures few { IfOk result (λ v. length v.items ≤ max_facets) }
{
    let room = (bytes.len() / LEAST_FACET).min(MOST_TRIANGLES as usize);
    let mut gathered = Gathered::new(alloc, room);
    match gather(bytes, &mut gathered) {
        Err(line) => Err(StlFault::BadLine { line }),
        Ok(()) => finish(gathered),
    }
}
