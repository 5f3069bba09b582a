// Laws of places: the function's contract is one, and its body is empty.

ghost use Rattle.std.specs.Prelude.{◌≡◌, ◌<◌, length};
ghost use Rattle.mesh_placing.specs.declared.placing.Extent.{Extent};
ghost use Rattle.mesh_placing.specs.Extents.{IsExtent, corners_of, extent_of};

use slice_base::Tri;

/// The extent of triangles goes in each direction from the least coordinate of a corner to the greatest.
/// No other one does.
pub fn extent_is_tight(tris: &[Tri])
    requires { 0 < length tris.now }
    ensures tight { IsExtent (corners_of tris.now) (extent_of tris.now) }
    ensures one { (e : Extent) → IsExtent (corners_of tris.now) e → e ≡ extent_of tris.now }
{}
