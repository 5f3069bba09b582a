// What any bytes mean. The function does nothing: its clauses are the laws.

ghost use Rattle.std.specs.Prelude.{◌≡◌, List, Result};
ghost use Rattle.slice_base.specs.Shapes.{Bytes};
ghost use Rattle.slice_base.specs.declared.points.Tri.{Tri};
ghost use Rattle.stl_text.specs.declared.faults.StlFault.{StlFault};
ghost use Rattle.stl_text.specs.Mesh.{HasFacets, StlGives};

/// Any bytes give one thing at most: a mesh, a first line at fault, or a number of facets that is too
/// large. No two of these, and none of them twice with other triangles or another number.
pub fn one_reading()
    ensures one { (bytes : Bytes) (a b : Result (List Tri) StlFault) → StlGives bytes a → StlGives bytes b → a ≡ b }

    // Nor do they have other facets, those with two equal corners among them.
    ensures facets { (bytes : Bytes) (fs gs : List Tri) → HasFacets bytes fs → HasFacets bytes gs → fs ≡ gs }
{}
