// The triangles so far.

ghost use Rattle.std.specs.Prelude.{◌≡◌, ◌<◌, ◌+◌, ◌^◌, ◌++◌, [], ◌∷◌, List};
ghost use Rattle.stl_text.specs.Mesh.{same_corner, is_proper};
ghost use Rattle.stl_text.specs.Inner.Gathers.{Gathers};
ghost use Rattle.slice_base.specs.declared.points.Tri.{Tri};

use slice_base::{Pt3, Tri};
use std::alloc::Global;

/// The most facets of a file.
pub const MOST_TRIANGLES: u32 = 1_000_000;

/// The facets so far: their number, and their triangles where there is room for them.
#[derive(Drop)]
pub struct Gathered {
    pub facets: u32,
    pub triangles: Vec<Tri>,
    pub is_short: bool,
}

fn same_corner(p: Pt3, q: Pt3) -> bool
    ensures { result ≡ same_corner p q }
{
    p.x == q.x && p.y == q.y && p.z == q.z
}

fn is_proper(facet: Tri) -> bool
    ensures { result ≡ is_proper facet }
{
    !same_corner(facet.a, facet.b)
        && !same_corner(facet.b, facet.c)
        && !same_corner(facet.c, facet.a)
}

impl Gathered {
    /// No facets, with room for some triangles if there is memory for it.
    pub fn new(alloc: Global, room: usize) -> Gathered
        ensures { Gathers [] result }
    {
        match Vec::with_capacity(alloc, room) {
            Ok(triangles) => Gathered {
                facets: 0,
                triangles,
                is_short: false,
            },
            Err(_) => Gathered {
                facets: 0,
                triangles: Vec::new(alloc),
                is_short: false,
            },
        }
    }

    /// Takes one more facet.
    pub fn take(&mut self, facet: Tri)
        requires { self.old.facets + 1 < 2 ^ 32 }
        ensures count { self.new.facets ≡ self.old.facets + 1 }
        ensures gathers { (facets : List Tri) → Gathers facets self.old → Gathers (facets ++ facet ∷ []) self.new }
    {
        self.facets += 1;
        if self.facets > MOST_TRIANGLES || self.is_short || !is_proper(facet) {
            return;
        }
        self.is_short = self.triangles.push(facet).is_err();
    }
}
