use super::*;
use crate::cutting::{Plane, edge_of};
use settings_core::resolve;
use slice_base::{Edge, NoMemory, Pt, Pt3, Tri};
use std::alloc::Global;
use std::test::Fail;

fn corner(x: i32, y: i32, z: i32) -> Pt3 {
    Pt3 { x, y, z }
}

fn edge(a: Pt3, b: Pt3) -> Edge {
    Edge {
        from: Pt { x: a.x, y: a.y },
        to: Pt { x: b.x, y: b.y },
    }
}

// Two pyramids of four sides that share their waist, a square at the height of 10 mm.
fn bipyramid() -> ([Pt3; 4], [Tri; 8]) {
    let waist = [
        corner(0, 0, 10000),
        corner(20000, 0, 10000),
        corner(20000, 20000, 10000),
        corner(0, 20000, 10000),
    ];
    let [a, b, c, d] = waist;
    let low = corner(10000, 10000, 0);
    let high = corner(10000, 10000, 20000);
    let tris = [
        Tri { a, b, c: high },
        Tri {
            a: b,
            b: c,
            c: high,
        },
        Tri {
            a: c,
            b: d,
            c: high,
        },
        Tri {
            a: d,
            b: a,
            c: high,
        },
        Tri { a: b, b: a, c: low },
        Tri { a: c, b, c: low },
        Tri { a: d, b: c, c: low },
        Tri { a, b: d, c: low },
    ];
    (waist, tris)
}

#[test]
fn a_plane_through_the_waist_gives_it_once_counterclockwise(rt: HostRuntime) -> Result<(), Fail> {
    let ([a, b, c, d], tris) = bipyramid();
    let mesh = mesh_of(rt.alloc(), &tris)?;
    let edges = section(rt.alloc(), &mesh, 10000)?;
    assert_eq!(rt;
        edges.as_slice(),
        [edge(a, b), edge(b, c), edge(c, d), edge(d, a)].as_slice()
    );
    Ok(())
}

#[test]
fn a_plane_that_touches_the_top_gives_nothing(rt: HostRuntime) -> Result<(), Fail> {
    let (_, tris) = bipyramid();
    let mesh = mesh_of(rt.alloc(), &tris)?;
    assert_eq!(rt; mesh.count(), 8);
    let edges = section(rt.alloc(), &mesh, 20000)?;
    assert_eq!(rt; edges.len(), 0);
    Ok(())
}

// The side from (0,0,0) to (3,-3,2) has its middle at (1.5,-1.5): halves go away from zero.
#[test]
fn halves_are_rounded_away_from_zero(rt: HostRuntime) -> Result<(), Fail> {
    let tris = [Tri {
        a: corner(0, 0, 0),
        b: corner(3, -3, 2),
        c: corner(-3, 3, 2),
    }];
    let mesh = mesh_of(rt.alloc(), &tris)?;
    let edges = section(rt.alloc(), &mesh, 1)?;
    assert_eq!(rt;
        edges.as_slice(),
        [edge(corner(-2, 2, 1), corner(2, -2, 1))].as_slice()
    );
    Ok(())
}

#[test]
fn a_mesh_keeps_its_triangles_in_order_and_knows_its_top(rt: HostRuntime) -> Result<(), Fail> {
    let first = Tri {
        a: corner(0, 0, 3),
        b: corner(1, 0, 7),
        c: corner(0, 1, -2),
    };
    let second = Tri {
        a: corner(5, 5, 5),
        b: corner(6, 5, 5),
        c: corner(5, 6, 6),
    };
    let mesh = mesh_of(rt.alloc(), &[first, second])?;
    assert_eq!(rt; mesh.triangles(), [first, second].as_slice());
    assert_eq!(rt; mesh.top(), 7);
    Ok(())
}

// The section as it is defined: each triangle is looked at.
fn plain_section(alloc: Global, tris: &[Tri], z: i32) -> Result<Vec<Edge>, NoMemory> {
    let mut edges = Vec::new(alloc);
    for t in tris {
        if let Some(e) = edge_of(Plane { z }, *t) {
            edges.push(e)?;
        }
    }
    Ok(edges)
}

// Flat, low and tall triangles at 23 heights, so that many touch a plane and most don't meet it.
fn scattered(alloc: Global) -> Result<Vec<Tri>, NoMemory> {
    let mut tris = Vec::new(alloc);
    for k in 0..60u8 {
        let x = i32::from(k);
        let low = x * 7 % 23;
        let rise = [0, 1, 4, 40][usize::from(k % 4)];
        tris.push(Tri {
            a: corner(x, 0, low + rise),
            b: corner(x + 9, 2, low),
            c: corner(x, 7, low + rise / 2),
        })?;
    }
    Ok(tris)
}

#[test]
fn filed_triangles_give_the_section_of_all(rt: HostRuntime) -> Result<(), Fail> {
    let tris = scattered(rt.alloc())?;
    let mesh = mesh_of(rt.alloc(), tris.as_slice())?;
    for z in -1..64 {
        assert_eq!(rt;
            section(rt.alloc(), &mesh, z)?.as_slice(),
            plain_section(rt.alloc(), tris.as_slice(), z)?.as_slice()
        );
    }
    assert_eq!(rt; section(rt.alloc(), &mesh, 11)?.len(), 8);
    Ok(())
}

#[test]
fn the_greatest_heights_are_filed_too(rt: HostRuntime) -> Result<(), Fail> {
    let tris = [
        Tri {
            a: corner(0, 0, i32::MIN),
            b: corner(50, 0, i32::MIN),
            c: corner(0, 50, i32::MAX),
        },
        Tri {
            a: corner(0, 0, 7),
            b: corner(1, 0, 7),
            c: corner(0, 1, 7),
        },
        Tri {
            a: corner(3, 0, i32::MAX),
            b: corner(4, 0, i32::MAX),
            c: corner(4, 9, 2147483000),
        },
    ];
    let mesh = mesh_of(rt.alloc(), &tris)?;
    for z in [i32::MIN, -1, 0, 7, 8, 2147483001, i32::MAX] {
        assert_eq!(rt;
            section(rt.alloc(), &mesh, z)?.as_slice(),
            plain_section(rt.alloc(), &tris, z)?.as_slice()
        );
    }
    let empty = mesh_of(rt.alloc(), &[])?;
    assert_eq!(rt; section(rt.alloc(), &empty, 0)?.len(), 0);
    Ok(())
}

#[test]
fn layers_are_cut_in_their_middles_below_the_top(rt: HostRuntime) -> Result<(), Fail> {
    let settings = resolve(rt.alloc(), &[], &[0])?;
    assert_eq!(rt; plane(&settings, 0), 150);
    assert_eq!(rt; plane(&settings, 1), 400);
    assert_eq!(rt; plane(&settings, 2), 600);
    assert_eq!(rt; layer_count(&settings, 150), 0);
    assert_eq!(rt; layer_count(&settings, 151), 1);
    assert_eq!(rt; layer_count(&settings, 600), 2);
    assert_eq!(rt; layer_count(&settings, 601), 3);
    Ok(())
}
