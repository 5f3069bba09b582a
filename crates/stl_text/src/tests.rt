// Worked examples of the rules.

use crate::{StlFault, read_stl};
use slice_base::{Pt3, Tri};
use std::alloc::{AllocError, Global};
use std::test::Fail;

fn read(alloc: Global, text: &str) -> Result<Vec<Tri>, StlFault> {
    let bytes = text.as_bytes();
    if bytes.len() > 268435456 {
        return Err(StlFault::NoMemory);
    }
    read_stl(alloc, bytes)
}

// A facet with this line for its first vertex.
fn facet_with(alloc: Global, vertex: &str) -> Result<String, AllocError> {
    format!(in alloc;
        "solid a\nfacet normal 0 0 1\nouter loop\n{vertex}\nvertex 1 0 0\nvertex 0 1 0\nendloop\nendfacet\n"
    )
}

fn corner(x: i32, y: i32, z: i32) -> Pt3 {
    Pt3 { x, y, z }
}

#[test]
fn the_first_line_at_fault(rt: HostRuntime) {
    for (text, line) in [
        ("\0", 1),
        ("endsolid", 1),
        (
            "solid a\nfacet normal 0 0 1\nouter loop\nvertex 0 0 0\nvertex 0 0\n",
            5,
        ),
        (
            "solid a\nfacet normal 0 0 1\nouter loop\nvertex 0 0 0\nvertex 1 0 0\nvertex 0 1 0\n",
            7,
        ),
        (
            "solid a\nfacet\nouter loop\nvertex 0 0 0\nvertex 1 0 0\nvertex 0 1 0\nendloop\n",
            8,
        ),
        ("\n\nsolid a\n\nfacet\n\nouter loop x\n", 7),
        ("solid a\nfacet\n \t\r\n\n", 5),
        ("solid a\nfacet\nouterloop\n", 3),
        ("solid a\nsolid b\n", 2),
        ("solid a\nendsolid\nfacet\n", 3),
        (
            "solid a\nfacet\nouter loop\nvertex 0 0 0\nvertex 1 0 0\nendloop\n",
            6,
        ),
        ("solid a\nfacet\nouter loop\nvertex 1000000.001 0 0\n", 4),
        ("solid a\nfacet\nouter loop\nvertex 0 0 -1000000.0005\n", 4),
    ] {
        assert_eq!(rt;
            read(rt.alloc(), text).err(),
            Some(StlFault::BadLine { line }),
            "at {text}"
        );
    }
}

#[test]
fn a_bad_number_is_at_its_line(rt: HostRuntime) -> Result<(), Fail> {
    for vertex in [
        "vertex 0 0 0 0",
        "vertex 00000000000000000000000000000000000000000000000000000000000000000 0 0",
        "vertex 1e99999 0 0",
        "vertex 0,5 0 0",
        "vertex nan 0 0",
    ] {
        let text = facet_with(rt.alloc(), vertex)?;
        assert_eq!(rt;
            read(rt.alloc(), text.as_str()).err(),
            Some(StlFault::BadLine { line: 4 }),
            "at {vertex}"
        );
    }
    Ok(())
}

#[test]
fn numbers_are_millimetres(rt: HostRuntime) -> Result<(), Fail> {
    for (vertex, a) in [
        ("vertex 0 0 0", corner(0, 0, 0)),
        ("vertex 0e99999 0 0", corner(0, 0, 0)),
        ("vertex 1e-99999 0 0", corner(0, 0, 0)),
        (
            "  VERTEX\t1.500000e+01   -0.0005 .25\r",
            corner(15000, -1, 250),
        ),
        (
            "Vertex -1e6 1000000.0004 -1000000",
            corner(-1_000_000_000, 1_000_000_000, -1_000_000_000),
        ),
    ] {
        let text = facet_with(rt.alloc(), vertex)?;
        let wanted = [Tri {
            a,
            b: corner(1000, 0, 0),
            c: corner(0, 1000, 0),
        }];
        match read(rt.alloc(), text.as_str()) {
            Ok(triangles) => assert_eq!(rt; triangles.as_slice(), wanted.as_slice(), "at {vertex}"),
            Err(_) => assert!(rt; false, "at {vertex}"),
        }
    }
    Ok(())
}

#[test]
fn how_many_triangles(rt: HostRuntime) {
    for (text, count) in [
        ("", 0),
        ("\r\n \n", 0),
        ("solid x", 0),
        ("solid\nendsolid\nsolid", 0),
        // Any case, carriage returns, blank lines, no last line feed.
        (
            "SOLID a b\r\n\r\nFacet\r\nOUTER  Loop\r\nvertex 0 0 0\r\nvertex 1 0 0\r\n\r\nvertex 0 1 0\r\nEndLoop\r\nENDFACET\r\nendSolid a b",
            1,
        ),
        // Two solids; the second facet has two equal corners.
        (
            "solid a\nfacet\nouter loop\nvertex 0 0 0\nvertex 1 0 0\nvertex 0 1 0\nendloop\nendfacet\nendsolid\nsolid b\nfacet\nouter loop\nvertex 0 0 0\nvertex 1 0 0\nvertex 1.0004 0 0\nendloop\nendfacet\nfacet\nouter loop\nvertex 0 0 0\nvertex 0 0 1\nvertex 0 1 0\nendloop\nendfacet\n",
            2,
        ),
    ] {
        let read = read(rt.alloc(), text).ok().map(|triangles| triangles.len());
        assert_eq!(rt; read, Some(count), "at {text}");
    }
}
