// The meshes of the number 7, beside what a second program printed.

use super::*;
use std::alloc::Global;
use std::process::Abort;
use std::test::Fail;

// The text has so many bytes, and begins and ends so.
fn is_text<R: Abort>(
    rt: &R,
    alloc: Global,
    mesh: SampleMesh,
    begin: &[u8],
    end: &[u8],
) -> Result<(), Fail> {
    let text = sample_mesh(alloc, 7, mesh)?;
    assert_eq!(rt; text.bytes().len(), 7_697_477);
    assert!(rt; text.bytes().starts_with(begin));
    assert!(rt; text.bytes().ends_with(end));
    Ok(())
}

const FIRST_BEGIN: &[u8] = b"solid sample
facet normal 0 0 0
outer loop
vertex 69117e-3 90883e-3 0e-3
vertex 69247e-3 91909e-3 0e-3
vertex 69247e-3 91909e-3 150e-3
endloop
endfacet
facet normal 0 0 0
outer loop
vertex 69117e-3 90883e-3 0e-3
";

const FIRST_END: &[u8] = b"
vertex 69117e-3 90883e-3 60000e-3
vertex 67098e-3 90536e-3 60000e-3
vertex 67889e-3 90984e-3 60000e-3
endloop
endfacet
endsolid sample
";

#[test]
fn the_first_column_is_drawn_by_the_first_numbers(rt: HostRuntime) -> Result<(), Fail> {
    is_text(&rt, rt.alloc(), SampleMesh::First, FIRST_BEGIN, FIRST_END)
}

const SECOND_BEGIN: &[u8] = b"solid sample
facet normal 0 0 0
outer loop
vertex 99023e-3 90977e-3 0e-3
vertex 99241e-3 91914e-3 0e-3
vertex 99241e-3 91914e-3 150e-3
endloop
endfacet
";

const SECOND_END: &[u8] = b"
vertex 99023e-3 90977e-3 60000e-3
vertex 96973e-3 90703e-3 60000e-3
vertex 97953e-3 90911e-3 60000e-3
endloop
endfacet
endsolid sample
";

#[test]
fn the_second_column_goes_on_drawing(rt: HostRuntime) -> Result<(), Fail> {
    is_text(
        &rt,
        rt.alloc(),
        SampleMesh::Second,
        SECOND_BEGIN,
        SECOND_END,
    )
}
