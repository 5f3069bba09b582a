use super::*;
use settings_core::{Given, Pair, Scope, resolve};
use slice_base::{NoMemory, Pt3, Text, Tri};
use std::alloc::Global;
use std::test::Fail;

fn corner(x: i32, y: i32, z: i32) -> Pt3 {
    Pt3 { x, y, z }
}

fn pairs_of(alloc: Global, given: &[(&str, &str)]) -> Result<Vec<Pair>, NoMemory> {
    let mut pairs = Vec::new(alloc);
    for (key, value) in given {
        pairs.push(Pair {
            scope: Scope::Global,
            key: Text::of(alloc, key.as_bytes())?,
            value: Given::Words(Text::of(alloc, value.as_bytes())?),
        })?;
    }
    Ok(pairs)
}

// Two triangles in a row, of which the second reaches to the right.
fn row_to(right: i32) -> [Tri; 2] {
    [
        Tri {
            a: corner(0, 0, 0),
            b: corner(10, 0, 0),
            c: corner(10, 10, 50),
        },
        Tri {
            a: corner(10, 0, 0),
            b: corner(right, 0, 0),
            c: corner(10, 10, 50),
        },
    ]
}

#[test]
fn a_mesh_reaches_the_edge_of_the_volume_and_no_further(rt: HostRuntime) -> Result<(), Fail> {
    let settings = resolve(rt.alloc(), &[], &[0])?;
    assert_eq!(rt; settings.meshes.len(), 1);
    let mut reaching = row_to(200000);
    assert_eq!(rt; put_in_place(&mut reaching, &settings, 0), Ok(()));
    assert_eq!(rt; reaching.as_slice(), row_to(200000).as_slice());
    let mut leaving = row_to(200001);
    assert_eq!(rt;
        put_in_place(&mut leaving, &settings, 0),
        Err(OutsideVolume {
            triangle: 1,
            excess: Excess {
                side: Side::Right,
                by: 1,
            },
        })
    );
    assert_eq!(rt; leaving.as_slice(), row_to(200001).as_slice());
    Ok(())
}

#[test]
fn a_mesh_below_the_bed_is_refused(rt: HostRuntime) -> Result<(), Fail> {
    let pairs = pairs_of(rt.alloc(), &[("mesh_position_z", "-0.001")])?;
    let settings = resolve(rt.alloc(), pairs.as_slice(), &[0])?;
    assert_eq!(rt; settings.meshes.len(), 1);
    let mut mesh = row_to(20);
    assert_eq!(rt;
        put_in_place(&mut mesh, &settings, 0),
        Err(OutsideVolume {
            triangle: 0,
            excess: Excess {
                side: Side::Below,
                by: 1,
            },
        })
    );
    Ok(())
}

// The middles are 2.5 and -2.5 µm, so 2 and -3; the bed's are 100 and 50 mm.
#[test]
fn a_centred_mesh_stands_in_the_middle_of_the_bed(rt: HostRuntime) -> Result<(), Fail> {
    let pairs = pairs_of(
        rt.alloc(),
        &[
            ("center_object", "true"),
            ("machine_depth", "100"),
            ("mesh_position_x", "1"),
        ],
    )?;
    let settings = resolve(rt.alloc(), pairs.as_slice(), &[0])?;
    assert_eq!(rt; settings.meshes.len(), 1);
    let mut mesh = [Tri {
        a: corner(1, -4, -7),
        b: corner(4, -4, -7),
        c: corner(4, -1, 3),
    }];
    put_in_place(&mut mesh, &settings, 0)?;
    assert_eq!(rt;
        mesh.as_slice(),
        [Tri {
            a: corner(100999, 49999, 0),
            b: corner(101002, 49999, 0),
            c: corner(101002, 50002, 10),
        }]
        .as_slice()
    );
    Ok(())
}
