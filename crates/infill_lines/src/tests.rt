// The fill of a square.

ghost use Rattle.std.specs.Prelude.{IfOk};
ghost use Rattle.std.specs.List.{All};
ghost use Rattle.slice_base.specs.Plane.{InSquare};

use crate::{Angle, fill};
use slice_base::{Edge, Loop, NoMemory, Pt, Region};
use std::alloc::Global;
use std::test::Fail;

// The square from the origin to (10 mm, 10 mm).
fn square(alloc: Global) -> Result<Region, NoMemory>
    ensures { IfOk result (All (All (InSquare 1700000))) }
{
    let points = [
        Pt { x: 0, y: 0 },
        Pt { x: 10_000, y: 0 },
        Pt {
            x: 10_000,
            y: 10_000,
        },
        Pt { x: 0, y: 10_000 },
    ];
    let mut region = Region::new(alloc);
    region.push(Loop::of(alloc, &points)?)?;
    Ok(region)
}

fn edge(x: i32, y: i32, to_x: i32, to_y: i32) -> Edge {
    Edge {
        from: Pt { x, y },
        to: Pt { x: to_x, y: to_y },
    }
}

#[test]
fn level_lines_fill_a_square(rt: HostRuntime) -> Result<(), Fail> {
    let alloc = rt.alloc();
    let lines = fill(alloc, &square(alloc)?, Angle::A0, 4000, 0)?;
    assert_eq!(rt; lines.len(), 3);
    assert_eq!(rt; lines[0], edge(0, 0, 10_000, 0));
    assert_eq!(rt; lines[1], edge(0, 4000, 10_000, 4000));
    assert_eq!(rt; lines[2], edge(0, 8000, 10_000, 8000));
    Ok(())
}

#[test]
fn slanting_lines_fill_a_square(rt: HostRuntime) -> Result<(), Fail> {
    let alloc = rt.alloc();
    let lines = fill(alloc, &square(alloc)?, Angle::A45, 4000, 0)?;
    assert_eq!(rt; lines.len(), 3);
    assert_eq!(rt; lines[0], edge(0, 5657, 4343, 10_000));
    assert_eq!(rt; lines[1], edge(0, 0, 10_000, 10_000));
    assert_eq!(rt; lines[2], edge(5657, 0, 10_000, 4343));
    Ok(())
}
