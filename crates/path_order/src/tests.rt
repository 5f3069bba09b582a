// The order of small lists of pieces.

use crate::{Piece, Visit, order};
use settings_core::Seam;
use slice_base::{Loop, NoMemory, Pt};
use std::alloc::Global;
use std::test::Fail;

const ORIGIN: Pt = Pt { x: 0, y: 0 };

fn line(alloc: Global, from: Pt, to: Pt) -> Result<Piece, NoMemory> {
    Ok(Piece {
        points: Loop::of(alloc, &[from, to])?,
        closed: false,
    })
}

// The square from the origin to (9, 9), counterclockwise from the origin.
fn square(alloc: Global) -> Result<Piece, NoMemory> {
    let points = [
        Pt { x: 0, y: 0 },
        Pt { x: 9, y: 0 },
        Pt { x: 9, y: 9 },
        Pt { x: 0, y: 9 },
    ];
    Ok(Piece {
        points: Loop::of(alloc, &points)?,
        closed: true,
    })
}

// One visit after another.
fn visits(of: &[(u64, u64)], alloc: Global) -> Result<Vec<Visit>, NoMemory> {
    let mut visits = Vec::new(alloc);
    for (piece, start) in of {
        visits.push(Visit {
            piece: *piece,
            start: *start,
        })?;
    }
    Ok(visits)
}

#[test]
fn a_line_is_printed_from_its_nearer_end(rt: HostRuntime) -> Result<(), Fail> {
    let alloc = rt.alloc();
    let mut pieces = Vec::new(alloc);
    pieces.push(line(alloc, Pt { x: 1000, y: 0 }, Pt { x: 5000, y: 0 })?)?;
    pieces.push(line(alloc, Pt { x: 9000, y: 0 }, Pt { x: 6000, y: 0 })?)?;
    let found = order(alloc, pieces.as_slice(), ORIGIN, Seam::Shortest)?;
    assert_eq!(rt;
        found.as_slice(),
        visits(&[(0, 0), (1, 1)], alloc)?.as_slice()
    );
    Ok(())
}

#[test]
fn of_two_equal_loops_the_first_comes_first(rt: HostRuntime) -> Result<(), Fail> {
    let alloc = rt.alloc();
    let mut pieces = Vec::new(alloc);
    pieces.push(square(alloc)?)?;
    pieces.push(square(alloc)?)?;
    let found = order(
        alloc,
        pieces.as_slice(),
        Pt { x: -1, y: -1 },
        Seam::Shortest,
    )?;
    assert_eq!(rt;
        found.as_slice(),
        visits(&[(0, 0), (1, 0)], alloc)?.as_slice()
    );
    Ok(())
}

#[test]
fn a_loop_begins_at_its_nearest_point_or_at_the_back(rt: HostRuntime) -> Result<(), Fail> {
    let alloc = rt.alloc();
    let mut pieces = Vec::new(alloc);
    pieces.push(square(alloc)?)?;
    let from = Pt { x: 10, y: 10 };
    let nearest = order(alloc, pieces.as_slice(), from, Seam::Shortest)?;
    assert_eq!(rt; nearest.as_slice(), visits(&[(0, 2)], alloc)?.as_slice());
    let back = order(alloc, pieces.as_slice(), from, Seam::Back)?;
    assert_eq!(rt; back.as_slice(), visits(&[(0, 3)], alloc)?.as_slice());
    Ok(())
}

#[test]
fn of_two_far_lines_the_nearer_comes_first(rt: HostRuntime) -> Result<(), Fail> {
    let alloc = rt.alloc();
    let mut pieces = Vec::new(alloc);
    pieces.push(line(alloc, Pt { x: 1_000_000, y: 0 }, Pt { x: 1_000_000, y: 1 })?)?;
    pieces.push(line(alloc, Pt { x: 0, y: 1_000_001 }, Pt { x: 0, y: 1_000_002 })?)?;
    let found = order(alloc, pieces.as_slice(), ORIGIN, Seam::Shortest)?;
    assert_eq!(rt;
        found.as_slice(),
        visits(&[(0, 0), (1, 0)], alloc)?.as_slice()
    );
    Ok(())
}
