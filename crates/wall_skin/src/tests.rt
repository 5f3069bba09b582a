// Offsets, walls and skin that were worked out by hand.

ghost use Rattle.std.specs.Prelude.{IfOk};
ghost use Rattle.std.specs.List.{All};
ghost use Rattle.slice_base.specs.Boxes.{IsIn, around};
ghost use Rattle.slice_base.specs.Regions.{RegionIn};
ghost use Rattle.wall_skin.specs.Sizes.{IsSmall};

use crate::{skin, walls};
use offset_core::offset;
use slice_base::{Loop, NoMemory, Pt, Region};
use std::alloc::Global;
use std::test::Fail;

// The (x, y) of each point of each loop.
type Outlines<'a> = &'a [&'a [[i32; 2]]];

// A point at most 0.1 m out, which all of these are.
fn near(p: [i32; 2]) -> Pt
    ensures { IsIn (around 100000) result }
{
    Pt {
        x: p[0].clamp(-100_000, 100_000),
        y: p[1].clamp(-100_000, 100_000),
    }
}

fn loop_of(alloc: Global, outline: &[[i32; 2]]) -> Result<Loop, NoMemory>
    ensures { IfOk result (λ points. All (IsIn (around 100000)) points) }
{
    let mut points = Loop::new(alloc);
    for p in outline {
        points.push(near(*p))?;
    }
    Ok(points)
}

fn region_of(alloc: Global, outlines: Outlines) -> Result<Region, NoMemory>
    ensures { IfOk result (λ region. RegionIn (around 100000) region) }
{
    let mut region = Region::new(alloc);
    for outline in outlines {
        region.push(loop_of(alloc, *outline)?)?;
    }
    Ok(region)
}

// The same points in the same order round the loop, from some point on.
fn is_one_cycle(a: &[Pt], b: &[Pt]) -> bool {
    if a.len() != b.len() {
        return false;
    }
    for start in 0..a.len() {
        let rest = b.len() - start;
        if &a[start..] == &b[..rest] && &a[..start] == &b[rest..] {
            return true;
        }
    }
    a.is_empty()
}

fn is_region(region: &Region, wanted: &Region) -> bool {
    let (found, wanted) = (region.loops(), wanted.loops());
    if found.len() != wanted.len() {
        return false;
    }
    for i in 0..found.len() {
        if !is_one_cycle(found[i].points(), wanted[i].points()) {
            return false;
        }
    }
    true
}

const SQUARE: &[[i32; 2]] = &[[0, 0], [10000, 0], [10000, 10000], [0, 10000]];

const NARROW: &[[i32; 2]] = &[[0, 0], [300, 0], [300, 10000], [0, 10000]];

// The outlines, moved 1 mm outward.
fn grown_by_1000(alloc: Global, outlines: Outlines) -> Result<Region, Fail> {
    Ok(offset(alloc, &region_of(alloc, outlines)?, 1000)?)
}

// The outlines, moved 0.2 mm inward.
fn shrunk_by_200(alloc: Global, outlines: Outlines) -> Result<Region, Fail> {
    Ok(offset(alloc, &region_of(alloc, outlines)?, -200)?)
}

// The outlines, cleaned.
fn moved_by_nothing(alloc: Global, outlines: Outlines) -> Result<Region, Fail>
    ensures small { IfOk result (λ region. IsSmall region) }
    ensures inside { IfOk result (λ region. RegionIn (around 100003) region) }
{
    Ok(offset(alloc, &region_of(alloc, outlines)?, 0)?)
}

#[test]
fn a_triangle_grows_and_its_acute_corners_are_cut_off(rt: HostRuntime) -> Result<(), Fail> {
    let moved = grown_by_1000(rt.alloc(), &[&[[0, 0], [10000, 0], [0, 10000]]])?;
    let corners = [
        [-1000, -1000],
        [10000, -1000],
        [10707, 707],
        [707, 10707],
        [-1000, 10000],
    ];
    assert!(rt; is_region(&moved, &region_of(rt.alloc(), &[&corners])?));
    Ok(())
}

#[test]
fn outlines_shrink_from_both_sides_and_vanish(rt: HostRuntime) -> Result<(), Fail> {
    let cases: [(&str, Outlines, Outlines); 3] = [
        (
            "a frame",
            &[
                &[[0, 0], [20000, 0], [20000, 20000], [0, 20000]],
                &[[5000, 5000], [5000, 15000], [15000, 15000], [15000, 5000]],
            ],
            &[
                &[[200, 200], [19800, 200], [19800, 19800], [200, 19800]],
                &[[4800, 4800], [4800, 15200], [15200, 15200], [15200, 4800]],
            ],
        ),
        ("a narrow part", &[NARROW], &[]),
        (
            "points that stand twice",
            &[&[[0, 0], [0, 0], [1000, 0], [1000, 1000], [0, 1000], [0, 0]]],
            &[&[[200, 200], [800, 200], [800, 800], [200, 800]]],
        ),
    ];
    for (name, given, wanted) in cases {
        let moved = shrunk_by_200(rt.alloc(), given)?;
        assert!(rt;
            is_region(&moved, &region_of(rt.alloc(), wanted)?),
            "{name}"
        );
    }
    Ok(())
}

#[test]
fn walls_go_inward_and_vanish_where_there_is_no_room(rt: HostRuntime) -> Result<(), Fail> {
    let square = region_of(rt.alloc(), &[SQUARE])?;
    let first = region_of(
        rt.alloc(),
        &[&[[201, 201], [9799, 201], [9799, 9799], [201, 9799]]],
    )?;
    let second = region_of(
        rt.alloc(),
        &[&[[602, 602], [9398, 602], [9398, 9398], [602, 9398]]],
    )?;
    let inner = region_of(
        rt.alloc(),
        &[&[[802, 802], [9198, 802], [9198, 9198], [802, 9198]]],
    )?;
    let set = walls(rt.alloc(), &square, 2, 401)?;
    let [a, b] = set.loops.items() else {
        return Err(NoMemory)?;
    };
    assert!(rt; is_region(a, &first), "the first wall");
    assert!(rt; is_region(b, &second), "the second wall");
    assert!(rt; is_region(&set.inner, &inner), "the inner area");
    let narrow = region_of(rt.alloc(), &[NARROW])?;
    let set = walls(rt.alloc(), &narrow, 1, 400)?;
    let [wall] = set.loops.items() else {
        return Err(NoMemory)?;
    };
    assert!(rt; wall.loops().is_empty(), "an empty wall");
    assert!(rt; set.inner.loops().is_empty(), "nothing inside");
    Ok(())
}

// What lies inside one wall, 400 µm wide, of an outline.
fn inner_of(alloc: Global, outline: &[[i32; 2]]) -> Result<Region, Fail>
    ensures { IfOk result (λ inner. IsSmall inner) }
{
    let outline = moved_by_nothing(alloc, &[outline])?;
    Ok(walls(alloc, &outline, 1, 400)?.inner)
}

#[test]
fn skin_is_what_near_layers_leave_open(rt: HostRuntime) -> Result<(), Fail> {
    let square = inner_of(rt.alloc(), SQUARE)?;
    let half = &[[0, 0], [5000, 0], [5000, 10000], [0, 10000]];
    let inners = [
        inner_of(rt.alloc(), SQUARE)?,
        inner_of(rt.alloc(), SQUARE)?,
        inner_of(rt.alloc(), half)?,
    ];
    let lowest = skin(rt.alloc(), &inners, 0, 1, 1)?;
    assert!(rt; is_region(&lowest.skin, &square), "all skin");
    assert!(rt; lowest.fill.loops().is_empty(), "no fill");
    let covered = skin(rt.alloc(), &inners, 1, 1, 0)?;
    assert!(rt; covered.skin.loops().is_empty(), "no skin");
    assert!(rt; is_region(&covered.fill, &square), "all fill");
    let stepped = skin(rt.alloc(), &inners, 1, 0, 1)?;
    assert!(rt;
        is_region(&stepped.fill, &inners[2]),
        "fill below what is there"
    );
    assert!(rt; stepped.skin.loops().len() == 1, "skin below the step");
    Ok(())
}
