use super::*;
use chain_core::link;
use slice_base::{Edge, Pt};
use std::test::Fail;

fn at(x: i32, y: i32) -> Pt {
    Pt { x, y }
}

// The edges through these points, in order, without the last one back to the first.
fn path(points: [Pt; 5]) -> [Edge; 4] {
    let [a, b, c, d, e] = points;
    [
        Edge { from: a, to: b },
        Edge { from: b, to: c },
        Edge { from: c, to: d },
        Edge { from: d, to: e },
    ]
}

fn square_with_end(y: i32) -> [Pt; 5] {
    [
        at(0, 0),
        at(20000, 0),
        at(20000, 20000),
        at(0, 20000),
        at(0, y),
    ]
}

#[test]
fn a_gap_of_10_mm_is_closed(rt: HostRuntime) -> Result<(), Fail> {
    let points = square_with_end(10000);
    let edges = path(points);
    let stitched = stitch(rt.alloc(), &edges)?;
    assert_eq!(rt; stitched.open_outlines, 0);
    assert_eq!(rt; stitched.loops.loops().len(), 1);
    assert_eq!(rt; stitched.loops.loops()[0].points(), points.as_slice());
    let chains = link(rt.alloc(), &edges)?;
    assert_eq!(rt; chains.closed.loops().len(), 0);
    assert_eq!(rt; chains.loose.loops().len(), 1);
    Ok(())
}

#[test]
fn a_wider_gap_stays_open(rt: HostRuntime) -> Result<(), Fail> {
    let points = square_with_end(10001);
    let edges = path(points);
    let stitched = stitch(rt.alloc(), &edges)?;
    assert_eq!(rt; stitched.open_outlines, 1);
    assert_eq!(rt; stitched.loops.loops().len(), 0);
    let chains = link(rt.alloc(), &edges)?;
    assert_eq!(rt; chains.closed.loops().len(), 0);
    assert_eq!(rt; chains.loose.loops()[0].points(), points.as_slice());
    Ok(())
}

// Two halves of a square: the gap of 1 µm is closed before that of 2 µm.
#[test]
fn two_halves_become_one_loop(rt: HostRuntime) -> Result<(), Fail> {
    let edges = [
        Edge {
            from: at(0, 0),
            to: at(9000, 0),
        },
        Edge {
            from: at(9001, 0),
            to: at(9000, 9000),
        },
        Edge {
            from: at(9000, 9000),
            to: at(0, 2),
        },
    ];
    let stitched = stitch(rt.alloc(), &edges)?;
    assert_eq!(rt; stitched.open_outlines, 0);
    assert_eq!(rt; stitched.loops.loops().len(), 1);
    assert_eq!(rt;
        stitched.loops.loops()[0].points(),
        [at(0, 0), at(9000, 0), at(9001, 0), at(9000, 9000), at(0, 2)].as_slice()
    );
    Ok(())
}

fn next_state(state: u32) -> u32 {
    state.wrapping_mul(1_664_525).wrapping_add(1_013_904_223)
}

fn on_grid(state: u32) -> Pt {
    let x = (state >> 8) % 6;
    let y = (state >> 16) % 6;
    at(x as i32 * 4000, y as i32 * 4000)
}

// Edges on a coarse grid, so that many gaps are equal, and some are 0 or too wide.
fn edges_on_grid(seed: u32) -> [Edge; 40] {
    let mut state = seed;
    let mut edges = [Edge {
        from: at(0, 0),
        to: at(0, 0),
    }; 40];
    for edge in edges.iter_mut() {
        state = next_state(state);
        let from = on_grid(state);
        state = next_state(state);
        let to = on_grid(state);
        *edge = Edge { from, to };
    }
    edges
}

#[test]
fn all_pairs_tried_each_turn_give_the_same(rt: HostRuntime) -> Result<(), Fail> {
    for seed in 1..20 {
        let edges = edges_on_grid(seed);
        let stitched = stitch(rt.alloc(), &edges)?;
        let chains = link(rt.alloc(), &edges)?;
        let (loops, open) = plain::stitched(rt.alloc(), &chains.closed, &chains.loose)?;
        assert_eq!(rt;
            stitched.open_outlines as usize,
            open.loops().len(),
            "at {seed}"
        );
        let mut kept = stitched.loops.loops().iter();
        for l in loops.loops() {
            if l.points().len() >= 3 {
                let found = kept.next().map(|k| k.points() == l.points());
                assert_eq!(rt; found, Some(true), "at {seed}");
            }
        }
        assert!(rt; kept.next().is_none(), "at {seed}");
    }
    Ok(())
}
