// The lines that fill a region.

ghost use Rattle.std.specs.Prelude.{◌≡◌, ◌+◌, ◌*◌, ◌/◌, ◌<◌, ◌≤◌, ◌++◌, ◌<ℤ◌, ◌≤ℤ◌, pos, [], None, IfOk, OnOk};
ghost use Rattle.std.specs.Int.RustNames.{unsigned_abs};
ghost use Rattle.std.specs.List.{All};
ghost use Rattle.slice_base.specs.Boxes.{Box, EdgeIn};
ghost use Rattle.slice_base.specs.Regions.{RegionIn};
ghost use Rattle.slice_base.specs.Plane.{InSquare};
ghost use Rattle.infill_lines.specs.Fill.{fill_of, filled, lines_from, in_order, paired, above_of, extent_of_all, first_line, line_count};
ghost use Rattle.infill_lines.specs.Inner.Places.{IsSpan};
ghost use Rattle.infill_lines.specs.Inner.Sorting.{IsOnLine};
ghost use Rattle.infill_lines.specs.Inner.Rows.{AreLines, AreRows};

use crate::angles::{Angle, Place, step_of};
use crate::crossings::Line;
use crate::extents::{Extent, extent_of_all};
use crate::pairs::{in_order, push_pairs};
use crate::rows::{Lines, find_rows, line_at, row_at};
use slice_base::{Edge, Items, NoMemory, Region};
use std::alloc::Global;

// A number that is divided.
#[derive(Clone, Copy)]
struct Dividend {
    value: i64,
}

fn above_of(n: Dividend, d: u64) -> u64
    requires some { 0 < d }
    requires small { unsigned_abs n.value ≤ 4000000 }
    ensures exact { result ≡ above_of n.value d }
    ensures less { result < d }
{
    if n.value >= 0 {
        n.value as u64 % d
    } else {
        d - 1 - (-(n.value + 1)) as u64 % d
    }
}

fn first_line(step: u64, phase: u64, e: Extent) -> Line
    requires step_from { 50 ≤ step }
    requires step_to { step ≤ 200000 }
    requires phase_to { phase < step }
    requires span { IsSpan e }
    ensures exact { result.at ≡ first_line step phase e }
    ensures small { unsigned_abs result.at ≤ 4000000 }
{
    let from = Dividend {
        value: i64::from(e.least) - phase as i64,
    };
    Line {
        at: e.least - above_of(from, step) as i32,
    }
}

fn count_over(span: u64, step: u64) -> u64
    requires some { 50 ≤ step }
    requires step_to { step ≤ 200000 }
    requires span_to { span ≤ 8000000 }
    ensures exact { result ≡ span / step + 1 }
    ensures small { result * step ≤ 10000000 }
{
    span / step + 1
}

fn line_count(step: u64, first: Line, e: Extent) -> u64
    requires step_from { 50 ≤ step }
    requires step_to { step ≤ 200000 }
    requires span { IsSpan e }
    requires first_small { unsigned_abs first.at ≤ 4000000 }
    ensures exact { result ≡ line_count step first.at e }
    ensures small { result * step ≤ 10000000 }
{
    count_over(
        (i64::from(e.greatest) - i64::from(first.at)).unsigned_abs(),
        step,
    )
}

fn push_inside(
    alloc: Global,
    edges: &mut Vec<Edge>,
    angle: Angle,
    line: Line,
    row: &[Place],
) -> Result<(), NoMemory>
    requires { All (IsOnLine line.at) row.now }
    ensures { OnOk result (edges.new.items ≡ edges.old.items ++ paired angle (in_order [] row.now)) }
{
    let places = in_order(alloc, row, line)?;
    push_pairs(edges, angle, places.as_slice())
}

fn lines_from(
    alloc: Global,
    lines: Lines,
    angle: Angle,
    region: &Region,
    rows: &[Items<Place>],
) -> Result<Vec<Edge>, NoMemory>
    requires lines { AreLines lines }
    requires inside { All (All (InSquare 1700000)) region.now }
    requires rows { AreRows angle region.now lines rows.now }
    ensures { IfOk result (λ edges. edges.items ≡ lines_from lines.count angle region.now lines.step lines.first 0) }
{
    let mut edges = Vec::new(alloc);
    for k in 0..lines.count {
        push_inside(
            alloc,
            &mut edges,
            angle,
            line_at(lines, k),
            row_at(rows, k as usize),
        )?;
    }
    Ok(edges)
}

fn fill_inside(
    alloc: Global,
    lines: Lines,
    angle: Angle,
    region: &Region,
) -> Result<Vec<Edge>, NoMemory>
    requires lines { AreLines lines }
    requires inside { All (All (InSquare 1700000)) region.now }
    ensures exact { IfOk result
        (λ edges. edges.items ≡ lines_from lines.count angle region.now lines.step lines.first 0) }
    ensures within { IfOk result (λ edges. (box : Box) → RegionIn box region.now → All (EdgeIn box) edges.items) }
{
    let rows = find_rows(alloc, lines, angle, region)?;
    let edges = lines_from(alloc, lines, angle, region, rows.as_slice())?;
    Ok(edges)
}

fn fill_extent(
    alloc: Global,
    region: &Region,
    angle: Angle,
    step: u64,
    phase: u64,
) -> Result<Vec<Edge>, NoMemory>
    requires inside { All (All (InSquare 1700000)) region.now }
    requires step_from { 50 ≤ step }
    requires step_to { step ≤ 200000 }
    requires phase_to { phase < step }
    ensures within { IfOk result (λ edges. (box : Box) → RegionIn box region.now → All (EdgeIn box) edges.items) }
    ensures exact { IfOk result (λ edges. edges.items ≡ filled angle region.now step phase
        (extent_of_all angle None region.now)) }
{
    match extent_of_all(angle, region) {
        None => Ok(Vec::new(alloc)),
        Some(e) => {
            let first = first_line(step, phase, e);
            let lines = Lines {
                first: first.at,
                step,
                count: line_count(step, first, e),
            };
            Ok(fill_inside(alloc, lines, angle, region)?)
        }
    }
}

/// Of all lines at an angle, `step` µm apart and from `phase` on, the parts that lie inside of a region,
/// line by line. A line is crossed by an edge where one end lies on it or below and the other above it; the
/// crossings of a line, in order, are joined in pairs. Across a slanting line the step is the next whole
/// number to 99/70 of it. Points are within 1.7 m of the origin, `step` is 50 to 100,000 and `phase` below
/// it. The lines lie in every box in which the region lies.
#[tactic(auto, unfolding(crate::specs::Fill::fill_of))]
pub fn fill(
    alloc: Global,
    region: &Region,
    angle: Angle,
    step: i32,
    phase: i32,
) -> Result<Vec<Edge>, NoMemory>
    requires step_from { pos 50 ≤ℤ step }
    requires step_to { step ≤ℤ pos 100000 }
    requires phase_from { pos 0 ≤ℤ phase }
    requires phase_to { phase <ℤ step }
    requires inside { All (All (InSquare 1700000)) region.now }
    ensures lines { IfOk result (λ lines. lines.items ≡ fill_of region.now angle (unsigned_abs step)
        (unsigned_abs phase)) }
    ensures within { IfOk result (λ lines. (box : Box) → RegionIn box region.now → All (EdgeIn box) lines.items) }
{
    let wide = step_of(angle, step as u64);
    Ok(fill_extent(alloc, region, angle, wide, phase as u64)?)
}
