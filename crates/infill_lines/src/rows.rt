// Crossings, filed by the lines on which they lie, so that an edge is looked at for those lines alone that
// it crosses.

ghost use Rattle.std.specs.Prelude.{◌≡◌, ◌+◌, ◌*◌, ◌<◌, ◌≤◌, ◌<ℤ◌, ◌≤ℤ◌, ◌-ℤ◌, ◌&&◌, ◌++◌, ◌∷◌, [], ℕ, pos, nat_lt, int_lt, length, slice_set, OnOk, IfOk};
ghost use Rattle.std.specs.List.{All};
ghost use Rattle.slice_base.specs.Plane.{InSquare};
ghost use Rattle.infill_lines.specs.Crossings.{crosses_up, crossing_of, loop_crossings, region_crossings};
ghost use Rattle.infill_lines.specs.Inner.Places.{IsPlace};
ghost use Rattle.infill_lines.specs.Inner.Rows.{line_at, row_at, AreLines, HaveMore, AreRows};

use crate::angles::{Angle, Place, place_of};
use crate::crossings::{Line, between};
use slice_base::{Items, NoMemory, Pt, Region};
use std::alloc::Global;

/// Parallel lines: where across the first one lies, how far apart they are, and how many there are.
#[derive(Clone, Copy)]
pub(crate) struct Lines {
    pub(crate) first: i32,
    pub(crate) step: u64,
    pub(crate) count: u64,
}

/// The line of a number.
pub(crate) fn line_at(lines: Lines, k: u64) -> Line
    requires lines { AreLines lines }
    requires within { k < lines.count }
    ensures { result.at ≡ line_at lines k }
{
    Line {
        at: lines.first + (k * lines.step) as i32,
    }
}

// How many steps it takes to come as far as a gap is wide.
fn steps_over(gap: u64, step: u64) -> u64
    requires some { 1 ≤ step }
    requires not_wide { step ≤ 200000 }
    requires gap_small { gap ≤ 8000000 }
    ensures before { (k : ℕ) → k < result → k * step < gap }
    ensures behind { (k : ℕ) → result ≤ k → gap ≤ k * step }
{
    (gap + (step - 1)) / step
}

fn gap_to(lines: Lines, at: Place) -> u64
    requires lines { AreLines lines }
    requires small { IsPlace 3400000 at }
    requires rising { lines.first ≤ℤ at.across }
    ensures exact { pos result ≡ at.across -ℤ lines.first }
    ensures small { result ≤ 8000000 }
{
    (i64::from(at.across) - i64::from(lines.first)) as u64
}

// The number of the first line that isn't below a place.
fn first_number(lines: Lines, at: Place) -> u64
    requires lines { AreLines lines }
    requires small { IsPlace 3400000 at }
    ensures before { (k : ℕ) → k < result → line_at lines k <ℤ at.across }
    ensures behind { (k : ℕ) → result ≤ k → at.across ≤ℤ line_at lines k }
{
    if at.across <= lines.first {
        0
    } else {
        steps_over(gap_to(lines, at), lines.step)
    }
}

// Whether there is a line of this number, and it lies below a place.
fn is_below(lines: Lines, k: u64, at: Place) -> bool
    requires lines { AreLines lines }
    ensures { result ≡ (nat_lt k lines.count && int_lt (line_at lines k) at.across) }
{
    k < lines.count && line_at(lines, k).at < at.across
}

fn put(rows: &mut [Items<Place>], k: usize, at: Place) -> Result<(), NoMemory>
    requires { k < length rows.old }
    ensures count { length rows.new ≡ length rows.old }
    ensures exact { OnOk result (rows.new ≡ slice_set rows.old k (row_at rows.old k ++ at ∷ [])) }
{
    let row = &mut rows[k];
    row.push(at)
}

fn file_up(rows: &mut [Items<Place>], lines: Lines, low: Place, high: Place) -> Result<(), NoMemory>
    requires lines { AreLines lines }
    requires count { length rows.old ≡ lines.count }
    requires low_small { IsPlace 3400000 low }
    requires high_small { IsPlace 3400000 high }
    ensures count { length rows.new ≡ lines.count }
    ensures filed { OnOk result (HaveMore lines rows.old rows.new (crosses_up low high)) }
{
    let mut k = first_number(lines, low);
    'each: while is_below(lines, k, high) {
        let line = line_at(lines, k);
        put(rows, k as usize, between(low, high, line))?;
        k += 1;
    }
    Ok(())
}

fn file_edge(rows: &mut [Items<Place>], lines: Lines, p: Place, q: Place) -> Result<(), NoMemory>
    requires lines { AreLines lines }
    requires count { length rows.old ≡ lines.count }
    requires p_small { IsPlace 3400000 p }
    requires q_small { IsPlace 3400000 q }
    ensures count { length rows.new ≡ lines.count }
    ensures filed { OnOk result (HaveMore lines rows.old rows.new (crossing_of p q)) }
{
    if p.across <= q.across {
        file_up(rows, lines, p, q)
    } else {
        file_up(rows, lines, q, p)
    }
}

fn file_loop(
    rows: &mut [Items<Place>],
    lines: Lines,
    angle: Angle,
    points: &[Pt],
) -> Result<(), NoMemory>
    requires lines { AreLines lines }
    requires count { length rows.old ≡ lines.count }
    requires inside { All (InSquare 1700000) points.now }
    ensures count { length rows.new ≡ lines.count }
    ensures filed { OnOk result (HaveMore lines rows.old rows.new (loop_crossings angle points.now)) }
{
    let [start, rest @ ..] = points else {
        return Ok(());
    };
    let first = place_of(angle, *start);
    let mut p = first;
    for point in rest {
        let q = place_of(angle, *point);
        file_edge(rows, lines, p, q)?;
        p = q;
    }
    file_edge(rows, lines, p, first)
}

fn file_region(
    rows: &mut [Items<Place>],
    lines: Lines,
    angle: Angle,
    region: &Region,
) -> Result<(), NoMemory>
    requires lines { AreLines lines }
    requires count { length rows.old ≡ lines.count }
    requires inside { All (All (InSquare 1700000)) region.now }
    ensures count { length rows.new ≡ lines.count }
    ensures filed { OnOk result (HaveMore lines rows.old rows.new (region_crossings angle region.now)) }
{
    for l in region.loops() {
        file_loop(rows, lines, angle, l.points())?;
    }
    Ok(())
}

/// The places that are filed for a line.
pub(crate) fn row_at(rows: &[Items<Place>], k: usize) -> &[Place]
    requires { k < length rows.now }
    ensures { result.now ≡ row_at rows.now k }
{
    rows[k].items()
}

fn empty_rows(alloc: Global, count: u64) -> Result<Vec<Items<Place>>, NoMemory>
    requires { count ≤ 10000000 }
    ensures count { IfOk result (λ rows. length rows.items ≡ count) }
    ensures empty { IfOk result (λ rows. (k : ℕ) → row_at rows.items k ≡ []) }
{
    let mut rows = Vec::with_capacity(alloc, count as usize)?;
    for _ in 0..count {
        rows.push(Items::new(alloc))?;
    }
    Ok(rows)
}

/// For each of the lines the places where a region crosses it.
pub(crate) fn find_rows(
    alloc: Global,
    lines: Lines,
    angle: Angle,
    region: &Region,
) -> Result<Vec<Items<Place>>, NoMemory>
    requires lines { AreLines lines }
    requires inside { All (All (InSquare 1700000)) region.now }
    ensures { IfOk result (λ rows. AreRows angle region.now lines rows.items) }
{
    let mut rows = empty_rows(alloc, lines.count)?;
    file_region(rows.as_mut_slice(), lines, angle, region)?;
    Ok(rows)
}
