// Which edges may touch a new one: the others needn't be compared, since edges that aren't new meet each other at ends
// alone. A grid has a mark in each cell that the box round a new edge touches, and an old edge is looked up there by
// its own box. Cells 256 apart share a mark, so that the grid has no bounds: a mark too many costs time alone.

ghost use Rattle.std.specs.Prelude.{◌≡◌, ◌<◌, ◌≤◌, length, true, false, IfOk};
ghost use Rattle.edge_cut.specs.Inner.Marks.{patch_of, place_of, KeepsMarks, RowIs, PatchIs, AreMarked, AreNear};

use crate::boxes::{Grid, height, width};
use crate::columns::{Coordinate, column_of};
use crate::passes::Marked;
use slice_base::{Edge, NoMemory};
use std::alloc::Global;

// The marks of the grid: of 256 by 256 cells.
const MARKS: usize = 65_536;

fn place_of(c: u32, d: u32) -> usize
    ensures exact { result ≡ place_of c d }
    ensures small { result < 65536 }
{
    (c % 256 * 256 + d % 256) as usize
}

// The cells that a box touches, from the first to the last each way.
#[derive(Clone, Copy)]
struct Patch {
    left: u32,
    right: u32,
    low: u32,
    high: u32,
}

fn patch_of(grid: Grid, e: Edge) -> Patch
    ensures { result ≡ patch_of grid e }
{
    let wide = width(e);
    let high = height(e);
    Patch {
        left: column_of(Coordinate { at: wide.low }, grid.wide),
        right: column_of(Coordinate { at: wide.high }, grid.wide),
        low: column_of(Coordinate { at: high.low }, grid.high),
        high: column_of(Coordinate { at: high.high }, grid.high),
    }
}

fn mark_row(cells: &mut Vec<bool>, c: u32, low: u32, high: u32)
    requires count { length cells.old.items ≡ 65536 }
    ensures count { length cells.new.items ≡ 65536 }
    ensures kept { KeepsMarks cells.old.items cells.new.items }
    ensures each { RowIs true cells.new.items c low high }
{
    let end = high as u64 + 1;
    for d in (low as u64)..end {
        cells[place_of(c, d as u32)] = true;
    }
}

fn mark_patch(cells: &mut Vec<bool>, patch: Patch)
    requires count { length cells.old.items ≡ 65536 }
    ensures count { length cells.new.items ≡ 65536 }
    ensures kept { KeepsMarks cells.old.items cells.new.items }
    ensures each { PatchIs true cells.new.items patch }
{
    let end = patch.right as u64 + 1;
    for c in (patch.left as u64)..end {
        mark_row(cells, c as u32, patch.low, patch.high);
    }
}

// Marks the cells that the box round the edge touches, if it is new.
fn mark_new(cells: &mut Vec<bool>, grid: Grid, e: Edge, new: bool)
    requires count { length cells.old.items ≡ 65536 }
    ensures count { length cells.new.items ≡ 65536 }
    ensures kept { KeepsMarks cells.old.items cells.new.items }
    ensures each { new ≡ true → PatchIs true cells.new.items (patch_of grid e) }
{
    if new {
        mark_patch(cells, patch_of(grid, e));
    }
}

fn marks_of(alloc: Global, grid: Grid, all: &[Marked], news: &[bool]) -> Result<Vec<bool>, NoMemory>
    requires { length news.now ≡ length all.now }
    ensures count { IfOk result (λ cells. length cells.items ≡ 65536) }
    ensures each { IfOk result (λ cells. AreMarked grid all.now news.now cells.items) }
{
    let mut cells = vec![in alloc; false; MARKS]?;
    for index in 0..all.len() {
        mark_new(&mut cells, grid, all[index].edge, news[index]);
    }
    Ok(cells)
}

fn has_row_mark(cells: &[bool], c: u32, low: u32, high: u32) -> bool
    requires { length cells.now ≡ 65536 }
    ensures { result ≡ false → RowIs false cells.now c low high }
{
    let end = high as u64 + 1;
    for d in (low as u64)..end {
        if cells[place_of(c, d as u32)] {
            return true;
        }
    }
    false
}

fn has_mark(cells: &[bool], patch: Patch) -> bool
    requires { length cells.now ≡ 65536 }
    ensures { result ≡ false → PatchIs false cells.now patch }
{
    let end = patch.right as u64 + 1;
    for c in (patch.left as u64)..end {
        if has_row_mark(cells, c as u32, patch.low, patch.high) {
            return true;
        }
    }
    false
}

// An edge whose box touches many cells isn't looked up.
fn is_near(cells: &[bool], grid: Grid, e: Edge, new: bool) -> bool
    requires { length cells.now ≡ 65536 }
    ensures old { result ≡ false → new ≡ false }
    ensures clear { result ≡ false → PatchIs false cells.now (patch_of grid e) }
{
    if new {
        return true;
    }
    let patch = patch_of(grid, e);
    if cells_in(patch) > MOST_CELLS {
        return true;
    }
    has_mark(cells, patch)
}

fn near_by(
    alloc: Global,
    grid: Grid,
    all: &[Marked],
    news: &[bool],
    cells: &[bool],
) -> Result<Vec<bool>, NoMemory>
    requires same { length news.now ≡ length all.now }
    requires count { length cells.now ≡ 65536 }
    requires marked { AreMarked grid all.now news.now cells.now }
    ensures { IfOk result (λ near. AreNear all.now news.now near.items) }
{
    let mut near = Vec::with_capacity(alloc, all.len())?;
    for index in 0..all.len() {
        near.push(is_near(cells, grid, all[index].edge, news[index]))?;
    }
    Ok(near)
}

fn all_near(alloc: Global, all: &[Marked], news: &[bool]) -> Result<Vec<bool>, NoMemory>
    ensures { IfOk result (λ near. AreNear all.now news.now near.items) }
{
    Ok(vec![in alloc; true; all.len()]?)
}

/// Whether each edge is to be compared with others: all new ones are, and of the old ones at least those that touch a
/// new one.
pub(crate) fn near_of(
    alloc: Global,
    grid: Grid,
    all: &[Marked],
    news: &[bool],
) -> Result<Vec<bool>, NoMemory>
    requires { length news.now ≡ length all.now }
    ensures { IfOk result (λ near. AreNear all.now news.now near.items) }
{
    if !are_few(grid, all, news) {
        return all_near(alloc, all, news);
    }
    let cells = marks_of(alloc, grid, all, news)?;
    near_by(alloc, grid, all, news, cells.as_slice())
}

// The most cells of a box that is looked up.
const MOST_CELLS: u64 = 64;

fn cells_in(patch: Patch) -> u64 {
    let across = u64::from(patch.right.abs_diff(patch.left)).saturating_add(1);
    let up = u64::from(patch.high.abs_diff(patch.low)).saturating_add(1);
    across.saturating_mul(up)
}

// Fewer lists of edges are compared sooner than looked up.
const LEAST_EDGES: usize = 500;

// Whether the new edges touch so few cells that the grid is worth its while. Of time alone.
fn are_few(grid: Grid, all: &[Marked], news: &[bool]) -> bool
    requires { length news.now ≡ length all.now }
{
    if all.len() < LEAST_EDGES {
        return false;
    }
    let most = all.len() as u64 / 8;
    let mut touched = 0u64;
    for index in 0..all.len() {
        if news[index] {
            touched = touched.saturating_add(cells_in(patch_of(grid, all[index].edge)));
        }
        if touched > most {
            return false;
        }
    }
    true
}
