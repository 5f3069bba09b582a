// The boxes round edges, filed in the columns that they touch. In a column they stand by their low ends, so that
// those which can touch one of them stand in one stretch behind it.

ghost use Rattle.std.specs.Prelude.{◌≡◌, ◌+◌, ◌*◌, ◌<◌, ◌≤◌, ◌/◌, ◌^◌, ◌%◌, ◌++◌, [], ◌∷◌, ℕ, Bool, true, List, length, OnOk, IfOk, nat_le};
ghost use Rattle.std.specs.List.{All, Contains};
ghost use Rattle.edge_cut.specs.declared.passes.Marked.{Marked};
ghost use Rattle.edge_cut.specs.Inner.Heights.{height_of, width_of};
ghost use Rattle.edge_cut.specs.Inner.Columns.{extent_of, above_least, column_of, first_column_of, last_column_of, key_of, limit_of, filed_at, AreRising, IsExtentOf, IsFileOf, KeepsFiles, IsFiled, AreFiled};

use crate::boxes::{height, width};
use crate::passes::Marked;
use clip_bands::Span;
use slice_base::{Edge, NoMemory};
use std::alloc::Global;

/// The box round the edge at an index, along the one axis and across it.
#[derive(Clone, Copy)]
pub(crate) struct Extent {
    along: Span,
    pub(crate) across: Span,
    pub(crate) index: u32,
}

fn extent_of(lies: bool, index: u32, e: Edge) -> Extent
    ensures { result ≡ extent_of lies index e }
{
    if lies {
        Extent {
            along: width(e),
            across: height(e),
            index,
        }
    } else {
        Extent {
            along: height(e),
            across: width(e),
            index,
        }
    }
}

/// A box in one of the columns across the axis that it touches. The keys order by columns, and in a column by the
/// low ends of the boxes.
#[derive(Clone, Copy)]
pub(crate) struct Filed {
    key: u64,
    column: u32,
    pub(crate) extent: Extent,
}

/// A coordinate.
#[derive(Clone, Copy)]
pub(crate) struct Coordinate {
    pub(crate) at: i32,
}

// How far it stands above the least one.
fn above_least(x: Coordinate) -> u32
    ensures { result ≡ above_least x.at }
{
    (x.at as i64 + 2_147_483_648).unsigned_abs() as u32
}

/// The column of the coordinate, where columns are two to this power wide: a shift tells it.
pub(crate) fn column_of(x: Coordinate, bits: u32) -> u32
    ensures { result ≡ column_of bits x.at }
{
    (u64::from(above_least(x)) >> (bits % 64)) as u32
}

fn key_of(column: u32, x: Coordinate) -> u64
    ensures { result ≡ key_of column x.at }
{
    column as u64 * 4_294_967_296 + above_least(x) as u64
}

fn filed_at(column: u32, extent: Extent) -> Filed
    ensures { result ≡ filed_at column extent }
{
    Filed {
        key: key_of(
            column,
            Coordinate {
                at: extent.along.low,
            },
        ),
        column,
        extent,
    }
}

// Files the box in the columns from `first` to `last`.
fn push_columns(
    files: &mut Vec<Filed>,
    extent: Extent,
    first: u32,
    last: u32,
) -> Result<(), NoMemory>
    ensures kept { OnOk result (KeepsFiles files.old.items files.new.items) }
    ensures are { OnOk result ((lies : Bool) → (all : List Marked) → IsExtentOf lies all extent
        → All (IsFileOf lies all) files.old.items → All (IsFileOf lies all) files.new.items) }
    ensures each { OnOk result ((c : ℕ) → first ≤ c → c < last + 1 → Contains files.new.items (filed_at c extent)) }
{
    let end = last as u64 + 1;
    for column in (first as u64)..end {
        files.push(filed_at(column as u32, extent))?;
    }
    Ok(())
}

fn first_column(extent: Extent, bits: u32) -> u32
    ensures { result ≡ first_column_of bits extent }
{
    column_of(
        Coordinate {
            at: extent.across.low,
        },
        bits,
    )
}

fn last_column(extent: Extent, bits: u32) -> u32
    ensures { result ≡ last_column_of bits extent }
{
    column_of(
        Coordinate {
            at: extent.across.high,
        },
        bits,
    )
}

// Files the box in all columns that it touches.
fn file(files: &mut Vec<Filed>, extent: Extent, bits: u32) -> Result<(), NoMemory>
    ensures kept { OnOk result (KeepsFiles files.old.items files.new.items) }
    ensures are { OnOk result ((lies : Bool) → (all : List Marked) → IsExtentOf lies all extent
        → All (IsFileOf lies all) files.old.items → All (IsFileOf lies all) files.new.items) }
    ensures each { OnOk result (IsFiled bits extent files.new.items) }
{
    let first = first_column(extent, bits);
    let last = last_column(extent, bits);
    push_columns(files, extent, first, last)?;
    Ok(())
}

// Files the box, if it is that of an edge near a new one.
fn file_near(files: &mut Vec<Filed>, extent: Extent, bits: u32, near: bool) -> Result<(), NoMemory>
    ensures kept { OnOk result (KeepsFiles files.old.items files.new.items) }
    ensures are { OnOk result ((lies : Bool) → (all : List Marked) → IsExtentOf lies all extent
        → All (IsFileOf lies all) files.old.items → All (IsFileOf lies all) files.new.items) }
    ensures each { OnOk result (near ≡ true → IsFiled bits extent files.new.items) }
{
    if !near {
        return Ok(());
    }
    file(files, extent, bits)
}

fn files_of(
    alloc: Global,
    lies: bool,
    bits: u32,
    all: &[Marked],
    near: &[bool],
) -> Result<Vec<Filed>, NoMemory>
    requires few { length all.now ≤ 100000 }
    requires same { length near.now ≡ length all.now }
    ensures { IfOk result (λ files. AreFiled lies bits all.now near.now files.items) }
{
    let mut files = Vec::with_capacity(alloc, all.len() * 2)?;
    for index in 0..all.len() {
        file_near(
            &mut files,
            extent_of(lies, index as u32, all[index].edge),
            bits,
            near[index],
        )?;
    }
    Ok(files)
}

/// The boxes of the edges that are near new ones, by their keys. `lies` says along which axis they are taken, and `bits` how wide the columns
/// across it are.
pub(crate) fn sorted(
    alloc: Global,
    lies: bool,
    bits: u32,
    all: &[Marked],
    near: &[bool],
) -> Result<Vec<Filed>, NoMemory>
    requires few { length all.now ≤ 100000 }
    requires same { length near.now ≡ length all.now }
    ensures filed { IfOk result (λ files. AreFiled lies bits all.now near.now files.items) }
    ensures rising { IfOk result (λ files. AreRising files.items) }
{
    let mut files = files_of(alloc, lies, bits, all, near)?;
    files.sort_unstable_by_key(|f| f.key);
    Ok(files)
}

/// The greatest key of a box in the same column that begins up to this one's high end.
pub(crate) fn limit_of(f: Filed) -> u64
    ensures { result ≡ limit_of f }
{
    key_of(
        f.column,
        Coordinate {
            at: f.extent.along.high,
        },
    )
}

pub(crate) fn is_up_to(f: Filed, limit: u64) -> bool
    ensures { result ≡ nat_le f.key limit }
{
    f.key <= limit
}
