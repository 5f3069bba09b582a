// Starts filed by the squares in which they lie, so that only those near a point are looked at.

ghost use Rattle.std.specs.Prelude.{◌≡◌, ◌+◌, ◌*◌, ◌<◌, ◌≤◌, ◌^◌, ◌++◌, [], ◌∷◌, ℕ, length, slice_index_or, slice_set, IfOk, OnOk, None};
ghost use Rattle.std.specs.List.{All};
ghost use Rattle.path_order.specs.Inner.Remaining.{nearest_left, remaining, Known};
ghost use Rattle.path_order.specs.Inner.Squares.{lifted, column_of, row_of, square_of_strips, square_at, start_of, is_close, IsFound, Beats, BeatsRow, BeatsNear, AreFiled, IsGrid};

use crate::choices::{Choice, considered, nearest_left};
use crate::marks::Marks;
use crate::starts::Start;
use slice_base::{Items, NoMemory, Pt, isqrt};
use std::alloc::Global;

/// Starts, and for each square the numbers of those that lie in it. A square of the plane has the number
/// that its strips give; squares far apart may share one.
#[derive(Drop)]
pub(crate) struct Grid {
    pub(crate) starts: Vec<Start>,
    pub(crate) side: u64,
    pub(crate) squares: Vec<Items<u32>>,
}

fn lifted(x: i32) -> u64
    ensures exact { result ≡ lifted x }
    ensures small { result < 2 ^ 32 }
{
    (i64::from(x) + 0x8000_0000) as u64
}

fn column(side: u64, p: Pt) -> u64
    requires { 0 < side }
    ensures exact { result ≡ column_of side p }
    ensures small { result < 2 ^ 32 }
{
    lifted(p.x) / side
}

fn row(side: u64, p: Pt) -> u64
    requires { 0 < side }
    ensures exact { result ≡ row_of side p }
    ensures small { result < 2 ^ 32 }
{
    lifted(p.y) / side
}

fn square_of_strips(count: usize, column: u64, row: u64) -> usize
    requires some { 0 < count }
    requires column_in { column < 2 ^ 33 }
    requires row_in { row < 2 ^ 33 }
    ensures exact { result ≡ square_of_strips count column row }
    ensures within { result < count }
{
    ((row * 1_640_531_527 + column) % count as u64) as usize
}

fn square_at(count: usize, side: u64, p: Pt) -> usize
    requires some { 0 < count }
    requires some_side { 0 < side }
    ensures exact { result ≡ square_at count side p }
    ensures within { result < count }
{
    square_of_strips(count, column(side, p), row(side, p))
}

// ---- filing

fn empty_squares(alloc: Global, count: usize) -> Result<Vec<Items<u32>>, NoMemory>
    ensures count { IfOk result (λ v. length v.items ≡ count) }
    ensures empty { IfOk result (λ v. (b : ℕ) → slice_index_or v.items b [] ≡ []) }
{
    let mut lists = Vec::with_capacity(alloc, count)?;
    for _ in 0..count {
        lists.push(Items::new(alloc))?;
    }
    Ok(lists)
}

fn put(squares: &mut [Items<u32>], at: usize, number: u32) -> Result<(), NoMemory>
    requires { at < length squares.old }
    ensures { OnOk result (squares.new ≡ slice_set squares.old at (slice_index_or squares.old at [] ++ number ∷ [])) }
{
    let list = &mut squares[at];
    list.push(number)
}

fn file_all(squares: &mut [Items<u32>], side: u64, starts: &[Start]) -> Result<(), NoMemory>
    requires few { length starts.now < 2 ^ 32 }
    requires some { 0 < length squares.old }
    requires some_side { 0 < side }
    requires empty { (b : ℕ) → slice_index_or squares.old b [] ≡ [] }
    ensures filed { OnOk result (AreFiled starts.now side squares.new (length starts.now)) }
    ensures same { length squares.new ≡ length squares.old }
{
    for (i, s) in starts.iter().enumerate() {
        let at = square_at(squares.len(), side, s.at);
        put(squares, at, i as u32)?;
    }
    Ok(())
}

// ---- looking

fn look_in(
    best: Option<Choice>,
    at: Pt,
    gone: &Marks,
    starts: &[Start],
    numbers: &[u32],
) -> Option<Choice>
    requires known { All (λ k. k < length starts.now) numbers.now }
    requires found { IsFound gone.now at starts.now best }
    ensures found { IsFound gone.now at starts.now result }
    ensures kept { (s : Start) → Beats gone.now at best s → Beats gone.now at result s }
    ensures seen { All (λ k. Beats gone.now at result (start_of starts.now k)) numbers.now }
{
    let mut found = best;
    for k in numbers {
        found = considered(found, at, gone, starts[*k as usize]);
    }
    found
}

/// Columns from one to another.
#[derive(Clone, Copy)]
struct Columns {
    from: u64,
    to: u64,
}

impl Grid {
    fn look_in_row(
        &self,
        best: Option<Choice>,
        at: Pt,
        gone: &Marks,
        row: u64,
        columns: Columns,
    ) -> Option<Choice>
        requires grid { IsGrid self.now }
        requires row_in { row < 2 ^ 33 }
        requires columns_in { columns.to < 2 ^ 33 }
        requires found { IsFound gone.now at self.now.starts.items best }
        ensures found { IsFound gone.now at self.now.starts.items result }
        ensures kept { (s : Start) → Beats gone.now at best s → Beats gone.now at result s }
        ensures seen { BeatsRow gone.now at result self.now row columns.from columns.to }
    {
        let mut found = best;
        let mut column = columns.from;
        'columns: while column <= columns.to {
            let square = square_of_strips(self.squares.len(), column, row);
            found = look_in(
                found,
                at,
                gone,
                self.starts.as_slice(),
                self.squares[square].items(),
            );
            column += 1;
        }
        found
    }

    // The nearest of the starts in the squares so many strips around a point.
    fn look_around(&self, at: Pt, gone: &Marks, reach: u64) -> Option<Choice>
        requires grid { IsGrid self.now }
        requires reach_in { reach < 2 ^ 32 }
        ensures found { IsFound gone.now at self.now.starts.items result }
        ensures seen { BeatsNear gone.now at result self.now reach }
    {
        let middle = column(self.side, at);
        let columns = Columns {
            from: middle.saturating_sub(reach),
            to: middle + reach,
        };
        let centre = row(self.side, at);
        let mut found = None;
        let mut row = centre.saturating_sub(reach);
        'rows: while row <= centre + reach {
            found = self.look_in_row(found, at, gone, row, columns);
            row += 1;
        }
        found
    }

    /// The nearest start of a piece that isn't gone.
    pub(crate) fn nearest_left(&self, at: Pt, gone: &Marks) -> Option<Choice>
        requires { IsGrid self.now }
        ensures { result ≡ nearest_left gone.now at None self.now.starts.items }
    {
        let widest = isqrt(self.squares.len() as u128) / 2;
        let mut reach = 1;
        'wider: while reach < widest && reach < 0x10_0000 {
            let found = self.look_around(at, gone, reach);
            if is_close(found, reach * self.side) {
                return found;
            }
            reach *= 2;
        }
        nearest_left(at, gone, self.starts.as_slice())
    }
}

fn is_close(found: Option<Choice>, far: u64) -> bool
    requires { far < 2 ^ 60 }
    ensures { result ≡ is_close found far }
{
    match found {
        None => false,
        Some(c) => c.square <= u128::from(far) * u128::from(far),
    }
}

// ---- making

/// The starts of pieces that aren't gone.
pub(crate) fn remaining(
    alloc: Global,
    gone: &Marks,
    starts: &[Start],
) -> Result<Vec<Start>, NoMemory>
    ensures { IfOk result (λ v. v.items ≡ remaining gone.now starts.now) }
{
    let mut kept = Vec::new(alloc);
    for s in starts {
        if !gone.is_gone(s.piece) {
            kept.push(*s)?;
        }
    }
    Ok(kept)
}

// How wide a square should be: about two starts in each, were they spread out evenly.
fn find_side(starts: &[Start]) -> u64
    ensures some { 0 < result }
    ensures not_wide { result < 2 ^ 33 }
{
    let mut left = u64::MAX;
    let mut right = 0;
    let mut front = u64::MAX;
    let mut back = 0;
    for s in starts {
        let x = lifted(s.at.x);
        let y = lifted(s.at.y);
        left = left.min(x);
        right = right.max(x);
        front = front.min(y);
        back = back.max(y);
    }
    let width = right.saturating_sub(left).min(0xffff_ffff);
    let depth = back.saturating_sub(front).min(0xffff_ffff);
    let count = (starts.len() as u64).max(1);
    let even = isqrt(u128::from(width) * u128::from(depth) * 2 / u128::from(count));
    let least = width.max(depth) / count;
    even.max(least).max(1).min(0x1_0000_0000)
}

impl Grid {
    /// Starts, filed. Their numbers have 32 bits: more than that find no room.
    pub(crate) fn of(alloc: Global, starts: Vec<Start>) -> Result<Grid, NoMemory>
        ensures starts { IfOk result (λ g. g.starts.items ≡ starts.items) }
        ensures grid { IfOk result IsGrid }
    {
        if starts.len() > u32::MAX as usize {
            return Err(NoMemory);
        }
        let side = find_side(starts.as_slice());
        let mut squares = empty_squares(alloc, starts.len() / 2 + 1)?;
        file_all(squares.as_mut_slice(), side, starts.as_slice())?;
        Ok(Grid {
            starts,
            side,
            squares,
        })
    }
}

/// Files anew what remains, where that is due.
pub(crate) fn refile(
    alloc: Global,
    grid: &mut Grid,
    gone: &Marks,
    is_due: bool,
) -> Result<(), NoMemory>
    requires { IsGrid grid.old }
    ensures grid { OnOk result (IsGrid grid.new) }
    ensures same { OnOk result (remaining gone.now grid.new.starts.items ≡ remaining gone.now grid.old.starts.items) }
    ensures known { OnOk result ((n : ℕ) → Known n grid.old.starts.items → Known n grid.new.starts.items) }
{
    if is_due {
        let kept = remaining(alloc, gone, grid.starts.as_slice())?;
        *grid = Grid::of(alloc, kept)?;
    }
    Ok(())
}
