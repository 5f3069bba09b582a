// The points where edges meet elsewhere than at their ends. Two edges whose boxes touch are compared once, for both.

ghost use Rattle.std.specs.Prelude.{◌≡◌, ◌+◌, ◌<◌, ◌≤◌, ◌++◌, [], ◌∷◌, ◌&&◌, not, false, length, OnOk, IfOk, option_to_list, slice_index_or};
ghost use Rattle.std.specs.List.{All};
ghost use Rattle.edge_cut.specs.Meeting.{meeting_of};
ghost use Rattle.edge_cut.specs.Inner.Columns.{AreRising, IsExtentOf, IsFileOf};
ghost use Rattle.edge_cut.specs.Inner.Meetings.{Lists, ListsBoth, Keeps, Compares, AreMeetings, ComparedUpTo, ComparedBelow, AreListed, ByIndex};
ghost use Rattle.edge_cut.specs.Inner.News.{AreSettled};
ghost use Rattle.edge_cut.specs.Inner.Sides.{AreSides};

use crate::boxes::{Grid, are_apart};
use crate::columns::{Extent, Filed, is_up_to, limit_of, sorted};
use crate::crossings::end_on;
use crate::marks::near_of;
use crate::passes::Marked;
use crate::sides::{Sides, are_level, are_on_line, both_at_ends, is_end, meeting_of, sides_of};
use slice_base::{Edge, NoMemory, Pt};
use std::alloc::Global;

/// The edge at the index meets another one at the point.
#[derive(Clone, Copy)]
pub(crate) struct Meeting {
    pub(crate) index: u32,
    pub(crate) at: Pt,
}

/// The most meetings that are listed: 96 MB. Edges with more of them are too tangled.
const MOST_MEETINGS: usize = 8_000_000;

/// Why meetings weren't listed.
#[derive(Clone, Copy)]
pub(crate) enum MeetingFault {
    /// There are more than 8,000,000.
    TooMany,
    /// There was no memory for them.
    NoMemory,
}

impl From<NoMemory> for MeetingFault {
    fn from(_: NoMemory) -> Self {
        MeetingFault::NoMemory
    }
}

fn with_room(alloc: Global, count: usize) -> Result<Vec<Meeting>, NoMemory>
    ensures { IfOk result (λ meetings. meetings.items ≡ []) }
{
    Ok(Vec::with_capacity(alloc, count)?)
}

fn push(meetings: &mut Vec<Meeting>, meeting: Meeting) -> Result<(), NoMemory>
    ensures { OnOk result (meetings.new.items ≡ meetings.old.items ++ meeting ∷ []) }
{
    meetings.push(meeting)?;
    Ok(())
}

fn push_one(meetings: &mut Vec<Meeting>, meeting: Meeting) -> Result<(), MeetingFault>
    ensures { OnOk result (meetings.new.items ≡ meetings.old.items ++ meeting ∷ []) }
{
    if meetings.len() >= MOST_MEETINGS {
        return Err(MeetingFault::TooMany);
    }
    push(meetings, meeting)?;
    Ok(())
}

// An edge, and its index.
#[derive(Clone, Copy)]
struct Placed {
    index: u32,
    edge: Edge,
}

// Lists the point for the edge, unless it's one of its ends.
fn push_point(meetings: &mut Vec<Meeting>, a: Placed, p: Pt) -> Result<(), MeetingFault>
    ensures { OnOk result (Lists a.edge a.index (p ∷ []) meetings.old.items meetings.new.items) }
{
    if is_end(a.edge, p) {
        return Ok(());
    }
    push_one(
        meetings,
        Meeting {
            index: a.index,
            at: p,
        },
    )?;
    Ok(())
}

fn push_any(meetings: &mut Vec<Meeting>, a: Placed, p: Option<Pt>) -> Result<(), MeetingFault>
    ensures { OnOk result (Lists a.edge a.index (option_to_list p) meetings.old.items meetings.new.items) }
{
    if let Some(p) = p {
        push_point(meetings, a, p)?;
    }
    Ok(())
}

// Lists the ends of a parallel edge that lie on this one.
fn push_shared(
    meetings: &mut Vec<Meeting>,
    a: Placed,
    f: Edge,
    sides: Sides,
) -> Result<(), MeetingFault>
    requires are { AreSides a.edge f sides }
    requires level { sides.from ≡ sides.to }
    ensures { OnOk result (Lists a.edge a.index (meeting_of a.edge f) meetings.old.items meetings.new.items) }
{
    if !are_on_line(sides) {
        return Ok(());
    }
    push_any(meetings, a, end_on(a.edge, f.from))?;
    push_any(meetings, a, end_on(a.edge, f.to))?;
    Ok(())
}

// Each of two parallel edges by itself.
fn push_parallel(
    meetings: &mut Vec<Meeting>,
    a: Placed,
    b: Placed,
    sides: Sides,
) -> Result<(), MeetingFault>
    requires are { AreSides a.edge b.edge sides }
    requires level { sides.from ≡ sides.to }
    ensures { OnOk result (ListsBoth a.edge b.edge a.index b.index meetings.old.items meetings.new.items) }
{
    push_shared(meetings, a, b.edge, sides)?;
    push_shared(meetings, b, a.edge, sides_of(b.edge, a.edge))?;
    Ok(())
}

// The one meeting point for both edges.
fn push_both(
    meetings: &mut Vec<Meeting>,
    a: Placed,
    b: Placed,
    p: Option<Pt>,
) -> Result<(), MeetingFault>
    requires forth { option_to_list p ≡ meeting_of a.edge b.edge }
    requires back { option_to_list p ≡ meeting_of b.edge a.edge }
    ensures { OnOk result (ListsBoth a.edge b.edge a.index b.index meetings.old.items meetings.new.items) }
{
    push_any(meetings, a, p)?;
    push_any(meetings, b, p)?;
    Ok(())
}

// Lists the meeting points of two edges for both.
fn push_meetings(meetings: &mut Vec<Meeting>, a: Placed, b: Placed) -> Result<(), MeetingFault>
    ensures { OnOk result (ListsBoth a.edge b.edge a.index b.index meetings.old.items meetings.new.items) }
{
    let sides = sides_of(a.edge, b.edge);
    if are_level(sides) {
        return push_parallel(meetings, a, b, sides);
    }
    let others = sides_of(b.edge, a.edge);
    push_both(meetings, a, b, meeting_of(a.edge, b.edge, sides, others))
}

// Few edges come here: kept out of the walk over boxes, which is slower with it.
#[inline(never)]
fn push_met(meetings: &mut Vec<Meeting>, all: &[Marked], i: u32, j: u32) -> Result<(), MeetingFault>
    requires i_in { i < length all.now }
    requires j_in { j < length all.now }
    ensures { OnOk result (Compares all.now i j meetings.old.items meetings.new.items) }
{
    let a = Placed {
        index: i,
        edge: all[i as usize].edge,
    };
    let b = Placed {
        index: j,
        edge: all[j as usize].edge,
    };
    push_meetings(meetings, a, b)?;
    Ok(())
}

// Most edges whose boxes touch are known to meet at ends alone without a meeting point.
fn push_compared(
    meetings: &mut Vec<Meeting>,
    all: &[Marked],
    i: u32,
    j: u32,
) -> Result<(), MeetingFault>
    requires i_in { i < length all.now }
    requires j_in { j < length all.now }
    ensures { OnOk result (Compares all.now i j meetings.old.items meetings.new.items) }
{
    if both_at_ends(all[i as usize], all[j as usize]) {
        return Ok(());
    }
    push_met(meetings, all, i, j)
}

// Two edges that aren't new meet at their ends alone.
fn are_old(news: &[bool], i: u32, j: u32) -> bool
    requires i_in { i < length news.now }
    requires j_in { j < length news.now }
    ensures { result ≡ (not (slice_index_or news.now i false) && not (slice_index_or news.now j false)) }
{
    !news[i as usize] && !news[j as usize]
}

fn compare(
    meetings: &mut Vec<Meeting>,
    all: &[Marked],
    news: &[bool],
    lies: bool,
    a: Extent,
    b: Extent,
) -> Result<(), MeetingFault>
    requires settled { AreSettled all.now news.now }
    requires a_is { IsExtentOf lies all.now a }
    requires b_is { IsExtentOf lies all.now b }
    ensures { OnOk result (Compares all.now a.index b.index meetings.old.items meetings.new.items) }
{
    if are_apart(a.across, b.across) {
        return Ok(());
    }
    if are_old(news, a.index, b.index) {
        return Ok(());
    }
    push_compared(meetings, all, a.index, b.index)
}

// Compares the box at `r` with those behind it in its column.
#[inline(never)]
fn compare_from(
    meetings: &mut Vec<Meeting>,
    all: &[Marked],
    news: &[bool],
    lies: bool,
    files: &[Filed],
    r: usize,
) -> Result<(), MeetingFault>
    requires settled { AreSettled all.now news.now }
    requires within { r < length files.now }
    requires rising { AreRising files.now }
    requires are { All (IsFileOf lies all.now) files.now }
    ensures kept { OnOk result (Keeps meetings.old.items meetings.new.items) }
    ensures compared { OnOk result (ComparedUpTo all.now meetings.new.items files.now r (length files.now)) }
    ensures are { OnOk result (AreMeetings all.now meetings.old.items → AreMeetings all.now meetings.new.items) }
{
    let limit = limit_of(files[r]);
    let mut s = r + 1;
    'walk: while s < files.len() && is_up_to(files[s], limit) {
        compare(meetings, all, news, lies, files[r].extent, files[s].extent)?;
        s += 1;
    }
    Ok(())
}

fn meetings_of(
    alloc: Global,
    all: &[Marked],
    news: &[bool],
    lies: bool,
    files: &[Filed],
) -> Result<Vec<Meeting>, MeetingFault>
    requires settled { AreSettled all.now news.now }
    requires rising { AreRising files.now }
    requires are { All (IsFileOf lies all.now) files.now }
    ensures compared { IfOk result (λ meetings. ComparedBelow all.now meetings.items files.now (length files.now)) }
    ensures are { IfOk result (λ meetings. AreMeetings all.now meetings.items) }
{
    let mut meetings = with_room(alloc, all.len())?;
    for r in 0..files.len() {
        compare_from(&mut meetings, all, news, lies, files, r)?;
    }
    Ok(meetings)
}

/// All meetings of these edges with each other but for those at own ends, by the indices of the edges, some of them
/// maybe more than once. `lies` says along which axis the boxes are taken, `bits` how wide the columns across it are,
/// and `grid` by which cells edges are known to be far from new ones: any are right, and some may be fast.
pub(crate) fn find_meetings(
    alloc: Global,
    all: &[Marked],
    news: &[bool],
    lies: bool,
    bits: u32,
    grid: Grid,
) -> Result<Vec<Meeting>, MeetingFault>
    requires few { length all.now ≤ 100000 }
    requires settled { AreSettled all.now news.now }
    ensures listed { IfOk result (λ meetings. AreListed all.now meetings.items) }
    ensures are { IfOk result (λ meetings. AreMeetings all.now meetings.items) }
    ensures rising { IfOk result (λ meetings. ByIndex meetings.items) }
{
    let near = near_of(alloc, grid, all, news)?;
    let files = sorted(alloc, lies, bits, all, near.as_slice())?;
    let mut meetings = meetings_of(alloc, all, news, lies, files.as_slice())?;
    meetings.sort_unstable_by_key(|m| m.index);
    Ok(meetings)
}
