// The heights and widths of edges.

ghost use Rattle.std.specs.Prelude.{◌≡◌, ◌≤◌, not, ◌&&◌, cond, int_le};
ghost use Rattle.clip_bands.specs.Indices.{touches};
ghost use Rattle.edge_cut.specs.Inner.Heights.{height_of, width_of};

use crate::passes::Marked;
use clip_bands::Span;
use slice_base::Edge;

/// An edge from its low height to its high one.
pub(crate) fn height(e: Edge) -> Span
    ensures { result ≡ height_of e }
{
    if e.from.y <= e.to.y {
        Span {
            low: e.from.y,
            high: e.to.y,
        }
    } else {
        Span {
            low: e.to.y,
            high: e.from.y,
        }
    }
}

/// An edge from its left end to its right one.
pub(crate) fn width(e: Edge) -> Span
    ensures { result ≡ width_of e }
{
    if e.from.x <= e.to.x {
        Span {
            low: e.from.x,
            high: e.to.x,
        }
    } else {
        Span {
            low: e.to.x,
            high: e.from.x,
        }
    }
}

pub(crate) fn are_apart(s: Span, t: Span) -> bool
    ensures { result ≡ not (touches s t) }
{
    !(s.low <= t.high && t.low <= s.high)
}

fn length(s: Span) -> u64 {
    u64::from(s.high.abs_diff(s.low))
}

fn union(s: Span, t: Span) -> Span {
    Span {
        low: s.low.min(t.low),
        high: s.high.max(t.high),
    }
}

/// The range of edges along each axis, and their lengths along it in all.
#[derive(Clone, Copy)]
pub(crate) struct Cover {
    count: u64,
    wide: Span,
    high: Span,
    widths: u64,
    heights: u64,
}

pub(crate) fn cover_of(all: &[Marked]) -> Cover {
    let none = Span { low: 0, high: 0 };
    let mut cover = Cover {
        count: 0,
        wide: none,
        high: none,
        widths: 0,
        heights: 0,
    };
    for m in all {
        cover = cover_with(cover, m.edge);
    }
    cover
}

fn cover_with(cover: Cover, e: Edge) -> Cover {
    let wide = width(e);
    let high = height(e);
    let first = cover.count == 0;
    Cover {
        count: cover.count.saturating_add(1),
        wide: if first { wide } else { union(cover.wide, wide) },
        high: if first { high } else { union(cover.high, high) },
        widths: cover.widths.saturating_add(length(wide)),
        heights: cover.heights.saturating_add(length(high)),
    }
}

// How often spans of this length in all cover a range, against others and theirs.
fn covers_more(all: u64, range: u64, others: u64, their_range: u64) -> bool {
    u128::from(all).wrapping_mul(u128::from(their_range))
        > u128::from(others).wrapping_mul(u128::from(range))
}

/// Whether the edges overlap more in x than in y, all in all. That decides along which axis boxes are
/// compared: of time alone.
pub(crate) fn is_wide(cover: Cover) -> bool {
    covers_more(
        cover.widths,
        length(cover.wide),
        cover.heights,
        length(cover.high),
    )
}

// Where so many boxes stand at one spot of the axis, columns are worth their while.
const MANY: u64 = 16;

fn are_many(lengths: u64, range: u64) -> bool {
    lengths / MANY > range
}

/// A grid whose cells are two to these powers wide and high.
#[derive(Clone, Copy)]
pub(crate) struct Grid {
    pub(crate) wide: u32,
    pub(crate) high: u32,
}

fn bits_in(n: u64) -> u32 {
    64 - n.leading_zeros()
}

// The power of two that is one to two times the length of a span.
fn length_bits(lengths: u64, count: u64) -> u32 {
    bits_in(lengths / count.max(1))
}

/// The grid whose cells are two to four times the size of an edge. Of time alone.
pub(crate) fn grid_of(cover: Cover) -> Grid {
    Grid {
        wide: length_bits(cover.widths, cover.count).saturating_add(1),
        high: length_bits(cover.heights, cover.count).saturating_add(1),
    }
}

// Of this power there is one column.
const ONE_COLUMN: u32 = 32;

// Four to eight times the length of an edge across, so that most edges lie in one column.
fn across_bits(lengths: u64, count: u64) -> u32 {
    length_bits(lengths, count)
        .saturating_add(2)
        .min(ONE_COLUMN)
}

/// Columns are two to this power wide: one holds all, unless many boxes overlap along the axis. Of time alone.
pub(crate) fn column_bits(cover: Cover, lies: bool) -> u32 {
    if lies && are_many(cover.widths, length(cover.wide)) {
        return across_bits(cover.heights, cover.count);
    }
    if !lies && are_many(cover.heights, length(cover.high)) {
        return across_bits(cover.widths, cover.count);
    }
    ONE_COLUMN
}
