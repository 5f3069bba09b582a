// Strips of heights: midpoints stand strip by strip, and in each from left to right. Heights and places across are
// doubled.

ghost use Rattle.std.specs.Prelude.{◌≡◌, ◌≤◌, ◌<◌, ◌+◌, ◌*◌, ◌+ℤ◌};
ghost use Rattle.clip_core.specs.Inner.Rays.{above_least, strip_of, IsKeyOf};
ghost use Rattle.clip_core.specs.Inner.Slopes.{IsBreadth};

use crate::bundles::Bundle;

// How far the sum of two coordinates stands above the least one.
fn above_least(p: i32, q: i32) -> u64
    ensures exact { result ≡ above_least (p +ℤ q) }
    ensures small { result < 8589934592 }
{
    (p as i64 + q as i64 + 4_294_967_296).unsigned_abs()
}

/// The strip that holds the height between two.
pub(crate) fn strip_of(p: i32, q: i32, bits: u32) -> u64
    requires bits_from { 2 ≤ bits }
    requires bits_to { bits ≤ 40 }
    ensures exact { result ≡ strip_of bits (p +ℤ q) }
    ensures small { result < 2147483648 }
{
    above_least(p, q) >> bits
}

/// Orders by the strip of the bundle's midpoint, and then by how far across it stands.
pub(crate) fn key_of(b: Bundle, bits: u32) -> u64
    requires bits_from { 2 ≤ bits }
    requires bits_to { bits ≤ 40 }
    ensures { IsKeyOf bits b result }
{
    strip_of(b.low.y, b.high.y, bits) * 8_589_934_592 + above_least(b.low.x, b.high.x)
}

/// How far the end of an edge more to the left, and the one more to the right, stand above the least place.
#[derive(Clone, Copy)]
pub(crate) struct Breadth {
    pub(crate) left: u64,
    pub(crate) right: u64,
}

/// The breadth of the edge with these ends.
pub(crate) fn breadth_of(ends: Bundle) -> Breadth
    ensures { IsBreadth ends result }
{
    let low = above_least(ends.low.x, ends.low.x);
    let high = above_least(ends.high.x, ends.high.x);
    Breadth {
        left: low.min(high),
        right: low.max(high),
    }
}

/// The key of this place in a strip.
pub(crate) fn key_in(strip: u64, across: u64) -> u64
    requires strip_small { strip < 2147483648 }
    requires across_small { across < 8589934592 }
    ensures { result ≡ strip * 8589934592 + across }
{
    strip * 8_589_934_592 + across
}

// The height of all of them together.
fn extent(bundles: &[Bundle]) -> u64 {
    if bundles.is_empty() {
        return 0;
    }
    let mut low = bundles[0].low.y;
    let mut high = bundles[0].high.y;
    for b in bundles {
        low = low.min(b.low.y);
        high = high.max(b.high.y);
    }
    u64::from(high.abs_diff(low))
}

/// Strips are two to this power high, so that a shift tells them. An edge takes a search in each strip that it goes
/// through, and looks at half of the midpoints in the two where it ends: the height is about what makes both cost as
/// much, and so great that there are at most some two strips to a bundle. Any height is right.
pub(crate) fn strip_bits(bundles: &[Bundle]) -> u32
    ensures least { 2 ≤ result }
    ensures most { result ≤ 40 }
{
    let mut heights = 0u64;
    for b in bundles {
        heights = heights.saturating_add(u64::from(b.high.y.abs_diff(b.low.y)));
    }
    let count = (bundles.len() as u64).max(1);
    let extent = extent(bundles);
    let square = (heights / count).saturating_mul(extent) / count;
    let balanced = bits_in(square) / 2 + 2;
    bits_in(extent / count).max(balanced).clamp(2, 40)
}

fn bits_in(n: u64) -> u32 {
    64 - n.leading_zeros()
}
