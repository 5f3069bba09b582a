// The index: neighbours in the list are taken together in blocks, each with a span that holds them all, so
// that a question passes over whole blocks.

ghost use Rattle.std.specs.List.{All};
ghost use Rattle.std.specs.Prelude.{◌≡◌, ◌+◌, ◌≤◌, ◌<◌, ◌^◌, ◌++◌, ◌&&◌, [], length, drop, OnOk, IfOk, int_le, int_lt, ◌+ℤ◌};
ghost use Rattle.clip_bands.specs.Indices.{touches, holds, indices};
ghost use Rattle.clip_bands.specs.Inner.Blocks.{index_if, Covers, IsHull, Hulls, FindsBlock};

use std::alloc::{AllocError, AllocFailed, Global};
use std::marker::Model;

/// There was no memory for the result. What was lent to the call is as before.
#[derive(Clone, Copy, PartialEq, Eq, Debug)]
pub struct NoMemory;

impl From<AllocError> for NoMemory {
    fn from(_: AllocError) -> Self {
        NoMemory
    }
}

impl<T: Drop> From<AllocFailed<T>> for NoMemory {
    fn from(_: AllocFailed<T>) -> Self {
        NoMemory
    }
}

/// The numbers from `low` to `high`, both included, in any unit; none where `low` is above `high`.
#[derive(Clone, Copy, PartialEq, Eq, Debug)]
pub struct Span {
    pub low: i32,
    pub high: i32,
}

/// An index of spans, seen as their list.
#[derive(Drop)]
pub struct Bands {
    spans: Vec<Span>,
    blocks: Vec<Span>,
}

impl Model for Bands {
    ghost use Rattle.std.specs.Prelude.{List, ◌<◌, ◌^◌, length};
    ghost use Rattle.clip_bands.specs.declared.bands.Span.{Span};
    ghost use Rattle.clip_bands.specs.Inner.Blocks.{Hulls};

    ghost Value = { List Span };

    ghost view = { λ a. a.spans.items };

    ghost invariant = { λ a. (length a.spans.items < 2 ^ 32) × Hulls a.spans.items a.blocks.items };
}

fn touches(s: Span, t: Span) -> bool
    ensures { result ≡ touches s t }
{
    s.low <= t.high && t.low <= s.high
}

// Twice the ends of a span, and twice a height.
#[derive(Clone, Copy)]
struct Heights {
    low: i64,
    at: i64,
    high: i64,
}

fn is_within(h: Heights) -> bool
    ensures { result ≡ (int_le h.low h.at && int_lt h.at h.high) }
{
    h.low <= h.at && h.at < h.high
}

fn twice(n: i32) -> i64
    ensures { result ≡ n +ℤ n }
{
    n as i64 + n as i64
}

fn holds(at: Height, s: Span) -> bool
    ensures { result ≡ holds at.twice s }
{
    is_within(Heights {
        low: twice(s.low),
        at: at.twice,
        high: twice(s.high),
    })
}

fn both(s: Span, t: Span) -> Span
    ensures first { Covers result s }
    ensures second { Covers result t }
    ensures grows { (u : Span) → Covers s u → Covers result u }
{
    Span {
        low: s.low.min(t.low),
        high: s.high.max(t.high),
    }
}

// The spans that stand in one block.
const WIDTH: usize = 16;

// A span that holds the ones from `from` on that stand in one block.
fn block_from(spans: &[Span], from: usize) -> Span
    requires { from < length spans.now }
    ensures { IsHull result spans.now from }
{
    let mut hull = spans[from];
    for i in from + 1..spans.len().min(from + WIDTH) {
        hull = both(hull, spans[i]);
    }
    hull
}

fn blocks_of(alloc: Global, spans: &[Span]) -> Result<Vec<Span>, NoMemory>
    ensures { IfOk result (λ blocks. Hulls spans.now blocks.items) }
{
    let mut blocks = Vec::new(alloc);
    for k in 0..spans.len().div_ceil(WIDTH) {
        blocks.push(block_from(spans, WIDTH * k))?;
    }
    Ok(blocks)
}

// Puts down an index that passed.
fn push_if(found: &mut Vec<u32>, passed: bool, index: usize) -> Result<(), NoMemory>
    requires { index < 2 ^ 32 }
    ensures { OnOk result (found.new.items ≡ found.old.items ++ index_if passed index) }
{
    if passed {
        found.push(index as u32)?;
    }
    Ok(())
}

fn find_near(
    found: &mut Vec<u32>,
    spans: &[Span],
    from: usize,
    block: Span,
    span: Span,
) -> Result<(), NoMemory>
    requires few { length spans.now < 2 ^ 32 }
    requires within { from ≤ length spans.now }
    requires hull { IsHull block spans.now from }
    ensures ok { OnOk result (FindsBlock (touches span) spans.now from found.old.items found.new.items) }
{
    if !touches(span, block) {
        return Ok(());
    }
    for i in from..spans.len().min(from + WIDTH) {
        push_if(found, touches(span, spans[i]), i)?;
    }
    Ok(())
}

// Twice a height.
#[derive(Clone, Copy)]
struct Height {
    twice: i64,
}

fn find_across(
    found: &mut Vec<u32>,
    spans: &[Span],
    from: usize,
    block: Span,
    at: Height,
) -> Result<(), NoMemory>
    requires few { length spans.now < 2 ^ 32 }
    requires within { from ≤ length spans.now }
    requires hull { IsHull block spans.now from }
    ensures ok { OnOk result (FindsBlock (holds at.twice) spans.now from found.old.items found.new.items) }
{
    if !holds(at, block) {
        return Ok(());
    }
    for i in from..spans.len().min(from + WIDTH) {
        push_if(found, holds(at, spans[i]), i)?;
    }
    Ok(())
}

fn near_in(alloc: Global, spans: &[Span], blocks: &[Span], span: Span) -> Result<Vec<u32>, NoMemory>
    requires few { length spans.now < 2 ^ 32 }
    requires hulls { Hulls spans.now blocks.now }
    ensures exact { IfOk result (λ found. found.items ≡ indices (touches span) spans.now) }
    ensures below { IfOk result (λ found. All (λ index. index < length spans.now) found.items) }
    ensures few { IfOk result (λ found. length found.items ≤ length spans.now) }
{
    let mut found = Vec::new(alloc);
    for k in 0..blocks.len() {
        find_near(&mut found, spans, WIDTH * k, blocks[k], span)?;
    }
    Ok(found)
}

fn across_in(
    alloc: Global,
    spans: &[Span],
    blocks: &[Span],
    at: Height,
) -> Result<Vec<u32>, NoMemory>
    requires few { length spans.now < 2 ^ 32 }
    requires hulls { Hulls spans.now blocks.now }
    ensures exact { IfOk result (λ found. found.items ≡ indices (holds at.twice) spans.now) }
    ensures below { IfOk result (λ found. All (λ index. index < length spans.now) found.items) }
    ensures few { IfOk result (λ found. length found.items ≤ length spans.now) }
{
    let mut found = Vec::new(alloc);
    for k in 0..blocks.len() {
        find_across(&mut found, spans, WIDTH * k, blocks[k], at)?;
    }
    Ok(found)
}

impl Bands {
    /// An index of these spans.
    pub fn make(alloc: Global, spans: &[Span]) -> Result<Bands, NoMemory>
        requires few { length spans.now < 2 ^ 32 }
        ensures { IfOk result (λ bands. bands ≡ spans.now) }
    {
        let blocks = blocks_of(alloc, spans)?;
        Ok(Bands {
            spans: Vec::from_slice(alloc, spans)?,
            blocks,
        })
    }

    /// The indices of all spans that share a number with `span`, rising.
    pub fn near(&self, alloc: Global, span: Span) -> Result<Vec<u32>, NoMemory>
        ensures exact { IfOk result (λ found. found.items ≡ indices (touches span) self.now) }
        ensures below { IfOk result (λ found. All (λ index. index < length self.now) found.items) }
        ensures few { IfOk result (λ found. length found.items ≤ length self.now) }
    {
        near_in(alloc, self.spans.as_slice(), self.blocks.as_slice(), span)
    }

    /// The indices of all spans with `2 * low <= twice < 2 * high`, rising: those that hold the height of
    /// which `twice` is the double, their upper ends left out.
    pub fn across(&self, alloc: Global, twice: i64) -> Result<Vec<u32>, NoMemory>
        ensures exact { IfOk result (λ found. found.items ≡ indices (holds twice) self.now) }
        ensures below { IfOk result (λ found. All (λ index. index < length self.now) found.items) }
        ensures few { IfOk result (λ found. length found.items ≤ length self.now) }
    {
        across_in(
            alloc,
            self.spans.as_slice(),
            self.blocks.as_slice(),
            Height { twice },
        )
    }
}
