// Bundles with the winding numbers that all edges give them. The bundles stand by strips of heights, in each from
// left to right, so that an edge finds in each strip that it goes through those to its left by halves, and counts for
// all of them at once.

ghost use Rattle.std.specs.Prelude.{◌≡◌, ◌+◌, ◌-◌, ◌*◌, ◌/◌, ◌<◌, ◌≤◌, ◌^◌, ◌++◌, ℕ, pos, ◌+ℤ◌, ◌≤ℤ◌, true, false, List, [], length, cond, nat_lt, nat_le, slice_index_or, IfOk};
ghost use Rattle.std.specs.List.{All};
ghost use Rattle.clip_core.specs.Bundles.{bundle_of};
ghost use Rattle.clip_core.specs.Windings.{share_of, none};
ghost use Rattle.clip_core.specs.Inner.Small.{AreSmall};
ghost use Rattle.clip_core.specs.Inner.Rays.{strip_of, strip_at, is_under, is_up_to, is_below, is_up_to_key, ray_with};
ghost use Rattle.clip_core.specs.Inner.Rays.{AreRising, AreInStrip, IsKeyed, IsSmallRay, IsBareOf, IsBare, IsRayOf, IsTold, HaveRays};
ghost use Rattle.clip_core.specs.Inner.Slopes.{IsSlope, IsBreadth};
ghost use Rattle.clip_core.specs.Inner.Members.{IsMember};
ghost use Rattle.clip_core.specs.Inner.Spots.{IsSpotOf, IsRayAt, AreAt};
ghost use Rattle.clip_core.specs.Inner.Starts.{AreFirsts};
ghost use Rattle.clip_core.specs.Inner.Raises.{AllSmall, Adds, AreWith, AreFull};
ghost use Rattle.clip_core.specs.declared.windings.Windings.{Windings};

use crate::bundles::{Bundle, bundle_of};
use crate::raises::{lift, raise};
use crate::slopes::{Slope, meets_ray, slope_of};
use crate::spots::{Spot, sorted_spots};
use crate::starts::{Starts, first_up, starts_of};
use crate::strips::{Breadth, breadth_of, key_in, strip_bits, strip_of};
use crate::windings::{Windings, add_if, is_level, nones, share};
use edge_cut::Marked;
use slice_base::NoMemory;
use std::alloc::Global;

/// A bundle with a key that it is ordered by, its index among all bundles, and the winding sum at its midpoint.
#[derive(Clone, Copy)]
pub(crate) struct Ray {
    pub(crate) key: u64,
    pub(crate) bundle: Bundle,
    pub(crate) index: usize,
    pub(crate) sum: Windings,
}

// An edge's slope, what it counts, the strips of its ends, and how far across these stand, where strips are two to the
// power of `bits` high.
#[derive(Clone, Copy)]
struct Member {
    slope: Slope,
    share: Windings,
    first: u64,
    last: u64,
    breadth: Breadth,
    bits: u32,
}

fn member_of(m: Marked, bits: u32) -> Member
    requires bits_from { 2 ≤ bits }
    requires bits_to { bits ≤ 40 }
    ensures ends { result.slope.ends ≡ bundle_of m.edge }
    ensures share { result.share ≡ share_of m }
    ensures bits { result.bits ≡ bits }
    ensures is { IsMember result }
{
    let ends = bundle_of(m.edge);
    Member {
        slope: slope_of(ends),
        share: share(m),
        first: strip_of(ends.low.y, ends.low.y, bits),
        last: strip_of(ends.high.y, ends.high.y, bits),
        breadth: breadth_of(ends),
        bits,
    }
}

pub(crate) fn strip_at(r: Ray) -> u64
    ensures exact { result ≡ strip_at r }
    ensures small { result < 2147483648 }
{
    r.key / 8_589_934_592
}

pub(crate) fn is_under(strip: u64, r: Ray) -> bool
    ensures { result ≡ is_under strip r }
{
    strip_at(r) < strip
}

fn is_up_to(strip: u64, r: Ray) -> bool
    ensures { result ≡ is_up_to strip r }
{
    strip_at(r) <= strip
}

fn ray_with(m: Member, r: Ray) -> Ray
    requires member { IsMember m }
    requires ray_small { IsSmallRay (2 ^ 62) r }
    ensures { result ≡ ray_with m.slope.ends m.share r }
{
    Ray {
        sum: add_if(r.sum, meets_ray(m.slope, r.bundle), m.share),
        ..r
    }
}

// Adds the edge to the ray at `i`.
fn add_one(rays: &mut [Ray], i: usize, m: Member)
    requires inside { i < length rays.old }
    requires member { IsMember m }
    requires small { All (IsSmallRay (2 ^ 62)) rays.old }
    ensures { (raises : List Windings) → Adds m.slope.ends m.share i (i + 1) rays.old raises rays.new raises }
{
    rays[i] = ray_with(m, rays[i]);
}

fn is_below(key: u64, r: Ray) -> bool
    ensures { result ≡ is_below key r }
{
    r.key < key
}

// The rays from `low` on may have keys below some key, and those from `high` on don't.
#[derive(Clone, Copy)]
struct Bounds {
    low: usize,
    high: usize,
}

// As many, or none.
fn many_if(counts: bool, many: usize) -> usize
    ensures { result ≡ cond counts many 0 }
{
    counts as usize * many
}

// Half of the bounds, in which the first ray stands whose key isn't below this one. Either half is as long, so that how
// often bounds are halved can be guessed.
fn halved(rays: &[Ray], bounds: Bounds, key: u64) -> Bounds
    requires some { bounds.low + 2 ≤ bounds.high }
    requires within { bounds.high ≤ length rays.now }
    requires rising { AreRising rays.now }
    ensures later { bounds.low ≤ result.low }
    ensures within { result.high ≤ bounds.high }
    ensures ordered { result.low ≤ result.high }
    ensures less { result.high - result.low < bounds.high - bounds.low }
    ensures below { (k : ℕ) (d : Ray) → bounds.low ≤ k → k < result.low
        → is_below key (slice_index_or rays.now k d) ≡ true }
{
    let half = (bounds.high - bounds.low) / 2;
    let passed = many_if(is_below(key, rays[bounds.low + half - 1]), half);
    Bounds {
        low: bounds.low + passed,
        high: bounds.high - half + passed,
    }
}

// So many rays are counted one by one, always as many: a count has no branch that would have to be guessed.
const FEW: usize = 16;

// One more, or as many, without a branch.
fn more_if(more: bool, count: usize) -> usize
    requires { count < 2 ^ 63 }
    ensures { result ≡ cond more (count + 1) count }
{
    count + more as usize
}

// The first ray from `i` up to `end` whose key isn't below this one: as many are below as stand before it.
fn counted_at(rays: &[Ray], i: usize, end: usize, key: u64) -> usize
    requires some { i ≤ end }
    requires within { end ≤ length rays.now }
    requires few { length rays.now ≤ 100000 }
    requires rising { AreRising rays.now }
    ensures later { i ≤ result }
    ensures within { result ≤ end }
    ensures below { (k : ℕ) (d : Ray) → i ≤ k → k < result → is_below key (slice_index_or rays.now k d) ≡ true }
{
    let mut to = i;
    for k in i..end {
        to = more_if(is_below(key, rays[k]), to);
    }
    to
}

// The first ray from `i` up to `end` whose key isn't below this one.
fn first_at(rays: &[Ray], i: usize, end: usize, key: u64) -> usize
    requires some { i ≤ end }
    requires within { end ≤ length rays.now }
    requires few { length rays.now ≤ 100000 }
    requires rising { AreRising rays.now }
    ensures later { i ≤ result }
    ensures within { result ≤ end }
    ensures below { (k : ℕ) (d : Ray) → i ≤ k → k < result → is_below key (slice_index_or rays.now k d) ≡ true }
{
    let mut bounds = Bounds { low: i, high: end };
    'halves: while bounds.high - bounds.low > FEW {
        bounds = halved(rays, bounds, key);
    }
    let few = (bounds.low + FEW).min(rays.len());
    counted_at(rays, bounds.low, few, key).min(end)
}

// Where the edge goes through the strip from its lower side to its upper one, it takes all rays to its left: raises
// those, and tells where the others begin.
fn add_left(
    rays: &[Ray],
    raises: &mut Vec<Windings>,
    i: usize,
    end: usize,
    strip: u64,
    m: Member,
) -> usize
    requires some { i ≤ end }
    requires within { end ≤ length rays.now }
    requires few { length rays.now ≤ 100000 }
    requires enough { length raises.old.items ≡ length rays.now + 1 }
    requires in_strip { AreInStrip strip i end rays.now }
    requires strip_small { strip < 2147483648 }
    requires rising { AreRising rays.now }
    requires keyed { All (IsKeyed m.bits) rays.now }
    requires member { IsMember m }
    requires small { All (AreSmall (2 ^ 61)) raises.old.items }
    ensures later { i ≤ result }
    ensures within { result ≤ end }
    ensures exact { Adds m.slope.ends m.share i result rays.now raises.old.items rays.now raises.new.items }
{
    if strip <= m.first || m.last <= strip {
        return i;
    }
    let to = first_at(rays, i, end, key_in(strip, m.breadth.left));
    raise(raises, i, to, m.share);
    to
}

fn is_up_to_key(key: u64, r: Ray) -> bool
    ensures { result ≡ is_up_to_key key r }
{
    r.key <= key
}

// Adds the edge to the rays from `i` up to `end` one by one, as far as their keys aren't above this one.
fn add_near(rays: &mut [Ray], i: usize, end: usize, key: u64, m: Member) -> usize
    requires some { i ≤ end }
    requires within { end ≤ length rays.old }
    requires few { length rays.old ≤ 100000 }
    requires member { IsMember m }
    requires small { All (IsSmallRay (2 ^ 60 + i)) rays.old }
    ensures later { i ≤ result }
    ensures within { result ≤ end }
    ensures exact { (raises : List Windings)
        → Adds m.slope.ends m.share i result rays.old raises rays.new raises }
    ensures past { (d : Ray) → result < end → is_up_to_key key (slice_index_or rays.new result d) ≡ false }
{
    let mut k = i;
    'near: while k < end && is_up_to_key(key, rays[k]) {
        add_one(rays, k, m);
        k += 1;
    }
    k
}

// Adds the edge to the rays from `i` up to `end`, all of this strip: those to its right stay as they are.
fn add_strip(
    rays: &mut Vec<Ray>,
    raises: &mut Vec<Windings>,
    i: usize,
    end: usize,
    strip: u64,
    m: Member,
)
    requires some { i ≤ end }
    requires within { end ≤ length rays.old.items }
    requires few { length rays.old.items ≤ 100000 }
    requires enough { length raises.old.items ≡ length rays.old.items + 1 }
    requires in_strip { AreInStrip strip i end rays.old.items }
    requires strip_small { strip < 2147483648 }
    requires rising { AreRising rays.old.items }
    requires keyed { All (IsKeyed m.bits) rays.old.items }
    requires member { IsMember m }
    requires small { AllSmall (2 ^ 60 + i) rays.old.items raises.old.items }
    ensures { Adds m.slope.ends m.share i end rays.old.items raises.old.items rays.new.items raises.new.items }
{
    let near = add_left(rays.as_slice(), raises, i, end, strip, m);
    add_near(
        rays.as_mut_slice(),
        near,
        end,
        key_in(strip, m.breadth.right),
        m,
    );
}

// Adds the edge to the rays of the strip of the one at `i`, and tells where it came to.
fn add_from(
    rays: &mut Vec<Ray>,
    raises: &mut Vec<Windings>,
    starts: &Starts,
    i: usize,
    m: Member,
) -> usize
    requires inside { i < length rays.old.items }
    requires few { length rays.old.items ≤ 100000 }
    requires enough { length raises.old.items ≡ length rays.old.items + 1 }
    requires starts { AreFirsts starts.now.base starts.now.firsts.items rays.old.items }
    requires rising { AreRising rays.old.items }
    requires keyed { All (IsKeyed m.bits) rays.old.items }
    requires member { IsMember m }
    requires small { AllSmall (2 ^ 60 + i) rays.old.items raises.old.items }
    ensures later { i < result }
    ensures within { result ≤ length rays.new.items }
    ensures exact { Adds m.slope.ends m.share i result rays.old.items raises.old.items rays.new.items raises.new.items }
{
    let strip = strip_at(rays[i]);
    let end = first_up(starts, strip + 1).max(i + 1);
    add_strip(rays, raises, i, end, strip, m);
    end
}

// The rays in strips below the edge and above it stay as they are, and all do where it is level.
fn add_edge(rays: &mut Vec<Ray>, raises: &mut Vec<Windings>, starts: &Starts, bits: u32, m: Marked)
    requires few { length rays.old.items ≤ 100000 }
    requires enough { length raises.old.items ≡ length rays.old.items + 1 }
    requires starts { AreFirsts starts.now.base starts.now.firsts.items rays.old.items }
    requires bits_from { 2 ≤ bits }
    requires bits_to { bits ≤ 40 }
    requires rising { AreRising rays.old.items }
    requires keyed { All (IsKeyed bits) rays.old.items }
    requires small { AllSmall (2 ^ 60) rays.old.items raises.old.items }
    ensures count { length rays.new.items ≡ length rays.old.items }
    ensures raises_count { length raises.new.items ≡ length raises.old.items }
    ensures exact { AreWith (bundle_of m.edge) (share_of m) rays.old.items raises.old.items
        rays.new.items raises.new.items }
    ensures small { (n : ℕ) → AllSmall n rays.old.items raises.old.items
        → AllSmall (n + 100000) rays.new.items raises.new.items }
{
    let member = member_of(m, bits);
    if is_level(member.slope.ends) {
        return;
    }
    let mut i = first_up(starts, member.first);
    'walk: while i < rays.len() && is_up_to(member.last, rays[i]) {
        i = add_from(rays, raises, starts, i, member);
    }
}

fn add_edges(
    rays: &mut Vec<Ray>,
    raises: &mut Vec<Windings>,
    starts: &Starts,
    bits: u32,
    all: &[Marked],
)
    requires few { length all.now ≤ 100000 }
    requires rays_few { length rays.old.items ≤ 100000 }
    requires enough { length raises.old.items ≡ length rays.old.items + 1 }
    requires flat { All (λ w. w ≡ none) raises.old.items }
    requires starts { AreFirsts starts.now.base starts.now.firsts.items rays.old.items }
    requires bits_from { 2 ≤ bits }
    requires bits_to { bits ≤ 40 }
    requires rising { AreRising rays.old.items }
    requires keyed { All (IsKeyed bits) rays.old.items }
    requires bare { All IsBare rays.old.items }
    ensures count { length rays.new.items ≡ length rays.old.items }
    ensures raises_count { length raises.new.items ≡ length raises.old.items }
    ensures exact { AreFull all.now rays.old.items rays.new.items raises.new.items }
    ensures small { AllSmall (2 ^ 40) rays.new.items raises.new.items }
{
    for m in all {
        add_edge(rays, raises, starts, bits, *m);
    }
}

fn ray_from(bundle: Bundle, spot: Spot) -> Ray
    ensures bundle { result.bundle ≡ bundle }
    ensures at { IsRayAt spot result }
    ensures bare { IsBare result }
{
    Ray {
        key: spot.key,
        bundle,
        index: spot.index as usize,
        sum: Windings {
            first: 0,
            second: 0,
        },
    }
}

// The ray of the bundle at the spot's index.
fn ray_of(bundles: &[Bundle], spot: Spot, bits: u32) -> Ray
    requires { IsSpotOf bits bundles.now spot }
    ensures of_bundle { IsBareOf bits bundles.now result }
    ensures at { IsRayAt spot result }
{
    ray_from(bundles[spot.index as usize], spot)
}

fn rays_from(
    alloc: Global,
    bundles: &[Bundle],
    spots: &[Spot],
    bits: u32,
) -> Result<Vec<Ray>, NoMemory>
    requires { All (IsSpotOf bits bundles.now) spots.now }
    ensures are { IfOk result (λ rays. All (IsBareOf bits bundles.now) rays.items) }
    ensures at { IfOk result (λ rays. AreAt spots.now rays.items) }
{
    let mut rays = Vec::with_capacity(alloc, spots.len())?;
    for k in 0..spots.len() {
        rays.push(ray_of(bundles, spots[k], bits))?;
    }
    Ok(rays)
}

fn sorted_rays(alloc: Global, bundles: &[Bundle], bits: u32) -> Result<Vec<Ray>, NoMemory>
    requires few { length bundles.now ≤ 100000 }
    requires bits_from { 2 ≤ bits }
    requires bits_to { bits ≤ 40 }
    ensures count { IfOk result (λ rays. length rays.items ≡ length bundles.now) }
    ensures are { IfOk result (λ rays. All (IsBareOf bits bundles.now) rays.items) }
    ensures each { IfOk result (λ rays. HaveRays bundles.now rays.items) }
    ensures rising { IfOk result (λ rays. AreRising rays.items) }
{
    let spots = sorted_spots(alloc, bundles, bits)?;
    let rays = rays_from(alloc, bundles, spots.as_slice(), bits)?;
    Ok(rays)
}

/// The rays of these bundles, with all edges added to them.
pub(crate) fn rays_of(
    alloc: Global,
    all: &[Marked],
    bundles: &[Bundle],
) -> Result<Vec<Ray>, NoMemory>
    requires edges_few { length all.now ≤ 100000 }
    requires bundles_few { length bundles.now ≤ 100000 }
    ensures told { IfOk result (λ rays. All (IsTold all.now bundles.now) rays.items) }
    ensures each { IfOk result (λ rays. HaveRays bundles.now rays.items) }
{
    let bits = strip_bits(bundles);
    let mut rays = sorted_rays(alloc, bundles, bits)?;
    let starts = starts_of(alloc, rays.as_slice())?;
    let mut raises = nones(alloc, rays.len() + 1)?;
    add_edges(&mut rays, &mut raises, &starts, bits, all);
    lift(&mut rays, raises.as_slice());
    Ok(rays)
}
