// Points by numbers, one for those that are equal.

ghost use Rattle.std.specs.Prelude.{◌≡◌, ◌+◌, ◌<◌, ◌≤◌, ℕ, List, length, IfOk, slice_index_or};
ghost use Rattle.std.specs.List.Sorted.{IsPermutation};
ghost use Rattle.chain_core.specs.Inner.Nodes.{above_least, key_of, IsKeyable, point_at, keyed_from, AreRising, IsHead, key_at, AreNodes};

use slice_base::{NoMemory, Pt};
use std::alloc::Global;

// A point's key, and its index in the list.
#[derive(Clone, Copy)]
pub(crate) struct Keyed {
    key: u64,
    index: usize,
}

// A coordinate.
#[derive(Clone, Copy)]
struct Coordinate {
    at: i32,
}

// How far it stands above the least one.
fn above_least(x: Coordinate) -> u32
    ensures { result ≡ above_least x.at }
{
    (x.at as i64 + 2_147_483_648).unsigned_abs() as u32
}

// Both coordinates in one number.
fn key_of(p: Pt) -> u64
    ensures key { result ≡ key_of p }
    ensures keyable { IsKeyable p }
{
    above_least(Coordinate { at: p.y }) as u64 * 4_294_967_296
        + above_least(Coordinate { at: p.x }) as u64
}

fn with_keys(alloc: Global, points: &[Pt]) -> Result<Vec<Keyed>, NoMemory>
    ensures keyed { IfOk result (λ all. all.items ≡ keyed_from 0 points.now) }
    ensures keyable { IfOk result (λ all. (k : ℕ) → k < length points.now → IsKeyable (point_at points.now k)) }
{
    let mut all = Vec::with_capacity(alloc, points.len())?;
    for index in 0..points.len() {
        all.push(Keyed {
            key: key_of(points[index]),
            index,
        })?;
    }
    Ok(all)
}

fn sorted(alloc: Global, points: &[Pt]) -> Result<Vec<Keyed>, NoMemory>
    ensures moved { IfOk result (λ all. IsPermutation (keyed_from 0 points.now) all.items) }
    ensures rising { IfOk result (λ all. AreRising all.items) }
    ensures keyable { IfOk result (λ all. (k : ℕ) → k < length points.now → IsKeyable (point_at points.now k)) }
{
    let mut all = with_keys(alloc, points)?;
    all.sort_unstable_by_key(|e| e.key);
    Ok(all)
}

// The first one with the key of the one at `rank`, where `head` is that of the one in front.
fn next_head(all: &[Keyed], head: usize, rank: usize) -> usize
    requires within { rank < length all.now }
    requires rising { AreRising all.now }
    requires head { IsHead all.now head rank }
    ensures within { result ≤ rank }
    ensures alike { key_at all.now result ≡ key_at all.now rank }
    ensures head { IsHead all.now result (rank + 1) }
{
    if all[head].key == all[rank].key {
        head
    } else {
        rank
    }
}

// The number of each point.
pub(crate) fn nodes_of(alloc: Global, points: &[Pt]) -> Result<Vec<usize>, NoMemory>
    ensures { IfOk result (λ nodes. AreNodes points.now nodes.items) }
{
    let all = sorted(alloc, points)?;
    let mut nodes = vec![in alloc; 0; points.len()]?;
    let mut head = 0;
    for rank in 0..all.len() {
        head = next_head(all.as_slice(), head, rank);
        nodes[all[rank].index] = head;
    }
    Ok(nodes)
}
