// Work that threads take number by number, whoever is free, so that none stands still while others have much left. No
// clause rests on the count that they take from: whatever it gives, each number's result is that of a call with it.

ghost use Rattle.std.specs.Prelude.{◌≡◌, ◌+◌, ◌<◌, ◌^◌, ℕ, Some, None, length, set, IfOk};
ghost use Rattle.std.specs.List.{All};
ghost use Rattle.std.specs.Fn.{FnReturns};
ghost use Rattle.area_stage.specs.Inner.Taking.{IsDone, IsSlot, AreSlots, GivesFrom};

use slice_base::NoMemory;
use std::alloc::Global;
use std::sync::atomic::{AtomicU64, Ordering};
use std::thread;
use std::thread::Threads;

/// What was worked out for a number, and how far the number stands behind the first one.
#[derive(Drop)]
struct Done<X> {
    index: u32,
    result: X,
}

// Works out a number.
fn done_at<X: Drop, F: Fn(u32) -> X>(f: &F, from: u32, count: u32, index: u32) -> Done<X>
    requires room { from + count < 2 ^ 32 }
    requires below { index < count }
    requires accepts { (k : ℕ) → k < from + count → F.pre f.now k }
    ensures { IsDone F.Fn f.now from count result }
{
    Done {
        index,
        result: f(from + index),
    }
}

// Takes numbers and works them out while some are left.
fn take_each<X: Drop, F: Fn(u32) -> X>(
    alloc: Global,
    next: &AtomicU64,
    from: u32,
    count: u32,
    f: &F,
) -> Result<Vec<Done<X>>, NoMemory>
    requires room { from + count < 2 ^ 32 }
    requires accepts { (k : ℕ) → k < from + count → F.pre f.now k }
    ensures { IfOk result (λ pile. All (IsDone F.Fn f.now from count) pile.items) }
{
    let mut pile = Vec::new(alloc);
    for _ in 0..count {
        let index = next.fetch_add(1, Ordering::SeqCst);
        if index >= count as u64 {
            return Ok(pile);
        }
        pile.push(done_at(f, from, count, index as u32))?;
    }
    Ok(pile)
}

// What each of so many threads worked out.
fn piles<R: Threads + Sync, X: Send + Drop, F: Fn(u32) -> X + Sync>(
    rt: &R,
    alloc: Global,
    threads: u32,
    from: u32,
    count: u32,
    f: &F,
) -> Result<Vec<Result<Vec<Done<X>>, NoMemory>>, NoMemory>
    requires room { from + count < 2 ^ 32 }
    requires accepts { (k : ℕ) → k < from + count → F.pre f.now k }
    ensures { IfOk result (λ piles. All (λ pile. IfOk pile
        (λ p. All (IsDone F.Fn f.now from count) p.items)) piles.items) }
{
    let next = AtomicU64::new(0);
    let part = |_thread: usize| -> Result<Vec<Done<X>>, NoMemory>
        requires { (from + count < 2 ^ 32) × ((k : ℕ) → k < from + count → F.pre f.now k) }
        ensures { IfOk result (λ p. All (IsDone F.Fn f.entry.now from count) p.items) }
    { take_each(alloc, &next, from, count, f) };
    Ok(thread::map_indices(rt, alloc, threads as usize, &part)?)
}

// So many slots, all empty.
fn no_slots<X: Drop>(alloc: Global, count: u32) -> Result<Vec<Option<X>>, NoMemory>
    ensures len { IfOk result (λ slots. length slots.items ≡ count) }
    ensures none { IfOk result (λ slots. All (λ s. s ≡ None) slots.items) }
{
    let mut slots = Vec::with_capacity(alloc, count as usize)?;
    for _ in 0..count {
        slots.push(None)?;
    }
    Ok(slots)
}

// Puts a result into its slot.
fn put<X: Drop>(slots: &mut Vec<Option<X>>, done: Done<X>)
    requires { done.index < length slots.old.items }
    ensures { slots.new.items ≡ set slots.old.items done.index (Some done.result) }
{
    slots[done.index as usize] = Some(done.result);
}

// Puts a pile into the slots.
fn put_pile<X: Drop, F: Fn(u32) -> X>(
    slots: &mut Vec<Option<X>>,
    pile: Vec<Done<X>>,
    from: u32,
    f: &F,
)
    requires done { All (IsDone F.Fn f.now from (length slots.old.items)) pile.items }
    requires slots { AreSlots F.Fn f.now from slots.old.items }
    ensures len { length slots.new.items ≡ length slots.old.items }
    ensures slots { AreSlots F.Fn f.now from slots.new.items }
{
    for done in pile {
        put(slots, done);
    }
}

// Puts all piles into the slots.
fn put_piles<X: Drop, F: Fn(u32) -> X>(
    slots: &mut Vec<Option<X>>,
    piles: Vec<Result<Vec<Done<X>>, NoMemory>>,
    from: u32,
    f: &F,
) -> Result<(), NoMemory>
    requires done { All (λ pile. IfOk pile
        (λ p. All (IsDone F.Fn f.now from (length slots.old.items)) p.items)) piles.items }
    requires slots { AreSlots F.Fn f.now from slots.old.items }
    ensures len { length slots.new.items ≡ length slots.old.items }
    ensures slots { AreSlots F.Fn f.now from slots.new.items }
{
    for pile in piles {
        put_pile(slots, pile?, from, f);
    }
    Ok(())
}

// What a slot holds. An empty one, which the count leaves nowhere, is worked out here.
fn result_at<X: Drop, F: Fn(u32) -> X>(f: &F, from: u32, index: u32, slot: Option<X>) -> X
    requires room { from + index < 2 ^ 32 }
    requires accepts { F.pre f.now (from + index) }
    requires slot { IsSlot F.Fn f.now from index slot }
    ensures { FnReturns F.Fn f.now (from + index, tt) result }
{
    match slot {
        Some(result) => result,
        None => f(from + index),
    }
}

// What the slots hold, in their order.
fn results_of<X: Drop, F: Fn(u32) -> X>(
    alloc: Global,
    f: &F,
    from: u32,
    slots: Vec<Option<X>>,
) -> Result<Vec<X>, NoMemory>
    requires room { from + length slots.items < 2 ^ 32 }
    requires accepts { (k : ℕ) → k < from + length slots.items → F.pre f.now k }
    requires slots { AreSlots F.Fn f.now from slots.items }
    ensures len { IfOk result (λ results. length results.items ≡ length slots.items) }
    ensures each { IfOk result (λ results. GivesFrom F.Fn f.now from results.items) }
{
    let mut results = Vec::with_capacity(alloc, slots.len())?;
    for slot in slots {
        let index = results.len() as u32;
        results.push(result_at(f, from, index, slot))?;
    }
    Ok(results)
}

/// What `f` gives for so many numbers from `from` on, in their order, worked out by so many threads.
pub(crate) fn worked_out<R: Threads + Sync, X: Send + Drop, F: Fn(u32) -> X + Sync>(
    rt: &R,
    alloc: Global,
    threads: u32,
    from: u32,
    count: u32,
    f: &F,
) -> Result<Vec<X>, NoMemory>
    requires room { from + count < 2 ^ 32 }
    requires accepts { (k : ℕ) → k < from + count → F.pre f.now k }
    ensures len { IfOk result (λ results. length results.items ≡ count) }
    ensures each { IfOk result (λ results. GivesFrom F.Fn f.now from results.items) }
{
    let piles = piles(rt, alloc, threads, from, count, f)?;
    let mut slots = no_slots(alloc, count)?;
    put_piles(&mut slots, piles, from, f)?;
    results_of(alloc, f, from, slots)
}
