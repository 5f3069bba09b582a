// A whole ring: the lock, the seats, the workers and the end.

ghost use Rattle.std.specs.Prelude.{◌≡◌, ◌+◌, ◌<◌, ◌≤◌, ◌++◌, ℕ, true, false, [], ◌∷◌, length, slice_index_or, All, None, Some, IsSomeAnd, IfOk, IfErr};
ghost use Rattle.std.specs.Vec.{vec_capacity};
ghost use Rattle.slice_base.specs.Causes.{Rose};
ghost use Rattle.slice_base.specs.Limits.{max_layers};
ghost use Rattle.ring_core.specs.Core.{IsRun, reached, stage, resting};
ghost use Rattle.ring_core.specs.Keeps.{Waits};
ghost use Rattle.ring_core.specs.Laws.{backs};
ghost use Rattle.layer_ring.specs.Inner.Seats.{SawEnd};
ghost use Rattle.layer_ring.specs.Inner.Seats.{HasWorked, made_seat, root_seat, AtEnd, Gathered};

use crate::crew::all_work;
use crate::ends::finish;
use outside::Gate;
use ring_core::{Consumer, Ended, Planner, RingState, Unmade};
use std::alloc::Global;
use std::sync::Wait;
use std::thread::Threads;
use turn_lock::{Kept, Seat, TurnLock, Unkept};

// The seats of the numbers 1 and up, put into a list that has room for them.
fn split_all<T: Kept>(
    lock: &TurnLock<T>,
    root: &mut Seat<T>,
    seats: &mut Vec<Seat<T>>,
    workers: u32,
)
    requires own { (root.old.lock ≡ lock.now.id) × (root.old.turn ≡ false) × (root.old.root ≡ true) }
    requires made { root.old.made ≡ 1 }
    requires some { 0 < workers }
    requires room { workers ≤ lock.now.seats }
    requires none { seats.old.items ≡ [] }
    requires reserved { workers ≤ vec_capacity seats.old }
    ensures root { root.new ≡ record root.old { made = workers } }
    ensures len { length seats.new.items + 1 ≡ workers }
    ensures room { vec_capacity seats.new ≡ vec_capacity seats.old }
    ensures each { (i : ℕ) (d : _) → i < length seats.new.items
        → slice_index_or seats.new.items i d ≡ made_seat root.old (i + 1) }
{
    'split: for number in 1..workers {
        let seat = lock.split(root);
        seats.push_reserved(seat);
    }
}

// All seats, the root last.
fn seats_of<T: Kept>(
    lock: &TurnLock<T>,
    mut root: Seat<T>,
    mut seats: Vec<Seat<T>>,
    workers: u32,
) -> Vec<Seat<T>>
    requires own { (root.lock ≡ lock.now.id) × (root.turn ≡ false) × (root.root ≡ true) }
    requires made { root.made ≡ 1 }
    requires some { 0 < workers }
    requires room { workers ≤ lock.now.seats }
    requires none { seats.items ≡ [] }
    requires reserved { workers ≤ vec_capacity seats }
    ensures len { length result.items ≡ workers }
    ensures last { (i : ℕ) (d : _) → i + 1 ≡ workers → slice_index_or result.items i d
        ≡ record root { made = workers } }
    ensures each { (i : ℕ) (d : _) → i + 1 < workers → slice_index_or result.items i d ≡ made_seat root (i + 1) }
{
    split_all(lock, &mut root, &mut seats, workers);
    seats.push_reserved(root);
    seats
}

// The same as `all_work`, over a list.
fn list_works<
    P: Planner + Drop + Send + Sync,
    C: Consumer<P::Plan, Name = P::Name> + Send,
    G: Gate + Sync,
    R: Threads + Wait + Sync,
>(
    rt: &R,
    alloc: Global,
    lock: &TurnLock<RingState<P, C>>,
    seats: &mut Vec<Seat<RingState<P, C>>>,
    planner: &P,
    gate: &G,
)
    requires some { 0 < length seats.old.items }
    requires ready { All (λ s. (s.lock ≡ lock.now.id) × (s.turn ≡ false)
        × IsSomeAnd s.name (λ n. (n.planner ≡ P.name planner.now) × (s.number < n.workers))
        × (stage s.number s.seen ≡ resting)) seats.old.items }
    ensures len { length seats.new.items ≡ length seats.old.items }
    ensures each { (i : ℕ) (d : _) → i < length seats.old.items
        → HasWorked (slice_index_or seats.old.items i d) (slice_index_or seats.new.items i d) }
{
    all_work(rt, alloc, lock, seats.as_mut_slice(), planner, gate);
}

// Makes the seats, and has all work. The root comes back, and the others.
fn work_all<
    P: Planner + Drop + Send + Sync,
    C: Consumer<P::Plan, Name = P::Name> + Send,
    G: Gate + Sync,
    R: Threads + Wait + Sync,
>(
    rt: &R,
    alloc: Global,
    lock: &TurnLock<RingState<P, C>>,
    root: Seat<RingState<P, C>>,
    seats: Vec<Seat<RingState<P, C>>>,
    layers: u32,
    workers: u32,
    planner: &P,
    gate: &G,
) -> (Seat<RingState<P, C>>, Vec<Seat<RingState<P, C>>>)
    requires root { root ≡ root_seat lock.now root.name }
    requires name { IsSomeAnd root.name (λ n. (n.planner ≡ P.name planner.now) × (n.layers ≡ layers)
        × (n.workers ≡ workers)) }
    requires some { 0 < workers }
    requires room { workers ≤ lock.now.seats }
    requires none { seats.items ≡ [] }
    requires reserved { workers ≤ vec_capacity seats }
    ensures root { result.0 ≡ record root { seen = result.0.seen; made = workers } }
    ensures ended { AtEnd lock.now layers 0 result.0 }
    ensures len { length result.1.items + 1 ≡ workers }
    ensures others { (i : ℕ) (d : _) → i < length result.1.items
        → AtEnd lock.now layers (i + 1) (slice_index_or result.1.items i d)
        × ((slice_index_or result.1.items i d).root ≡ false) }
{
    let mut seats = seats_of(lock, root, seats, workers);
    list_works(rt, alloc, lock, &mut seats, planner, gate);
    let Some(root) = seats.pop() else {
        unreachable!()
    };
    (root, seats)
}

// Joins the last of the others to the root.
fn join_last<P: Planner + Drop, C: Consumer<P::Plan, Name = P::Name>>(
    lock: &TurnLock<RingState<P, C>>,
    root: &mut Seat<RingState<P, C>>,
    others: &mut Vec<Seat<RingState<P, C>>>,
    layers: u32,
    count: usize,
)
    requires some { 0 < length others.old.items }
    requires own { (root.old.lock ≡ lock.now.id) × (root.old.turn ≡ false) }
    requires others { (i : ℕ) (d : _) → i < length others.old.items
        → AtEnd lock.now layers (i + 1) (slice_index_or others.old.items i d)
        × ((slice_index_or others.old.items i d).root ≡ false) }
    requires gathered { Gathered layers (length others.old.items) count root.old.covers root.old.seen }
    ensures root { root.new ≡ record root.old { covers = root.new.covers; seen = root.new.seen } }
    ensures len { length others.new.items + 1 ≡ length others.old.items }
    ensures others { (i : ℕ) (d : _) → i < length others.new.items
        → AtEnd lock.now layers (i + 1) (slice_index_or others.new.items i d)
        × ((slice_index_or others.new.items i d).root ≡ false) }
    ensures gathered { Gathered layers (length others.new.items) count root.new.covers root.new.seen }
{
    let Some(other) = others.pop() else {
        unreachable!()
    };
    lock.join(root, other);
}

// Joins all other seats to the root. What it has then seen has each worker's end.
fn gather<P: Planner + Drop, C: Consumer<P::Plan, Name = P::Name>>(
    lock: &TurnLock<RingState<P, C>>,
    mut root: Seat<RingState<P, C>>,
    mut others: Vec<Seat<RingState<P, C>>>,
    layers: u32,
) -> Seat<RingState<P, C>>
    requires ended { AtEnd lock.now layers 0 root }
    requires others { (i : ℕ) (d : _) → i < length others.items
        → AtEnd lock.now layers (i + 1) (slice_index_or others.items i d)
        × ((slice_index_or others.items i d).root ≡ false) }
    ensures root { result ≡ record root { covers = result.covers; seen = result.seen } }
    ensures gathered { Gathered layers 0 (length others.items) result.covers result.seen }
{
    let count = others.len();
    'together: for done in 0..count {
        join_last(lock, &mut root, &mut others, layers, count);
    }
    root
}

// Runs a ring whose lock stands.
#[tactic(auto, using(crate::proofs::Seating::gathered_has, crate::proofs::Seating::gathered_saw))]
fn run<
    P: Planner + Drop + Send + Sync,
    C: Consumer<P::Plan, Name = P::Name> + Send,
    G: Gate + Sync,
    R: Threads + Wait + Sync,
>(
    rt: &R,
    alloc: Global,
    lock: TurnLock<RingState<P, C>>,
    root: Seat<RingState<P, C>>,
    seats: Vec<Seat<RingState<P, C>>>,
    layers: u32,
    workers: u32,
    planner: &P,
    gate: &G,
) -> RingState<P, C>
    requires root { root ≡ root_seat lock root.name }
    requires name { IsSomeAnd root.name (λ n. (n.planner ≡ P.name planner.now) × (n.layers ≡ layers)
        × (n.workers ≡ workers)) }
    requires some { 0 < workers }
    requires room { workers ≤ lock.seats }
    requires none { seats.items ≡ [] }
    requires reserved { workers ≤ vec_capacity seats }
    ensures name { root.name
        ≡ Some (record {
          planner = result.planner;
          layers = result.layers;
          workers = result.workers;
          faults =
              result.faults;
        }) }
    ensures ended { (v : ℕ) → v < workers → SawEnd layers v result.events }
{
    let (root, others) = work_all(
        rt, alloc, &lock, root, seats, layers, workers, planner, gate,
    );
    let root = gather(&lock, root, others, layers);
    lock.close(root)
}

/// Runs a ring to its end: each worker in a thread of its own, where one can be made. Without a cause all
/// layers are taken, and the consumer is where all plans leave it.
pub fn run_ring<
    P: Planner + Copy + Drop + Send + Sync,
    C: Consumer<P::Plan, Name = P::Name> + Send,
    G: Gate + Sync,
    R: Threads + Wait + Sync,
>(
    rt: &R,
    alloc: Global,
    planner: P,
    consumer: C,
    layers: u32,
    workers: u32,
    gate: &G,
) -> Result<Ended<C>, Unmade<C>>
    requires some { 0 < workers }
    requires few { workers ≤ 64 }
    requires small { layers ≤ max_layers }
    requires planned { layers ≤ P.layers (P.name planner) }
    requires known { layers ≤ C.layers (P.name planner) }
    requires named { C.name consumer ≡ P.name planner }
    requires agreed { (l : ℕ) → C.plan_of (P.name planner) l ≡ P.plan_of (P.name planner) l }
    requires fresh { C.is_at consumer 0 }
    ensures run { IfOk result (λ e. IsRun layers workers e.events.items) }
    ensures halted { IfOk result (λ e. e.halted ≡ (reached e.events.items).cause) }
    ensures free { IfOk result (λ e. (reached e.events.items).holder ≡ None) }
    ensures taken { IfOk result (λ e. e.halted ≡ None → (reached e.events.items).taken ≡ layers) }
    ensures consumer { IfOk result (λ e. Waits C.name C.is_at C.fault_count (P.name planner) (C.fault_count consumer)
        (reached e.events.items) e.consumer) }
    ensures kept { IfOk result (λ e. (Rose (C.fault_count consumer) (C.fault_count e.consumer) → ⊥)
        → (length (backs e.events.items) ≤ layers) × C.is_at e.consumer (length (backs e.events.items))) }
    ensures fed { IfOk result (λ e. e.halted ≡ None → C.is_at e.consumer layers) }
    ensures unmade { IfErr result (λ u. (C.name u.consumer ≡ P.name planner)
        × (C.fault_count consumer ≤ C.fault_count u.consumer) × C.is_at u.consumer 0) }
{
    let Ok(seats) = Vec::with_capacity(alloc, workers as usize) else {
        return Err(Unmade { consumer });
    };
    let ring = match RingState::make(alloc, planner, consumer, layers, workers) {
        Ok(ring) => ring,
        Err(unmade) => {
            return Err(Unmade {
                consumer: unmade.consumer,
            });
        }
    };
    match TurnLock::make(alloc, ring, workers) {
        Ok((lock, root)) => {
            let ring = run(
                rt, alloc, lock, root, seats, layers, workers, &planner, gate,
            );
            Ok(finish(ring))
        }
        Err(Unkept { value }) => Err(Unmade {
            consumer: value.finish().consumer,
        }),
    }
}
