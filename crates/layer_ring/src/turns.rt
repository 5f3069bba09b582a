// A worker's critical sections, each of one call of the ring.

ghost use Rattle.std.specs.Prelude.{◌≡◌, ◌+◌, ◌<◌, ◌≤◌, true, false, None, Some, IsSome, IsSomeAnd};
ghost use mathlib.Core.List.{IsPrefix};
ghost use Rattle.slice_base.specs.Causes.{Rose};
ghost use Rattle.ring_core.specs.Core.{stage, resting};
ghost use Rattle.layer_ring.specs.Ends.{IsOver, Ended};
ghost use Rattle.layer_ring.specs.Inner.Steps.{stage_of, IfPlan, IfFeed, IfEnd};

use crate::step;
use crate::step::Step;
use ring_core::{Cause, Consumer, Planner, RingState};
use std::sync::Wait;
use turn_lock::{Seat, TurnLock};

// What the worker does next.
#[tactic(auto, using(crate::proofs::Giving::gives, crate::proofs::Giving::keeps_name, crate::proofs::Moves::seen_later))]
pub(crate) fn next<P: Planner + Drop, C: Consumer<P::Plan, Name = P::Name>, R: Wait>(
    rt: &R,
    lock: &TurnLock<RingState<P, C>>,
    seat: &mut Seat<RingState<P, C>>,
) -> Step<P::Plan, C>
    requires own { (seat.old.lock ≡ lock.now.id) × (seat.old.turn ≡ false) }
    requires worker { IsSomeAnd seat.old.name (λ n. seat.old.number < n.workers) }
    requires idle { stage seat.old.number seat.old.seen ≡ resting }
    ensures seat { seat.new ≡ record seat.old { seen = seat.new.seen } }
    ensures later { IsPrefix seat.old.seen seat.new.seen }
    ensures stage { stage seat.old.number seat.new.seen ≡ stage_of result }
    ensures plan { IfPlan result (λ l. IsSomeAnd seat.old.name (λ n. l < P.layers n.planner)) }
    ensures feed { IfFeed result (λ t. IsSomeAnd seat.old.name (λ n. (t.layer < C.layers n.planner)
        × (t.plan ≡ C.plan_of n.planner t.layer) × (C.name t.consumer ≡ n.planner)
        × (n.faults ≤ C.fault_count t.consumer) × C.is_at t.consumer t.layer)) }
    ensures end { IfEnd result (IsSomeAnd seat.old.name (λ n. IsOver n.layers seat.new.seen)) }
{
    let worker = seat.worker();
    let mut ring = lock.take(rt, seat);
    let step = step::next(&mut ring, worker);
    lock.give(seat, ring);
    step
}

// Places the plan of a layer in work.
#[tactic(auto, using(crate::proofs::Moves::moved_grew, crate::proofs::Moves::seen_later))]
pub(crate) fn place<P: Planner + Drop, C: Consumer<P::Plan, Name = P::Name>, R: Wait>(
    rt: &R,
    lock: &TurnLock<RingState<P, C>>,
    seat: &mut Seat<RingState<P, C>>,
    layer: u32,
    plan: P::Plan,
)
    requires own { (seat.old.lock ≡ lock.now.id) × (seat.old.turn ≡ false) }
    requires work { stage seat.old.number seat.old.seen ≡ record resting { work = Some layer } }
    requires plan { IsSomeAnd seat.old.name (λ n. plan ≡ P.plan_of n.planner layer) }
    ensures seat { seat.new ≡ record seat.old { seen = seat.new.seen } }
    ensures later { IsPrefix seat.old.seen seat.new.seen }
    ensures stage { stage seat.old.number seat.new.seen ≡ resting }
{
    let worker = seat.worker();
    let mut ring = lock.take(rt, seat);
    ring.place(worker, layer, plan);
    lock.give(seat, ring);
}

// Gives the consumer back, which has accepted what was taken.
#[tactic(auto, using(crate::proofs::Moves::moved_grew, crate::proofs::Moves::seen_later))]
pub(crate) fn give_back<P: Planner + Drop, C: Consumer<P::Plan, Name = P::Name>, R: Wait>(
    rt: &R,
    lock: &TurnLock<RingState<P, C>>,
    seat: &mut Seat<RingState<P, C>>,
    layer: u32,
    consumer: C,
)
    requires own { (seat.old.lock ≡ lock.now.id) × (seat.old.turn ≡ false) }
    requires turn { stage seat.old.number seat.old.seen ≡ record resting { turn = Some layer } }
    requires accepted { C.is_at consumer (layer + 1) }
    requires named { IsSomeAnd seat.old.name (λ n. (C.name consumer ≡ n.planner)
        × (n.faults ≤ C.fault_count consumer)) }
    ensures seat { seat.new ≡ record seat.old { seen = seat.new.seen } }
    ensures later { IsPrefix seat.old.seen seat.new.seen }
    ensures stage { stage seat.old.number seat.new.seen ≡ resting }
{
    let worker = seat.worker();
    let mut ring = lock.take(rt, seat);
    step::back(&mut ring, worker, layer, consumer);
    lock.give(seat, ring);
}

// Halts for want of memory, with a layer in work.
#[tactic(auto, using(crate::proofs::Moves::moved_grew, crate::proofs::Moves::seen_later, crate::proofs::Moves::halted_over))]
pub(crate) fn halt_memory<P: Planner + Drop, C: Consumer<P::Plan, Name = P::Name>, R: Wait>(
    rt: &R,
    lock: &TurnLock<RingState<P, C>>,
    seat: &mut Seat<RingState<P, C>>,
    layer: u32,
)
    requires own { (seat.old.lock ≡ lock.now.id) × (seat.old.turn ≡ false) }
    requires work { stage seat.old.number seat.old.seen ≡ record resting { work = Some layer } }
    ensures seat { seat.new ≡ record seat.old { seen = seat.new.seen } }
    ensures later { IsPrefix seat.old.seen seat.new.seen }
    ensures ended { IsSomeAnd seat.old.name (λ n. Ended n.layers seat.old.number seat.new.seen) }
{
    let worker = seat.worker();
    let mut ring = lock.take(rt, seat);
    ring.halt(worker, Cause::Memory, None);
    lock.give(seat, ring);
}

// Halts for a failed write, and gives the consumer back with its count of faults.
#[tactic(auto, using(crate::proofs::Moves::moved_grew, crate::proofs::Moves::seen_later, crate::proofs::Moves::halted_over))]
pub(crate) fn halt_write<P: Planner + Drop, C: Consumer<P::Plan, Name = P::Name>, R: Wait>(
    rt: &R,
    lock: &TurnLock<RingState<P, C>>,
    seat: &mut Seat<RingState<P, C>>,
    layer: u32,
    consumer: C,
)
    requires own { (seat.old.lock ≡ lock.now.id) × (seat.old.turn ≡ false) }
    requires turn { stage seat.old.number seat.old.seen ≡ record resting { turn = Some layer } }
    requires failed { IsSomeAnd seat.old.name (λ n. (C.name consumer ≡ n.planner)
        × Rose n.faults (C.fault_count consumer)) }
    ensures seat { seat.new ≡ record seat.old { seen = seat.new.seen } }
    ensures later { IsPrefix seat.old.seen seat.new.seen }
    ensures ended { IsSomeAnd seat.old.name (λ n. Ended n.layers seat.old.number seat.new.seen) }
{
    let worker = seat.worker();
    let faults = consumer.faults();
    let mut ring = lock.take(rt, seat);
    ring.halt(worker, Cause::Write { faults }, Some(consumer));
    lock.give(seat, ring);
}
