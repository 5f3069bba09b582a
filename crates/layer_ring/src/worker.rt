// A worker's loop.

ghost use Rattle.std.specs.Prelude.{◌≡◌, ◌+◌, ◌<◌, ◌≤◌, true, false, None, Some, IsSome, IsSomeAnd, MatchBool};
ghost use mathlib.Core.List.{IsPrefix};
ghost use Rattle.ring_core.specs.Core.{stage, resting};
ghost use Rattle.layer_ring.specs.Ends.{Ended};

use crate::step::Step;
use crate::turns::{give_back, halt_memory, halt_write, next, place};
use outside::Gate;
use ring_core::{Consumer, Planner, RingState, Taken};
use std::alloc::Global;
use std::sync::Wait;
use turn_lock::{Seat, TurnLock};

// Plans a layer outside the lock and places the plan, or halts for want of memory and answers false.
fn plan<P: Planner + Drop, C: Consumer<P::Plan, Name = P::Name>, G: Gate, R: Wait>(
    rt: &R,
    alloc: Global,
    lock: &TurnLock<RingState<P, C>>,
    seat: &mut Seat<RingState<P, C>>,
    planner: &P,
    gate: &G,
    layer: u32,
) -> bool
    requires own { (seat.old.lock ≡ lock.now.id) × (seat.old.turn ≡ false) }
    requires planner { IsSomeAnd seat.old.name (λ n. n.planner ≡ P.name planner.now) }
    requires work { stage seat.old.number seat.old.seen ≡ record resting { work = Some layer } }
    requires planned { layer < P.layers (P.name planner.now) }
    ensures seat { seat.new ≡ record seat.old { seen = seat.new.seen } }
    ensures later { IsPrefix seat.old.seen seat.new.seen }
    ensures stage { MatchBool result (stage seat.old.number seat.new.seen ≡ resting) (IsSomeAnd seat.old.name
        (λ n. Ended n.layers seat.old.number seat.new.seen)) }
{
    gate.before_plan(seat.worker(), layer);
    match planner.plan(alloc, layer) {
        Ok(plan) => {
            place(rt, lock, seat, layer, plan);
            true
        }
        Err(_) => {
            halt_memory(rt, lock, seat, layer);
            false
        }
    }
}

// Has the consumer accept a plan outside the lock and gives it back, or halts for its fault and answers false.
#[tactic(auto, using(crate::proofs::Faults::rose_later))]
fn feed<P: Planner + Drop, C: Consumer<P::Plan, Name = P::Name>, R: Wait>(
    rt: &R,
    lock: &TurnLock<RingState<P, C>>,
    seat: &mut Seat<RingState<P, C>>,
    taken: Taken<P::Plan, C>,
) -> bool
    requires own { (seat.old.lock ≡ lock.now.id) × (seat.old.turn ≡ false) }
    requires turn { stage seat.old.number seat.old.seen ≡ record resting { turn = Some taken.layer } }
    requires taken { IsSomeAnd seat.old.name (λ n. (taken.layer < C.layers n.planner)
        × (taken.plan ≡ C.plan_of n.planner taken.layer) × (C.name taken.consumer ≡ n.planner)
        × (n.faults ≤ C.fault_count taken.consumer) × C.is_at taken.consumer taken.layer) }
    ensures seat { seat.new ≡ record seat.old { seen = seat.new.seen } }
    ensures later { IsPrefix seat.old.seen seat.new.seen }
    ensures stage { MatchBool result (stage seat.old.number seat.new.seen ≡ resting) (IsSomeAnd seat.old.name
        (λ n. Ended n.layers seat.old.number seat.new.seen)) }
{
    let Taken {
        layer,
        plan,
        mut consumer,
    } = taken;
    match consumer.accept(layer, plan) {
        Ok(()) => {
            give_back(rt, lock, seat, layer, consumer);
            true
        }
        Err(_) => {
            halt_write(rt, lock, seat, layer, consumer);
            false
        }
    }
}

/// A worker's loop: it takes and feeds while a take is granted, else claims and plans, until a cause is kept or
/// all layers are claimed and its take is refused. What the seat had seen before begins what it has seen then.
#[tactic(auto, using(crate::proofs::Moves::prefix_refl, crate::proofs::Moves::prefix_trans))]
pub fn work<P: Planner + Drop, C: Consumer<P::Plan, Name = P::Name>, G: Gate, R: Wait>(
    rt: &R,
    alloc: Global,
    lock: &TurnLock<RingState<P, C>>,
    seat: &mut Seat<RingState<P, C>>,
    planner: &P,
    gate: &G,
)
    requires own { (seat.old.lock ≡ lock.now.id) × (seat.old.turn ≡ false) }
    requires planner { IsSomeAnd seat.old.name (λ n. (n.planner ≡ P.name planner.now) × (seat.old.number < n.workers)) }
    requires idle { stage seat.old.number seat.old.seen ≡ resting }
    ensures seat { seat.new ≡ record seat.old { seen = seat.new.seen } }
    ensures later { IsPrefix seat.old.seen seat.new.seen }
    ensures ended { IsSomeAnd seat.old.name (λ n. Ended n.layers seat.old.number seat.new.seen) }
{
    'work: for _ in rt.forever() {
        match next(rt, lock, seat) {
            Step::Plan(layer) => {
                if !plan(rt, alloc, lock, seat, planner, gate, layer) {
                    return;
                }
            }
            Step::Feed(taken) => {
                if !feed(rt, lock, seat, taken) {
                    return;
                }
            }
            Step::Pause => lock.pause(rt, seat),
            Step::End => return,
        }
    }
    unreachable!()
}
