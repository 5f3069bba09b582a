// All workers of a ring, each at a seat of its own.

ghost use Rattle.std.specs.Prelude.{◌≡◌, ◌+◌, ◌<◌, ◌≤◌, ◌++◌, ℕ, true, false, [], ◌∷◌, length, slice_index_or, All, None, Some, IsSome, IsSomeAnd};
ghost use Rattle.layer_ring.specs.Inner.Seats.{IsReady, HasWorked};

use crate::worker::work;
use outside::Gate;
use ring_core::{Consumer, Planner, RingState};
use std::alloc::Global;
use std::sync::Wait;
use std::thread;
use std::thread::Threads;
use turn_lock::{Seat, TurnLock};

// Each seat's worker in a thread of its own, where one can be made.
pub(crate) fn all_work<
    P: Planner + Drop + Send + Sync,
    C: Consumer<P::Plan, Name = P::Name> + Send,
    G: Gate + Sync,
    R: Threads + Wait + Sync,
>(
    rt: &R,
    alloc: Global,
    lock: &TurnLock<RingState<P, C>>,
    seats: &mut [Seat<RingState<P, C>>],
    planner: &P,
    gate: &G,
)
    requires some { 0 < length seats.old }
    requires ready { All (IsReady lock.now (P.name planner.now)) seats.old }
    ensures len { length seats.new ≡ length seats.old }
    ensures each { (i : ℕ) (d : _) → i < length seats.old
        → HasWorked (slice_index_or seats.old i d) (slice_index_or seats.new i d) }
{
    let threads = seats.len();
    thread::for_each_mut(
        rt,
        seats,
        threads,
        &|_: usize, seat: &mut Seat<RingState<P, C>>|
            requires { IsReady lock.now (P.name planner.now) seat.now }
            ensures { HasWorked seat.entry.now seat.exit.now }
        { work(rt, alloc, lock, seat, planner, gate) },
    );
}
