// How a ring ends, once all its workers have.

ghost use Rattle.std.specs.Prelude.{◌≡◌, ◌+◌, ◌<◌, ◌≤◌, ℕ, None, Some, length};
ghost use Rattle.slice_base.specs.Causes.{Rose};
ghost use Rattle.ring_core.specs.Core.{IsRun, reached};
ghost use Rattle.ring_core.specs.Keeps.{Waits};
ghost use Rattle.ring_core.specs.Laws.{backs};
ghost use Rattle.layer_ring.specs.Inner.Seats.{SawEnd};

use ring_core::{
    Consumer, Ended, Planner, RingState, idle_workers_leave_nothing, last_worker_took_all,
    runs_are_orderly, takes_are_given_back,
};

// Ends a ring whose workers have all ended. Without a cause all layers are taken, and the consumer is where
// they leave it.
pub(crate) fn finish<P: Planner + Drop, C: Consumer<P::Plan, Name = P::Name>>(
    ring: RingState<P, C>,
) -> Ended<C>
    requires some { 0 < ring.workers }
    requires ended { (v : ℕ) → v < ring.workers → SawEnd ring.layers v ring.events }
    ensures run { IsRun ring.layers ring.workers result.events.items }
    ensures halted { result.halted ≡ (reached result.events.items).cause }
    ensures free { (reached result.events.items).holder ≡ None }
    ensures taken { result.halted ≡ None → (reached result.events.items).taken ≡ ring.layers }
    ensures consumer { Waits C.name C.is_at C.fault_count ring.planner ring.faults
        (reached result.events.items) result.consumer }
    ensures kept { (Rose ring.faults (C.fault_count result.consumer) → ⊥)
        → (length (backs result.events.items) ≤ ring.layers)
        × C.is_at result.consumer (length (backs result.events.items)) }
    ensures fed { result.halted ≡ None → C.is_at result.consumer ring.layers }
{
    let _events = ring.events();
    runs_are_orderly();
    idle_workers_leave_nothing();
    last_worker_took_all();
    takes_are_given_back();
    ring.finish()
}
