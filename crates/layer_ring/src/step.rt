// What a worker does next, by one look at the ring.

ghost use Rattle.std.specs.Prelude.{◌≡◌, ◌+◌, ◌<◌, ◌≤◌, None, Some};
ghost use Rattle.ring_core.specs.Core.{stage, resting};
ghost use Rattle.ring_core.specs.Sees.{Moved};
ghost use Rattle.layer_ring.specs.Ends.{IsOver};
ghost use Rattle.layer_ring.specs.Inner.Steps.{Worked};
ghost use Rattle.layer_ring.specs.Inner.Steps.{stage_of, IfPlan, IfFeed, IfEnd};

use ring_core::{ClaimNo, Consumer, Event, Planner, RingState, Taken};

// What a worker does next.
pub(crate) enum Step<Plan, C> {
    // It plans this layer.
    Plan(u32),
    // It has the consumer accept this plan.
    Feed(Taken<Plan, C>),
    // It waits for the takes.
    Pause,
    // It ends.
    End,
}

// A take, or where that is refused a claim.
#[tactic(auto, using(crate::proofs::Moves::worked_moved, crate::proofs::Moves::worked_same))]
pub(crate) fn next<P: Planner + Drop, C: Consumer<P::Plan, Name = P::Name>>(
    ring: &mut RingState<P, C>,
    worker: u32,
) -> Step<P::Plan, C>
    requires worker { worker < ring.old.workers }
    requires idle { stage worker ring.old.events ≡ resting }
    ensures worked { Worked worker ring.old ring.new (stage_of result) }
    ensures plan { IfPlan result (λ l. l < P.layers ring.old.planner) }
    ensures feed { IfFeed result (λ t. (t.layer < C.layers ring.old.planner)
        × (t.plan ≡ C.plan_of ring.old.planner t.layer) × (C.name t.consumer ≡ ring.old.planner)
        × (ring.old.faults ≤ C.fault_count t.consumer) × C.is_at t.consumer t.layer) }
    ensures end { IfEnd result (IsOver ring.old.layers ring.new.events) }
{
    match ring.take(worker) {
        Ok(taken) => Step::Feed(taken),
        Err(_) => match ring.claim(worker) {
            Ok(layer) => Step::Plan(layer),
            Err(ClaimNo::Full) => Step::Pause,
            Err(_) => Step::End,
        },
    }
}

// The consumer comes back to the ring, having accepted this layer, which was taken.
#[tactic(auto, using(crate::proofs::Moves::given_back))]
pub(crate) fn back<P: Planner + Drop, C: Consumer<P::Plan, Name = P::Name>>(
    ring: &mut RingState<P, C>,
    worker: u32,
    layer: u32,
    consumer: C,
)
    requires turn { (stage worker ring.old.events).turn ≡ Some layer }
    requires accepted { C.is_at consumer (layer + 1) }
    requires named { C.name consumer ≡ ring.old.planner }
    requires faults { ring.old.faults ≤ C.fault_count consumer }
    ensures { Moved worker ring.old ring.new (Event.Back worker layer) }
{
    ring.give_back(worker, consumer);
}
