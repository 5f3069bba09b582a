// Rings of threads, run to their ends. A plan is the layer's number; the consumer keeps what it accepts.

ghost use Rattle.std.specs.Prelude.{◌≡◌, ◌<◌, ◌≤◌, length, IsErr};
ghost use Rattle.slice_base.specs.Causes.{HasCause};
ghost use Rattle.slice_base.specs.Limits.{max_layers};

use super::*;
use outside::NoGate;
use ring_core::{Cause, Consumer, Ended, Event, Planner};
use slice_base::{Failed, NoMemory};
use std::alloc::Global;
use std::process::Abort;
use std::sync::Wait;
use std::test::*;
use std::thread::Threads;

// Plans layers by their numbers, but for one for which memory is short.
#[derive(Drop)]
struct Numbers {
    layers: u32,
    refused: u32,
}

impl Planner for Numbers {
    type Plan = u32;

    type Name = u32;

    ghost name = { λ p. p.layers };

    ghost layers = { λ n. n };

    ghost plan_of = { λ n l. l };

    fn plan(&self, _alloc: Global, layer: u32) -> Result<u32, NoMemory> {
        if layer == self.refused {
            return Err(NoMemory);
        }
        Ok(layer)
    }
}

// Keeps plans, and fails at one layer.
#[derive(Drop)]
struct Keeper {
    layers: u32,
    kept: Vec<u32>,
    fails_at: u32,
    faults: u64,
}

impl Keeper {
    fn fail(&mut self) -> Result<(), Failed>
        ensures layers { self.new.layers ≡ self.old.layers }
        ensures cause { HasCause self.old.faults self.new.faults result }
        ensures failed { IsErr result }
    {
        self.faults = self.faults.saturating_add(1);
        Err(Failed)
    }
}

impl Consumer<u32> for Keeper {
    type Name = u32;

    ghost name = { λ c. c.layers };

    ghost layers = { λ n. n };

    ghost plan_of = { λ n l. l };

    ghost is_at = { λ c n. length c.kept.items ≡ n };

    ghost fault_count = { λ c. c.faults };

    fn accept(&mut self, layer: u32, plan: u32) -> Result<(), Failed> {
        if layer == self.fails_at {
            return self.fail();
        }
        if self.kept.push(plan).is_err() {
            return self.fail();
        }
        Ok(())
    }

    fn faults(&self) -> u64 {
        self.faults
    }
}

// A ring of layers and workers that has run to its end.
fn ended<R: Abort + Threads + Wait + Sync>(
    rt: &R,
    alloc: Global,
    layers: u32,
    workers: u32,
    refused: u32,
    fails_at: u32,
) -> Ended<Keeper>
    requires some { 0 < workers }
    requires few { workers ≤ 64 }
    requires small { layers ≤ max_layers }
{
    let numbers = Numbers { layers, refused };
    let keeper = Keeper {
        layers,
        kept: Vec::new(alloc),
        fails_at,
        faults: 0,
    };
    let Ok(ended) = run_ring(rt, alloc, &numbers, keeper, layers, workers, &NoGate) else {
        panic!(rt; "no memory")
    };
    ended
}

// How many takes and how many returns there are.
fn takes_and_backs(events: &[Event]) -> (u32, u32) {
    let mut takes = 0u32;
    let mut backs = 0u32;
    for event in events {
        match event {
            Event::Take { .. } => takes = takes.saturating_add(1),
            Event::Back { .. } => backs = backs.saturating_add(1),
            _ => {}
        }
    }
    (takes, backs)
}

#[test]
fn a_ring_without_layers_makes_no_event(rt: HostRuntime) {
    let ended = ended(&rt, rt.alloc(), 0, 1, 0, 0);
    assert_eq!(rt; ended.events.len(), 0);
    assert_eq!(rt; ended.halted, None);
}

#[test]
fn one_worker_takes_each_layer_in_turn(rt: HostRuntime) {
    let ended = ended(&rt, rt.alloc(), 2, 1, 2, 2);
    let (worker, layer) = (0, 0);
    let first = [
        Event::Claim { worker, layer },
        Event::Place { worker, layer },
        Event::Take { worker, layer },
        Event::Back { worker, layer },
    ];
    assert!(rt; ended.events.as_slice().starts_with(first.as_slice()));
    assert_eq!(rt; ended.events.len(), 8);
}

#[test]
fn sixty_four_workers_feed_all_layers_in_order(rt: HostRuntime) {
    let ended = ended(&rt, rt.alloc(), 300, 64, 300, 300);
    assert_eq!(rt; ended.halted, None);
    assert_eq!(rt; ended.events.len(), 1200);
    assert_eq!(rt; ended.consumer.kept.len(), 300);
    for (layer, plan) in ended.consumer.kept.iter().enumerate() {
        assert_eq!(rt; layer, *plan as usize);
    }
}

#[test]
fn want_of_memory_ends_the_ring_behind_the_layers_before(rt: HostRuntime) {
    for refused in 0..12 {
        let ended = ended(&rt, rt.alloc(), 12, 1, refused, 12);
        assert_eq!(rt; ended.halted, Some(Cause::Memory));
        assert_eq!(rt; ended.consumer.kept.len(), refused as usize);
        assert_eq!(rt;
            takes_and_backs(ended.events.as_slice()),
            (refused, refused)
        );
        let halt = Event::Halt {
            worker: 0,
            cause: Cause::Memory,
        };
        assert_eq!(rt; ended.events.last().copied(), Some(halt));
    }
}

// Where a worker has no memory another may still have layers below to place, which nobody takes: what was taken is a
// front of them.
#[test]
fn want_of_memory_among_many_workers_leaves_a_front(rt: HostRuntime) {
    for workers in 2..6 {
        for refused in 0..12 {
            let ended = ended(&rt, rt.alloc(), 12, workers, refused, 12);
            assert_eq!(rt; ended.halted, Some(Cause::Memory));
            let (takes, backs) = takes_and_backs(ended.events.as_slice());
            assert!(rt; takes == backs && backs <= refused);
            assert_eq!(rt; ended.consumer.kept.len(), backs as usize);
            for (layer, plan) in ended.consumer.kept.iter().enumerate() {
                assert_eq!(rt; layer, *plan as usize);
            }
        }
    }
}

#[test]
fn a_failing_consumer_ends_the_ring_at_its_layer(rt: HostRuntime) {
    for workers in 1..4 {
        for fails_at in 0..12 {
            let ended = ended(&rt, rt.alloc(), 12, workers, 12, fails_at);
            assert_eq!(rt; ended.halted, Some(Cause::Write { faults: 1 }));
            assert_eq!(rt; ended.consumer.kept.len(), fails_at as usize);
            assert_eq!(rt;
                takes_and_backs(ended.events.as_slice()),
                (fails_at + 1, fails_at)
            );
        }
    }
}
