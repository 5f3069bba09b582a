// Many schedules of workers: gates delay them in several ways. The file is the same each time, the journal is a run
// of the ring, and each worker plans what it claimed.

use crate::boxes::{Block, OUTWARD};
use crate::file_tests::ONE_WALL;
use crate::runs::{run, run_past, with_files};
use outside::Gate;
use ring_core::Event;
use std::alloc::{AllocError, Global};
use std::sync::atomic::{AtomicU64, Ordering};
use std::sync::{Mutex, Wait};
use std::test::Fail;
use std::thread::yield_now;

fn put<T: Copy>(items: &mut Vec<T>, at: u32, item: T) {
    if let Some(place) = items.get_mut(at as usize) {
        *place = item;
    }
}

// A ring by its rules: what each event needs, and what it leaves.
#[derive(Drop)]
struct Ring {
    layers: u32,
    claimed: u32,
    taken: u32,
    placed: Vec<bool>,
    work: Vec<Option<u32>>,
    holder: Option<u32>,
}

impl Ring {
    fn at_start(alloc: Global, layers: u32, workers: u32) -> Result<Ring, AllocError> {
        Ok(Ring {
            layers,
            claimed: 0,
            taken: 0,
            placed: vec![in alloc; false; layers as usize]?,
            work: vec![in alloc; None; workers as usize]?,
            holder: None,
        })
    }

    // An idle worker claims the next layer, while fewer than eight a worker are pending.
    fn claim(&mut self, worker: u32, layer: u32) -> bool {
        let pending = self.claimed.saturating_sub(self.taken) as usize;
        let is_next = layer == self.claimed && layer < self.layers;
        let has_room = pending < self.work.len().saturating_mul(8);
        let is_idle = self.work.get(worker as usize).copied() == Some(None);
        self.claimed = self.claimed.saturating_add(1);
        put(&mut self.work, worker, Some(layer));
        is_next && has_room && is_idle
    }

    // A worker places the layer that it has in work.
    fn place(&mut self, worker: u32, layer: u32) -> bool {
        let is_own = self.work.get(worker as usize).copied() == Some(Some(layer));
        put(&mut self.work, worker, None);
        put(&mut self.placed, layer, true);
        is_own
    }

    // Where nobody holds the turn, a worker takes the next layer, which is placed.
    fn take(&mut self, worker: u32, layer: u32) -> bool {
        let is_next = layer == self.taken && self.holder.is_none();
        let is_placed = self.placed.get(layer as usize).copied() == Some(true);
        self.taken = self.taken.saturating_add(1);
        self.holder = Some(worker);
        is_next && is_placed && (worker as usize) < self.work.len()
    }

    // The holder gives the turn back, for the layer that was taken last.
    fn back(&mut self, worker: u32, layer: u32) -> bool {
        let is_held = self.holder == Some(worker) && layer.checked_add(1) == Some(self.taken);
        self.holder = None;
        is_held
    }

    // Whether the event may come here; it is made.
    fn goes_on(&mut self, event: &Event) -> bool {
        match event {
            Event::Claim { worker, layer } => self.claim(*worker, *layer),
            Event::Place { worker, layer } => self.place(*worker, *layer),
            Event::Take { worker, layer } => self.take(*worker, *layer),
            Event::Back { worker, layer } => self.back(*worker, *layer),
            Event::Halt { .. } => false,
        }
    }

    // All layers are taken, and nobody holds anything.
    fn is_over(&self) -> bool {
        self.taken == self.layers
            && self.claimed == self.layers
            && self.holder.is_none()
            && self.work.iter().all(|work| work.is_none())
    }
}

// The events are a run of the ring that ends when all is done.
fn is_whole_run(
    alloc: Global,
    layers: u32,
    workers: u32,
    journal: &[Event],
) -> Result<bool, AllocError> {
    let mut ring = Ring::at_start(alloc, layers, workers)?;
    for event in journal {
        if !ring.goes_on(event) {
            return Ok(false);
        }
    }
    Ok(ring.is_over())
}

// What one worker does with all layers, which it takes so many layers late.
fn alone_and_late(alloc: Global, layers: u32, late: u32) -> Result<Vec<Event>, AllocError> {
    let worker = 0;
    let mut journal = Vec::new(alloc);
    for step in 0..layers.saturating_add(late) {
        let layer = step;
        if layer < layers {
            journal.push(Event::Claim { worker, layer })?;
            journal.push(Event::Place { worker, layer })?;
        }
        if late <= step {
            let layer = step - late;
            journal.push(Event::Take { worker, layer })?;
            journal.push(Event::Back { worker, layer })?;
        }
    }
    Ok(journal)
}

// The events with the one at that index so many times.
fn with_event(
    alloc: Global,
    journal: &[Event],
    at: usize,
    times: usize,
) -> Result<Vec<Event>, AllocError> {
    let mut changed = Vec::new(alloc);
    for (i, event) in journal.iter().enumerate() {
        let count = if i == at { times } else { 1 };
        for _ in 0..count {
            changed.push(*event)?;
        }
    }
    Ok(changed)
}

#[test]
fn a_journal_that_breaks_a_rule_is_no_run(rt: HostRuntime) -> Result<(), Fail> {
    let alloc = rt.alloc();
    for (late, is_run) in [(0, true), (3, true), (7, true), (8, false)] {
        let journal = alone_and_late(alloc, 12, late)?;
        assert!(rt;
            is_whole_run(alloc, 12, 1, journal.as_slice())? == is_run,
            "{late} late"
        );
    }
    let journal = alone_and_late(alloc, 3, 0)?;
    assert!(rt; !is_whole_run(alloc, 3, 0, journal.as_slice())?);
    assert!(rt; !is_whole_run(alloc, 4, 1, journal.as_slice())?);
    for at in 0..journal.len() {
        for times in [0, 2] {
            let changed = with_event(alloc, journal.as_slice(), at, times)?;
            assert!(rt;
                !is_whole_run(alloc, 3, 1, changed.as_slice())?,
                "event {at}"
            );
        }
    }
    Ok(())
}

// How a gate delays the planning of layers.
#[derive(Clone, Copy, PartialEq, Eq, Debug)]
enum Delay {
    // Each third layer is slow.
    Thirds,
    // Worker 0 is slow.
    First,
    // Each layer is slow by another number, drawn anew each round.
    Drawn,
    // An even layer waits for the one behind it.
    Pairs,
    // Now and then a layer waits until as many are pending as may be.
    Full,
}

const DELAYS: [Delay; 5] = [
    Delay::Thirds,
    Delay::First,
    Delay::Drawn,
    Delay::Pairs,
    Delay::Full,
];

// What one worker was about to plan.
#[derive(Clone, Copy, PartialEq, Eq, Debug)]
struct Call {
    worker: u32,
    layer: u32,
}

// Delays, and keeps its calls under a lock.
#[derive(Drop)]
struct Slow<'r, R: Wait> {
    rt: &'r R,
    delay: Delay,
    round: u32,
    layers: u32,
    workers: u32,
    begun: AtomicU64,
    gave_up: AtomicU64,
    calls: Mutex<Vec<Call>>,
}

// What may go otherwise than by the rules.
#[derive(Clone, Copy, PartialEq, Eq, Debug)]
enum Fault {
    // A layer waited for others in vain.
    Waiting,
    // The journal is no run of the ring, or ends before all is done.
    Journal,
    // A layer was planned by a worker that hadn't claimed it.
    Planner,
}

impl<'r, R: Wait> Slow<'r, R> {
    // How many other threads get their turn before that layer.
    fn turns(&self, worker: u32, layer: u32) -> u32 {
        match self.delay {
            Delay::Thirds if layer % 3 == 0 => 40,
            Delay::First if worker == 0 => 40,
            Delay::Drawn => {
                let x = layer.wrapping_mul(16).wrapping_add(self.round);
                x.wrapping_mul(0x9e37_79b1) >> 26
            }
            _ => 0,
        }
    }

    // How many layers must have begun before that one is planned. One worker waits for none.
    fn awaited(&self, layer: u32) -> u32 {
        let most = self.workers.saturating_mul(8);
        match self.delay {
            _ if self.workers == 1 => 0,
            Delay::Pairs if layer % 2 == 0 => layer.saturating_add(2).min(self.layers),
            Delay::Full if layer.checked_rem(most) == Some(0) => {
                layer.saturating_add(most).min(self.layers)
            }
            _ => 0,
        }
    }

    fn has_given_up(&self) -> bool {
        self.gave_up.load(Ordering::SeqCst) != 0
    }

    // After so many turns it gives up, and waits no more.
    fn wait_for(&self, awaited: u64) {
        for _ in 0..10_000_000u32 {
            if self.begun.load(Ordering::SeqCst) >= awaited || self.has_given_up() {
                return;
            }
            yield_now();
        }
        self.gave_up.store(1, Ordering::SeqCst);
    }

    // What went otherwise in a run that left this journal, if anything did.
    fn fault_in(&self, alloc: Global, journal: &[Event]) -> Result<Option<Fault>, AllocError> {
        if self.has_given_up() {
            return Ok(Some(Fault::Waiting));
        }
        if !is_whole_run(alloc, self.layers, self.workers, journal)? {
            return Ok(Some(Fault::Journal));
        }
        let calls = self.calls.lock(self.rt);
        if !each_plans_its_claims(self.workers, journal, calls.as_slice()) {
            return Ok(Some(Fault::Planner));
        }
        Ok(None)
    }
}

impl<'r, R: Wait> Gate for Slow<'r, R> {
    fn before_plan(&self, worker: u32, layer: u32) {
        {
            let mut calls = self.calls.lock(self.rt);
            let _ = calls.push(Call { worker, layer });
        }
        self.begun.fetch_add(1, Ordering::SeqCst);
        for _ in 0..self.turns(worker, layer) {
            yield_now();
        }
        self.wait_for(u64::from(self.awaited(layer)));
    }
}

// The layers that a worker claimed are those that it was about to plan, in the same order.
fn plans_its_claims(worker: u32, journal: &[Event], calls: &[Call]) -> bool {
    let mut claims = journal.iter().filter_map(|event| match event {
        Event::Claim { worker: who, layer } if *who == worker => Some(*layer),
        _ => None,
    });
    for call in calls {
        if call.worker == worker && claims.next() != Some(call.layer) {
            return false;
        }
    }
    claims.next().is_none()
}

fn each_plans_its_claims(workers: u32, journal: &[Event], calls: &[Call]) -> bool {
    for worker in 0..workers {
        if !plans_its_claims(worker, journal, calls) {
            return false;
        }
    }
    true
}

const CREWS: [(&str, u32); 5] = [
    ("slice -m1", 1),
    ("slice -m2", 2),
    ("slice -m3", 3),
    ("slice -m8", 8),
    ("slice -m64", 64),
];

// A tower of 12 layers, and one of 300.
const TALL: Block<'static> = Block {
    low: ["90", "90", "0"],
    high: ["110", "110", "2.5"],
};

const TALLER: Block<'static> = Block {
    low: ["90", "90", "0"],
    high: ["110", "110", "60.1"],
};

// Two towers side by side, each by an extruder of its own.
const TWO: &str = "-s machine_extruder_count=2 -l tower -e1 -l tower -s mesh_position_x=30";

#[test]
fn twelve_layers_are_the_same_file_by_every_schedule(rt: HostRuntime) -> Result<(), Fail> {
    let tower = TALL.text(rt.alloc(), None, OUTWARD)?;
    let files = [("tower", tower.as_bytes())];
    let lines = ["serial -o g", ONE_WALL, TWO];
    let alone = run(&rt, rt.alloc(), &lines, with_files(&files))?;
    for (command, workers) in CREWS {
        for delay in DELAYS {
            for round in 0..6u32 {
                let gate = Slow {
                    rt: &rt,
                    delay,
                    round,
                    layers: 12,
                    workers,
                    begun: AtomicU64::new(0),
                    gave_up: AtomicU64::new(0),
                    calls: Mutex::new(Vec::new(rt.alloc())),
                };
                let lines = [command, "-o g", ONE_WALL, TWO];
                let ended = run_past(&rt, rt.alloc(), &lines, with_files(&files), &gate)?;
                assert!(rt; ended.is_done(b"sliced 12 layers\n"), "{command}");
                assert!(rt; ended.sink.bytes() == alone.sink.bytes(), "{command}");
                let fault = gate.fault_in(rt.alloc(), ended.run.journal.items())?;
                assert!(rt; fault.is_none(), "{command} {delay:?} {fault:?}");
            }
        }
    }
    Ok(())
}

#[test]
fn three_hundred_layers_are_the_same_file_by_every_schedule(rt: HostRuntime) -> Result<(), Fail> {
    let tower = TALLER.text(rt.alloc(), None, OUTWARD)?;
    let files = [("tower", tower.as_bytes())];
    let lines = ["serial -o g", ONE_WALL, "-l tower"];
    let alone = run(&rt, rt.alloc(), &lines, with_files(&files))?;
    for (command, workers) in CREWS {
        for delay in DELAYS {
            for round in 0..2u32 {
                let gate = Slow {
                    rt: &rt,
                    delay,
                    round,
                    layers: 300,
                    workers,
                    begun: AtomicU64::new(0),
                    gave_up: AtomicU64::new(0),
                    calls: Mutex::new(Vec::new(rt.alloc())),
                };
                let lines = [command, "-o g", ONE_WALL, "-l tower"];
                let ended = run_past(&rt, rt.alloc(), &lines, with_files(&files), &gate)?;
                assert!(rt; ended.is_done(b"sliced 300 layers\n"), "{command}");
                assert!(rt; ended.sink.bytes() == alone.sink.bytes(), "{command}");
                let fault = gate.fault_in(rt.alloc(), ended.run.journal.items())?;
                assert!(rt; fault.is_none(), "{command} {delay:?} {fault:?}");
            }
        }
    }
    Ok(())
}
