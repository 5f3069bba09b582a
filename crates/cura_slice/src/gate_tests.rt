// Workers at a gate: that they plan at once; and what the journal tells.

use crate::boxes::{OUTWARD, PLATE};
use crate::file_tests::ONE_WALL;
use crate::runs::{run, run_past, with_files};
use outside::Gate;
use std::sync::atomic::{AtomicU64, Ordering};
use std::test::Fail;

// Holds the planning of layer 0 until that of layer 1 has begun; after so many turns it gives up.
#[derive(Drop)]
struct Holder {
    begun: AtomicU64,
    gave_up: AtomicU64,
}

impl Gate for Holder {
    fn before_plan(&self, _worker: u32, layer: u32) {
        if layer == 1 {
            self.begun.store(1, Ordering::SeqCst);
        }
        if layer > 0 {
            return;
        }
        for _ in 0..300_000_000u64 {
            if self.begun.load(Ordering::SeqCst) == 1 {
                return;
            }
        }
        self.gave_up.store(1, Ordering::SeqCst);
    }
}

#[test]
fn two_workers_plan_at_once(rt: HostRuntime) -> Result<(), Fail> {
    let plate = PLATE.text(rt.alloc(), None, OUTWARD)?;
    let files = [("plate.stl", plate.as_bytes())];
    let gate = Holder {
        begun: AtomicU64::new(0),
        gave_up: AtomicU64::new(0),
    };
    let lines = ["slice -m2 -o plate.gcode", ONE_WALL, "-l plate.stl"];
    let ended = run_past(&rt, rt.alloc(), &lines, with_files(&files), &gate)?;
    assert!(rt; ended.is_done(b"sliced 2 layers\n"));
    assert!(rt; gave_up(&gate) == 0);
    assert!(rt; ended.sink.bytes().len() == 672);
    Ok(())
}

fn gave_up(gate: &Holder) -> u64 {
    gate.gave_up.load(Ordering::SeqCst)
}

#[test]
fn the_journal_is_printed_where_it_is_asked_for(rt: HostRuntime) -> Result<(), Fail> {
    let plate = PLATE.text(rt.alloc(), None, OUTWARD)?;
    let files = [("plate.stl", plate.as_bytes())];
    let lines = [
        "slice -m1 --journal -o plate.gcode",
        ONE_WALL,
        "-l plate.stl",
    ];
    let ended = run(&rt, rt.alloc(), &lines, with_files(&files))?;
    let told = b"sliced 2 layers
claim 0 0
place 0 0
take 0 0
back 0 0
claim 0 1
place 0 1
take 0 1
back 0 1
";
    assert!(rt; ended.is_done(told));
    Ok(())
}
