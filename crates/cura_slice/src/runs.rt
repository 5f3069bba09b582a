// Runs over files, a sink and a console in memory, and what their tests share.

use outside::{Gate, MemShelf, MemSink, NoGate};
use slice_base::Text;
use slice_engine::{Run, slice_top};
use std::alloc::Global;
use std::sync::Wait;
use std::test::Fail;
use std::thread::Threads;

// What a run works with: files, how many bytes the sink takes a put and has room for, and the call of each that
// fails, counted from 1.
#[derive(Clone, Copy)]
pub(crate) struct Outside<'a> {
    pub(crate) files: &'a [(&'a str, &'a [u8])],
    pub(crate) most: usize,
    pub(crate) room: usize,
    pub(crate) failing_read: Option<u32>,
    pub(crate) failing_write: Option<u32>,
    pub(crate) failing_line: Option<u32>,
}

// Where nothing fails.
pub(crate) fn with_files<'a>(files: &'a [(&'a str, &'a [u8])]) -> Outside<'a> {
    Outside {
        files,
        most: 1000,
        room: 4_000_000,
        failing_read: None,
        failing_write: None,
        failing_line: None,
    }
}

// How a run ended, how many files were asked for, what the sink holds, and what the console got.
#[derive(Drop)]
pub(crate) struct Ended {
    pub(crate) run: Run,
    pub(crate) reads: u64,
    pub(crate) sink: MemSink,
    pub(crate) console: MemSink,
}

impl Ended {
    // It was done, and told this.
    pub(crate) fn is_done(&self, told: &[u8]) -> bool {
        self.run.status == 0 && self.run.refusal.is_none() && self.console.bytes() == told
    }
}

// The words, parted at blanks, of all these texts.
fn words_of(alloc: Global, lines: &[&str]) -> Result<Vec<String>, Fail> {
    let mut words = Vec::new(alloc);
    for line in lines {
        for word in line.split_whitespace() {
            words.push(String::from_str(alloc, word)?)?;
        }
    }
    Ok(words)
}

fn calls_of(alloc: Global, failing: Option<u32>) -> Result<Vec<u32>, Fail> {
    let mut calls = Vec::new(alloc);
    if let Some(call) = failing {
        calls.push(call)?;
    }
    Ok(calls)
}

fn shelf_of(alloc: Global, outside: Outside) -> Result<MemShelf, Fail> {
    let mut files = Vec::new(alloc);
    for (name, bytes) in outside.files {
        files.push((
            Text::of(alloc, name.as_bytes())?,
            Vec::from_slice(alloc, bytes)?,
        ))?;
    }
    Ok(MemShelf::of(files, calls_of(alloc, outside.failing_read)?))
}

// A run whose workers pass a gate.
pub(crate) fn run_past<R: Threads + Wait + Sync, G: Gate + Sync>(
    rt: &R,
    alloc: Global,
    lines: &[&str],
    outside: Outside,
    gate: &G,
) -> Result<Ended, Fail> {
    let words = words_of(alloc, lines)?;
    let mut shelf = shelf_of(alloc, outside)?;
    let failing = calls_of(alloc, outside.failing_write)?;
    let sink = MemSink::of(alloc, outside.most.max(1), outside.room, failing)?;
    let failing = calls_of(alloc, outside.failing_line)?;
    let mut console = MemSink::of(alloc, 1000, 100_000, failing)?;
    let (run, sink) = slice_top(
        rt,
        alloc,
        words.as_slice(),
        &mut shelf,
        sink,
        &mut console,
        gate,
    );
    Ok(Ended {
        run,
        reads: shelf.reads(),
        sink,
        console,
    })
}

pub(crate) fn run<R: Threads + Wait + Sync>(
    rt: &R,
    alloc: Global,
    lines: &[&str],
    outside: Outside,
) -> Result<Ended, Fail> {
    run_past(rt, alloc, lines, outside, &NoGate)
}

// Whether a text has a part.
pub(crate) fn has(text: &[u8], part: &[u8]) -> bool {
    text.windows(part.len().max(1)).any(|it| it == part)
}

pub(crate) fn joined(alloc: Global, parts: &[&[u8]]) -> Result<Vec<u8>, Fail> {
    let mut text = Vec::new(alloc);
    for part in parts {
        text.extend_from_slice(part)?;
    }
    Ok(text)
}
