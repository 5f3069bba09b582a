// What standard error gets: what to do about a refusal, and what wants a look though it is none.

use crate::advice::{push_advice, push_unread_advice};
use crate::effects::IdleKeys;
use crate::flags::has_flag;
use crate::texts::{push, push_number};
use answers::Refusal;
use cli_words::{Command, Item, read_words};
use outside::{Sink, put_all};
use slice_base::NoMemory;
use slice_engine::{Run, Totals};
use std::alloc::Global;

/// What a command is made from.
pub(crate) fn items_in(command: &Command) -> &[Item] {
    match command {
        Command::Slice(task) => task.items.items(),
        Command::Serial(task) => task.items.items(),
        Command::Check(task) => task.items.items(),
        Command::Gen { .. } => &[],
    }
}

// Whether a command plans the layers of its job.
fn is_planned(command: &Command) -> bool {
    !matches!(command, Command::Check(_))
}

// Puts what a mesh with holes leaves out, and on how many layers there is nothing.
fn push_warnings(text: &mut Vec<u8>, totals: Totals) -> Result<(), NoMemory> {
    if totals.open_outlines > 0 {
        push(
            text,
            b"warning: outlines that stayed open and were left out: ",
        )?;
        push_number(text, u128::from(totals.open_outlines))?;
        push(text, b"; a mesh has holes, mend it\n")?;
    }
    if totals.bare_layers > 0 {
        push(text, b"warning: layers on which nothing is printed: ")?;
        push_number(text, u128::from(totals.bare_layers))?;
        push(text, b" of ")?;
        push_number(text, u128::from(totals.layers))?;
        push(text, b"\n")?;
    }
    Ok(())
}

// Puts a time of so many µs, in whole seconds.
fn push_time(text: &mut Vec<u8>, time: u128) -> Result<(), NoMemory> {
    let seconds = time.saturating_add(500_000) / 1_000_000;
    push_number(text, seconds / 3600)?;
    push(text, b" h ")?;
    push_number(text, seconds / 60 % 60)?;
    push(text, b" min ")?;
    push_number(text, seconds % 60)?;
    push(text, b" s")
}

// Puts a length of so many hundred-thousandths of a millimetre, in mm with three decimals.
fn push_millimetres(text: &mut Vec<u8>, length: u128) -> Result<(), NoMemory> {
    let thousandths = length.saturating_add(50) / 100;
    push_number(text, thousandths / 1000)?;
    push(text, b".")?;
    push_number(text, thousandths / 100 % 10)?;
    push_number(text, thousandths / 10 % 10)?;
    push_number(text, thousandths % 10)?;
    push(text, b" mm")
}

// Puts the time of a print, and the filament of each extruder that takes some.
fn push_spent(text: &mut Vec<u8>, totals: Totals) -> Result<(), NoMemory> {
    push(text, b"totals: time ")?;
    push_time(text, totals.time)?;
    push(text, b"\n")?;
    for (extruder, filament) in totals.filaments.iter().enumerate() {
        if *filament > 0 {
            push(text, b"totals: extruder ")?;
            push_number(text, extruder as u128)?;
            push(text, b", filament ")?;
            push_millimetres(text, *filament)?;
            push(text, b"\n")?;
        }
    }
    Ok(())
}

// Puts the totals of a job, with time and filament where its layers were planned.
fn push_totals(text: &mut Vec<u8>, totals: Totals, is_planned: bool) -> Result<(), NoMemory> {
    push(text, b"totals: layers ")?;
    push_number(text, u128::from(totals.layers))?;
    push(text, b", of them empty ")?;
    push_number(text, u128::from(totals.bare_layers))?;
    push(text, b", open outlines ")?;
    push_number(text, u128::from(totals.open_outlines))?;
    push(text, b"\n")?;
    if is_planned {
        return push_spent(text, totals);
    }
    Ok(())
}

fn push_run(
    alloc: Global,
    text: &mut Vec<u8>,
    words: &[String],
    items: &[Item],
    is_planned: bool,
    run: &Run,
    idle: &IdleKeys,
) -> Result<(), NoMemory> {
    if let Some(refusal) = &run.refusal {
        push_advice(alloc, text, refusal, words, items)?;
        return idle.push_notes(alloc, text);
    }
    idle.push_notes(alloc, text)?;
    push_warnings(text, run.totals)?;
    if has_flag(words, "-v") {
        return push_totals(text, run.totals, is_planned);
    }
    Ok(())
}

// All that is told of a run.
fn noted(alloc: Global, words: &[String], run: &Run, idle: &IdleKeys) -> Result<Vec<u8>, NoMemory> {
    let mut text = Vec::new(alloc);
    match read_words(alloc, words) {
        Ok(command) => {
            let items = items_in(&command);
            push_run(
                alloc,
                &mut text,
                words,
                items,
                is_planned(&command),
                run,
                idle,
            )?;
        }
        Err(_) => push_run(alloc, &mut text, words, &[], false, run, idle)?,
    }
    Ok(text)
}

/// What is told of a run: what to do about its refusal, which settings have no effect, what was left out, and with `-v`
/// the totals. Nothing where memory ran out.
pub(crate) fn run_note(
    alloc: Global,
    words: &[String],
    run: &Run,
    idle: &IdleKeys,
) -> Result<Vec<u8>, NoMemory> {
    if matches!(run.refusal, Some(Refusal::NoMemory)) {
        return Err(NoMemory);
    }
    noted(alloc, words, run, idle)
}

/// What is told where there are no words.
pub(crate) fn unread_note(alloc: Global, refusal: &Refusal) -> Result<Vec<u8>, NoMemory> {
    let mut text = Vec::new(alloc);
    push_unread_advice(&mut text, refusal)?;
    Ok(text)
}

/// Puts a note, where there was memory for it. What becomes of it changes nothing.
pub(crate) fn put_note<No: Sink>(note: Result<Vec<u8>, NoMemory>, notes: &mut No) {
    if let Ok(text) = note {
        let _ = put_all(notes, text.as_slice());
    }
}
