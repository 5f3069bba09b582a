// The program: its words go to `run`, over the files of the folder that it runs in, and it ends with the
// status that `run` answers. What it tells and does is stated there; notes go to standard error.
#![tactic(auto)]

mod advice;
#[cfg(test)]
mod boxes;
mod effects;
#[cfg(test)]
mod file_tests;
mod flags;
#[cfg(test)]
mod gate_tests;
mod help;
#[cfg(test)]
mod help_tests;
#[cfg(test)]
mod kind_tests;
mod listing;
#[cfg(test)]
mod mesh_tests;
mod notes;
#[cfg(test)]
mod notes_tests;
mod noting;
#[cfg(test)]
mod preheat_tests;
mod progress;
#[cfg(test)]
mod refusal_tests;
mod running;
#[cfg(test)]
mod runs;
#[cfg(test)]
mod schedule_tests;
mod texts;
mod words;

use flags::has_flag;
use outside::{DirShelf, FileSink, OutSink};
use progress::Progress;
use running::run;
use std::io;
use std::io::IsTerminal;
use std::process::ExitCode;
use words::{SystemLine, given};

fn main(rt: HostRuntime) -> ExitCode {
    let words = given(rt.alloc(), &SystemLine::of(&rt));
    let is_shown = match &words {
        Ok(words) => has_flag(words.as_slice(), "-p") && rt.stderr().is_terminal(),
        Err(_) => false,
    };
    let gate = Progress::of(rt.alloc(), rt.stderr(), is_shown);
    let shelf = DirShelf::of(&rt);
    let sink = FileSink::of(&rt);
    let mut console = OutSink::of(io::writer(&rt));
    let mut notes = OutSink::of(rt.stderr());
    let (status, _sink, _shelf) = run(
        &rt,
        rt.alloc(),
        words,
        shelf,
        sink,
        &mut console,
        &mut notes,
        &gate,
    );
    ExitCode::from(status)
}
