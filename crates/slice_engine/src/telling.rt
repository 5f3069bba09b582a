// Tells the console how a run ended.

ghost use Rattle.std.specs.Prelude.{◌≡◌, OnOk, OnErr};
ghost use Rattle.outside.specs.Output.{Put, PutFront};
ghost use Rattle.slice_engine.specs.Done.{done_text, event_line, journal_text};
ghost use Rattle.slice_engine.specs.Answers.{done_lines, Tells};

use crate::done::Done;
use answers::{Refusal, Step, put_checked, put_done, put_generated, put_refusal, put_step};
use outside::{Sink, puts_add_up};
use ring_core::Event;
use slice_base::Failed;

fn put_event<Co: Sink>(console: &mut Co, event: Event) -> Result<(), Failed>
    ensures ok { OnOk result (Put (Co.output console.old) (event_line event) (Co.output console.new)) }
    ensures err { OnErr result (PutFront (Co.output console.old) (event_line event) (Co.output console.new)) }
{
    puts_add_up();
    match event {
        Event::Claim { worker, layer } => put_step(console, Step::Claim, worker, layer),
        Event::Place { worker, layer } => put_step(console, Step::Place, worker, layer),
        Event::Take { worker, layer } => put_step(console, Step::Take, worker, layer),
        Event::Back { worker, layer } => put_step(console, Step::Back, worker, layer),
        Event::Halt { .. } => Ok(()),
    }
}

fn put_journal<Co: Sink>(console: &mut Co, journal: &[Event]) -> Result<(), Failed>
    ensures ok { OnOk result (Put (Co.output console.old) (journal_text journal.now) (Co.output console.new)) }
    ensures err { OnErr result (PutFront (Co.output console.old) (journal_text journal.now) (Co.output console.new)) }
{
    puts_add_up();
    'events: for event in journal {
        put_event(console, *event)?;
    }
    Ok(())
}

fn put_what<Co: Sink>(console: &mut Co, done: Done) -> Result<(), Failed>
    ensures ok { OnOk result (Put (Co.output console.old) (done_text done) (Co.output console.new)) }
    ensures err { OnErr result (PutFront (Co.output console.old) (done_text done) (Co.output console.new)) }
{
    match done {
        Done::Sliced { totals } => put_done(console, totals.layers),
        Done::Checked { totals } => put_checked(console, totals.layers),
        Done::Drawn { told, .. } => put_generated(console, told),
    }
}

fn put_done_lines<Co: Sink>(
    console: &mut Co,
    done: Done,
    is_asked: bool,
    journal: &[Event],
) -> Result<(), Failed>
    ensures ok { OnOk result (Put (Co.output console.old) (done_lines done is_asked journal.now)
        (Co.output console.new)) }
    ensures err { OnErr result (PutFront (Co.output console.old) (done_lines done is_asked journal.now)
        (Co.output console.new)) }
{
    puts_add_up();
    put_what(console, done)?;
    if !is_asked {
        return Ok(());
    }
    put_journal(console, journal)
}

/// Puts the lines of what was done, with those of the journal where it is asked for, or the line of the refusal.
/// The answer is the refusal, if there is one; a console that fails is the answer only where all else was done.
pub(crate) fn tell<Co: Sink>(
    console: &mut Co,
    ended: Result<Done, Refusal>,
    is_asked: bool,
    journal: &[Event],
) -> Option<Refusal>
    ensures { Tells ended is_asked journal.now result (Co.output console.old) (Co.output console.new) }
{
    match ended {
        Ok(done) => match put_done_lines(console, done, is_asked, journal) {
            Ok(()) => None,
            Err(_) => Some(Refusal::ConsoleFault),
        },
        Err(refusal) => {
            let _ = put_refusal(console, &refusal);
            Some(refusal)
        }
    }
}
