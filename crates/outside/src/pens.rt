// A pen over a sink.

ghost use Rattle.std.specs.Prelude.{◌≡◌, false, OnOk, OnErr};
ghost use Rattle.outside.specs.Pens.{WroteAll, WroteFront, Wrote, PenLaws};

use crate::sinks::Sink;
use slice_base::Failed;

/// A pen over a sink, which puts nothing more once a put failed, and counts the bytes that its sink took.
#[derive(Drop)]
pub struct Pen<S> {
    /// Where it puts.
    pub sink: S,
    /// Whether a put failed.
    pub failed: bool,
    /// How many bytes the sink took; a count that would pass the greatest `u128` stays there.
    pub bytes: u128,
}

impl<S: Sink> Pen<S> {
    /// A pen over that sink, which has put nothing yet.
    pub fn of(sink: S) -> Self
        ensures { result ≡ record { sink = sink; failed = false; bytes = 0 } }
    {
        Pen {
            sink,
            failed: false,
            bytes: 0,
        }
    }

    /// Puts all of these bytes, unless a put failed before.
    pub fn put(&mut self, piece: &[u8])
        ensures { Wrote S.output self.old piece.now self.new }
    {
        if self.failed {
            return;
        }
        match put_counted(&mut self.sink, &mut self.bytes, piece) {
            Ok(()) => {}
            Err(_) => {
                self.failed = true;
            }
        }
    }
}

// Puts all of the bytes, piece by piece, and counts those that the sink took.
fn put_counted<S: Sink>(sink: &mut S, count: &mut u128, bytes: &[u8]) -> Result<(), Failed>
    ensures ok { OnOk result (WroteAll (S.output sink.old) count.old bytes.now (S.output sink.new) count.new) }
    ensures err { OnErr result (WroteFront (S.output sink.old) count.old bytes.now (S.output sink.new) count.new) }
{
    let mut at = 0usize;
    'pieces: while at < bytes.len() {
        let taken = sink.put(&bytes[at..])?;
        at += taken;
        *count = count.saturating_add(taken as u128);
    }
    Ok(())
}

/// Writing one text after another is writing all of them. A caller that writes piece by piece calls this
/// for the laws that its proof cites; when it runs it does nothing.
pub fn pens_add_up<S: Sink>()
    ensures { PenLaws S.output }
{}
