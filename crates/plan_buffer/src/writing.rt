// The plans that are held, written one after another.

ghost use Rattle.std.specs.Prelude.{◌≡◌, ◌+◌, ◌<◌, ◌≤◌, [], ◌∷◌, length, is_err, ℕ};
ghost use Rattle.std.specs.List.{All};
ghost use Rattle.outside.specs.Pens.{Wrote};
ghost use Rattle.preheat_plan.specs.Completed.{KnowsItsExtruders};
ghost use Rattle.plan_buffer.specs.Accepted.{Past, HasWritten};
ghost use Rattle.plan_buffer.specs.Streams.{WroteSome};
ghost use Rattle.plan_buffer.specs.Inner.Sound.{WroteOldest};

use gcode_write::{WriteFault, Writer};
use outside::{Sink, pens_add_up};
use plan_store::Window;
use preheat_plan::windows_follow;

// Writes the oldest plan, and lets it go.
pub(crate) fn write_oldest<'a, S: Sink>(
    writer: &mut Writer<'a, S>,
    window: &mut Window,
) -> Result<(), WriteFault>
    requires some { 0 < length window.old.held.plans }
    requires known { All (KnowsItsExtruders (length writer.old.job.now.settings.extruders)) window.old.held.plans }
    requires room { writer.old.layers < 40000 }
    ensures oldest { WroteOldest S.output writer.old.job.now window.old.held window.new.held writer.old.progress
        writer.new.progress writer.old.pen writer.new.pen }
    ensures failed { writer.new.pen.failed ≡ is_err result }
    ensures job { writer.new.job.now ≡ writer.old.job.now }
    ensures layers { writer.new.layers ≡ writer.old.layers + 1 }
    ensures ended { writer.new.ended ≡ writer.old.ended }
    ensures taken { window.new.taken ≡ window.old.taken }
{
    let oldest = window.let_go();
    writer.layer(&oldest)
}

// Writes all plans that are held, and lets them go.
pub(crate) fn write_all<'a, S: Sink>(writer: &mut Writer<'a, S>, window: &mut Window)
    requires known { All (KnowsItsExtruders (length writer.old.job.now.settings.extruders)) window.old.held.plans }
    requires room { writer.old.layers + length window.old.held.plans ≤ 40000 }
    ensures all { (past : Past) (n : ℕ)
        → HasWritten S.output writer.old.job.now past n window.old.held writer.old.progress writer.old.pen
        → HasWritten S.output writer.old.job.now past (n + length window.old.held.plans) window.new.held
        writer.new.progress writer.new.pen }
    ensures none { window.new.held.plans ≡ [] }
    ensures some { WroteSome S.output writer.old.pen writer.new.pen }
    ensures job { writer.new.job.now ≡ writer.old.job.now }
    ensures layers { writer.new.layers ≡ writer.old.layers + length window.old.held.plans }
    ensures taken { window.new.taken ≡ window.old.taken }
{
    windows_follow();
    pens_add_up::<S>();
    'held: while !window.plans().is_empty() {
        let _ = write_oldest(writer, window);
    }
}
