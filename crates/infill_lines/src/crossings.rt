// Where an edge crosses a line.

ghost use Rattle.std.specs.Prelude.{◌≡◌, ◌≤ℤ◌, ◌<ℤ◌};
ghost use Rattle.infill_lines.specs.Crossings.{between};
ghost use Rattle.infill_lines.specs.Inner.Places.{IsPlace};

use crate::angles::Place;
use slice_base::wide::{step, way};

/// A line, by its place across.
#[derive(Clone, Copy)]
pub(crate) struct Line {
    pub(crate) at: i32,
}

/// The place on the way from a lower to an upper place where a line lies.
pub(crate) fn between(low: Place, high: Place, line: Line) -> Place
    requires low_small { IsPlace 3400000 low }
    requires high_small { IsPlace 3400000 high }
    requires from { low.across ≤ℤ line.at }
    requires to { line.at <ℤ high.across }
    ensures { result ≡ between low high line.at }
{
    let part = step(low.across, line.at);
    let whole = step(low.across, high.across);
    Place {
        across: line.at,
        along: way(low.along, high.along, part, whole),
    }
}
