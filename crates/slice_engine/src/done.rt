// What a run did.

ghost use Rattle.std.specs.Prelude.{◌≡◌};
ghost use Rattle.slice_engine.specs.Inner.Answered.{totals_in};

use crate::totals::{Totals, no_totals};
use answers::{Generated, Refusal};

/// What a run did that ended without a refusal.
#[derive(Clone, Copy, PartialEq, Eq, Debug)]
pub enum Done {
    /// A job's file was written.
    Sliced { totals: Totals },
    /// A job was worked out, and nothing was written.
    Checked { totals: Totals },
    /// A job was drawn by a number, and its file was written.
    Drawn { told: Generated, totals: Totals },
}

/// The totals of what was done; none where it was refused.
pub(crate) fn totals_in(ended: &Result<Done, Refusal>) -> Totals
    ensures { result ≡ totals_in ended.now }
{
    match ended {
        Ok(Done::Sliced { totals }) => *totals,
        Ok(Done::Checked { totals }) => *totals,
        Ok(Done::Drawn { totals, .. }) => *totals,
        Err(_) => no_totals(),
    }
}
