// How a run ended.

ghost use Rattle.std.specs.Prelude.{◌≡◌};
ghost use Rattle.answers.specs.Statuses.{status_of};
ghost use Rattle.slice_engine.specs.Done.{kept_totals};

use crate::totals::{Totals, no_totals};
use answers::{Refusal, status};
use ring_core::Event;
use slice_base::Items;

/// How a run ended: its exit status, why it was refused, where it was, what the workers of a slice did, in order, and
/// the totals of its job, none where it was refused.
#[derive(Drop)]
pub struct Run {
    pub status: u8,
    pub refusal: Option<Refusal>,
    pub journal: Items<Event>,
    pub totals: Totals,
}

fn kept_totals(refusal: &Option<Refusal>, totals: Totals) -> Totals
    ensures { result ≡ kept_totals refusal.now totals }
{
    match refusal {
        None => totals,
        Some(_) => no_totals(),
    }
}

impl Run {
    /// A run that ended with that refusal, or with none, with that journal, and with those totals where it has no
    /// refusal.
    pub fn of(refusal: Option<Refusal>, journal: Items<Event>, totals: Totals) -> Run
        ensures status { result.status ≡ status_of refusal }
        ensures refusal { result.refusal ≡ refusal }
        ensures journal { result.journal ≡ journal }
        ensures totals { result.totals ≡ kept_totals refusal totals }
    {
        Run {
            status: status(&refusal),
            totals: kept_totals(&refusal, totals),
            refusal,
            journal,
        }
    }
}
