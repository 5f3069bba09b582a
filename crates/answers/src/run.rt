// How a run ended.

ghost use Rattle.std.specs.Prelude.{◌≡◌};
ghost use Rattle.answers.specs.Statuses.{status_of};

use crate::refusal::{Refusal, status};

/// How a run ended: its status, and why the job wasn't done, where it wasn't.
#[derive(Drop)]
pub struct Run {
    pub status: u8,
    pub refusal: Option<Refusal>,
}

impl Run {
    /// A run that ended with that refusal, or with none.
    pub fn of(refusal: Option<Refusal>) -> Run
        ensures status { result.status ≡ status_of refusal }
        ensures refusal { result.refusal ≡ refusal }
    {
        Run {
            status: status(&refusal),
            refusal,
        }
    }
}
