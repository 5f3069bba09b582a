// The top calls: words and files go in; an answer, the file and the console's lines come out. What words and files
// define is `JobGives` of `specs/Jobs.antt`, a job or its first refusal; what an answer says of the shelf, the output,
// the console and the workers is `Says` and `SaysAll` of `specs/Answers.antt`.
#![tactic(auto)]

mod done;
mod laws;
mod planning;
mod ringing;
mod runs;
mod slicing;
mod still;
mod telling;
mod top;
mod totals;
mod uses;
mod wide;
mod writing;

pub use answers::Refusal;
pub use done::Done;
pub use laws::{one_job, switches_are_preheated};
pub use runs::Run;
pub use top::{slice_top, still_top};
pub use totals::Totals;
