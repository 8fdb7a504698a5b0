//! The whole run of the finisher: words and a job in, the finished job, lines and a status out.
//!
//! `run` promises `FinishPromises`. There is an answer (`answered`): the status is its status, and its cause holds for
//! what was read, written and asked (`RunOutcome`). On 0 the output grew by `finished` of all that the source had, its
//! whole commands and the end of its page (`finished`), unless the shelf has the text that stops the run. If the shelf
//! shows this text, nothing is taken or written (`stopped`). If it does not show what it holds, the output may have
//! whole pages alone, byte for byte (`between`). On 8 the job is refused (`refused`), and on 4 a read failed (`read`);
//! the job up to there is finished. On 5 a write failed: the output has a proper prefix of the finished job, and the
//! error line has the page in hand (`part`). On 7 memory ran out, before the first byte or where the shelf is asked
//! (`memory`). On 1 a word is refused, and nothing is taken (`usage`). The lines of pages are those of a printer's
//! sheets, in order, with the dots of each ink (`lines`).
//!
//! A `Parts` has the watch of a job and the bytes of the command in hand, and all their memory. `passing` passes on
//! pieces: each goes to the watch, up to the next command of interest. The watch reads each byte once. Of exactly these
//! bytes the whole commands are written, and the rest is kept. Then the lines are told, and behind a reset the shelf is
//! asked. No failed write to the error sink stops a run. `tell_answer` writes the error
//! line of an answer that is given without a run.
#![tactic(auto)]

mod asking;
mod halts;
mod parts;
mod passing;
mod running;
mod telling;

pub use driver_answer::{Answer, JobCause, JobStop, UsageCause, UsageFault};
pub use page_tally::Telling;
pub use passing::MOST_JOB;
pub use running::run;
pub use telling::tell_answer;
