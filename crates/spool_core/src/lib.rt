//! A run of the spool: the files of several senders are printed on one printer, one job after another.
//!
//! `run_spool` promises `SpoolPromises`. The cause of the report's answer holds for what was read, written and counted
//! (`outcome`), and the answer's status is returned. The error sink got a line for each job that ran and then the line
//! of the answer, or a proper prefix of these lines after a failed write (`told`). A valid run, on a shelf that reports
//! its files, ends with 0 or 7 if nothing outside fails and no page goes past a cap (`valid`). No page does if each
//! meter has room for all pages of all files (`roomy`). The shelf is unchanged if a word is refused
//! (`refused_unasked`).
//!
//! On 1 to 4, and on 7 if no job ran, nothing was written and no meter counted (`PrintsNone`). Each job that ran has
//! the outcome that `driver_core::print_stream` promises, from where the job before it left the output and the meters
//! (`PrintsJobs`). The jobs that ran are the first files of each sender, in order and numbered from 1 (`PrintsFirst`).
//! On 0 and 9, and on 7 if a job ran, they are all files of each sender (`PrintsEvery`). On 5 the last job that ran is
//! the one whose write failed (`StopsAtWrite`).
//!
//! `prepare` reads the words, the profile and all files. `Desk::make` takes the memory for the queue and the report.
//! `send_all` lets each sender submit, on a thread of its own if one can be started. `print_jobs` takes and prints jobs
//! on the caller's thread. These calls may wait for each other; their promises hold if they return.
//!
//! No clause says when memory runs out, or that more than one thread ran.
#![tactic(auto)]

mod answer;
mod desks;
mod files;
mod preparing;
mod printing;
mod report;
mod running;
mod senders;
mod source;
mod stops;

pub use answer::SpoolAnswer;
pub use files::{FileCause, MOST_FILE, MOST_FILES};
pub use report::{Ran, SpoolReport, tell};
pub use running::run_spool;
pub use spool_words::{SpoolCause, SpoolFault};
