//! The whole run of the driver: words and bytes in, bytes, a status and an error line out.
//!
//! `run` promises `AllPromises`: the record `Promises`, which holds for every command, and a record for each command.
//! `docs/PROOF.md` lists their fields. By the first field, `answered`, there is an answer: `run` returns its status,
//! its cause holds for what was read and written (`Outcome`), and the error sink got its line, or a proper prefix of
//! the line after a failed write (`Told`). The shelf is unchanged if the profile is built in (`unasked`), and if a word
//! is refused (`refused_unasked`).
//!
//! A run prepares a command and performs it: `prepare` reads the words, sets the caps, finds the profile, and checks
//! that its head can go over pages as the words ask; `perform` does the command over input, output and meters.
//! `print_stream` prints one stream as a `PrintSetup` says, by a checked profile. A spool calls `print_stream` for each
//! of its jobs. `print_one` prints one stream as a `Job` asks, and `perform` calls `print_one` for `print`.
//!
//! Each command has a module, and its outcome, promises and proofs stand together: `print` in `Printing`, `dots` in
//! `Playing`, `list` in `Listing`, `profile` in `Showing`, `trial` in `Trying`. `Runs` has what the commands have in
//! common. A command ends in an `Answer`, as `PrintOutcome`, `PlayOutcome`, `ListOutcome`, `ShowOutcome` and
//! `TrialOutcome` say. `PrintOutcome` has the headline: on `Done` the job of all pages was written, and the job prints
//! the pages (`PrintsAll`). `PrintedOutcome` also says how many pages were written whole. `charge` counts a page on
//! each meter if all meters have room, else on none.
//!
//! No clause says when memory runs out. The status is then 7. Tests show that runs with ample memory do not end with 7.
#![tactic(auto)]

mod answers;
mod dots;
pub mod examples;
mod fitting;
mod list;
mod performing;
mod preparing;
mod print;
mod profile;
mod running;
mod trial;

pub use driver_answer::{Answer, ProfileCause, UsageCause, UsageFault};
pub use page_halftoner::Halftoner;
pub use print::{PrintSetup, Printed, print_one, print_stream};
pub use running::{run, tell};
pub use tile_shape::Place;
pub use worker_team::{Gate, OpenGate};
