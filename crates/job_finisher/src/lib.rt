//! A print job that is passed on while its bytes come, and whose page is ended where the job ends.
//!
//! `finish_job` takes a job of at most `most` bytes from a source, and ends as `FinishResult` says. On `Ok` the source
//! is at its end, and the job is whole or is cut inside a command. On `Job` the command table refuses what was taken,
//! at this offset, or the job is too long. On `Read` a read failed. In these three cases the sink grew by exactly
//! `finished` of the job's bytes that were taken: their whole commands, and the commands that end their page. On
//! `Write` a write failed, also if a read failed before it, and the sink took a proper prefix of these bytes. On
//! `Memory` nothing was taken or written: all memory is taken before the first byte.
//!
//! `JobFinisher::pass` takes the job in pieces of any length (`Passed`). Before it returns, the sink has taken each
//! command that is whole, byte for byte. So only the bytes of the command in hand are held back. `JobFinisher::end`
//! writes the commands that end the page. `make` allocates all memory, also for the bytes of the largest command.
//!
//! A `HeldCommand` has the bytes in hand alone. It is for a caller that reads the job's commands anyhow, and knows of
//! each piece where the last whole command ends.
#![tactic(auto)]

mod finisher;
mod hearing;
mod holding;
mod job;

pub use escp2_definitions::{JobCause, JobStop};
pub use finisher::{JobFinisher, PassStop};
pub use holding::HeldCommand;
pub use job::{FinishStop, finish_job};
