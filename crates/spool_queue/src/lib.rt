//! A spool: up to eight senders submit jobs, one printer takes them, and a bounded queue carries them. A `SendPass` is
//! one sender's right to submit, and the `PrintPass` is the right to take. All passes may be used at once, each by a
//! thread of its own.
//!
//! The rule of the spool (`specs/Rule.antt`) holds between any two steps of the queue, in every order of the threads.
//! For each sender, its jobs that were taken, and then its jobs in the queue, are the streams that its pass has sent,
//! in order and numbered from 1. Nothing else is there. By `laws` each step keeps the rule, and so no job is lost,
//! doubled, or taken before an earlier job of its sender. Which of two senders' jobs is taken first is left open.
//!
//! - `make` takes all the memory that the spool ever needs, or returns `Memory`. No other call allocates memory.
//! - `submit` returns the job's number and appends the stream to the pass's list. It tries again while the queue is
//!   full.
//! - `take` returns a job, its sender's next one, and appends it to the pass's list. It tries again while the queue is
//!   empty.
//! - `finish` takes all passes, and returns the jobs that were not taken. `settle` spends all passes while others still
//!   share the spool: the jobs taken are the first of the jobs sent, and all of them if as many were taken as sent.
//!   Both need the passes in the order of their senders, which `sender` returns.
//!
//! `submit`, `take` and `finish` take `Wait`: their promises hold when they return. A push that a full queue refuses
//! changes neither the queue nor a list, and neither does a pop that finds nothing.
#![tactic(auto)]

mod calls;
mod ends;
pub mod examples;
mod job;
mod kinds;
pub mod laws;
mod rule;

pub use job::{SpoolJob, StreamBytes};
pub use kinds::{PrintPass, SendPass, Spool};
