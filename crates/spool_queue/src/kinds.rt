//! A spool and its passes.
ghost use Rattle.std.specs.Prelude.{[], length, vec_capacity, ◌≡◌, ◌≤◌};
ghost use Rattle.crossbeam_queue.specs.Passes.{ruled_capacity, view};
ghost use Rattle.spool_queue.specs.Rule.{printer_view, sender_view};

use crate::job::SpoolJob;
use crate::rule::{QueueView, SpoolRule};
use crossbeam_queue::{Pass, RuledArrayQueue};

pub(crate) type JobQueue = RuledArrayQueue<SpoolJob, QueueView, SpoolRule>;

/// A bounded queue of jobs from 1 to 8 senders to one printer. Its calls take it by `&`, so threads may share it.
#[derive(Drop)]
pub struct Spool {
    pub(crate) queue: JobQueue,
    // Empty, with capacity for all jobs of the queue, so that `finish` takes no memory.
    pub(crate) rest: Vec<SpoolJob>,
    ghost room: { (rest.items ≡ []) × (ruled_capacity queue ≤ vec_capacity rest) },
}

/// The right to submit as one sender.
#[derive(Drop)]
pub struct SendPass {
    pub(crate) pass: Pass<SpoolJob, QueueView>,
    pub(crate) sender: u8,
    // How many streams it has sent.
    pub(crate) sent: u32,
    ghost role: { view pass ≡ sender_view sender (view pass).sent },
    ghost count: { length (view pass).sent ≡ sent },
}

/// The right to take.
#[derive(Drop)]
pub struct PrintPass {
    pub(crate) pass: Pass<SpoolJob, QueueView>,
    // How many jobs it has taken.
    pub(crate) taken: u32,
    ghost role: { view pass ≡ printer_view (view pass).senders (view pass).taken [] },
    ghost count: { length (view pass).taken ≡ taken },
}
