//! Submitting and taking.
ghost use Rattle.std.specs.Prelude.{[], length, suc, ◌++◌, ◌<◌, ◌^◌, ◌≡◌, ◌∷◌};
ghost use Rattle.crossbeam_queue.specs.Passes.{IsPassOf, view};
ghost use Rattle.spool_queue.specs.Passes.{IsNextOf, IsPrinterOf, IsSenderOf, sender_of, senders_of, sent_of, taken_of};
ghost use Rattle.spool_queue.specs.Rule.{IsNext, printer_view, sender_view};

use crate::job::{SpoolJob, StreamBytes};
use crate::kinds::{JobQueue, PrintPass, SendPass, Spool};
use crate::rule::{PopsJob, QueueView, SendsJob};
use crossbeam_queue::Pass;
use std::sync::Wait;
use std::thread::yield_now;

impl SendPass {
    /// The sender, counted from 1 in the order in which `make` returned the passes.
    pub fn sender(&self) -> u8
        ensures { result ≡ sender_of self.now }
    {
        self.sender
    }

    /// How many streams the pass has sent.
    pub fn sent(&self) -> u32
        ensures { result ≡ length (sent_of self.now) }
    {
        self.sent
    }
}

impl PrintPass {
    /// How many jobs the pass has taken.
    pub fn taken(&self) -> u32
        ensures { result ≡ length (taken_of self.now) }
    {
        self.taken
    }
}

impl Spool {
    /// Puts a stream into the queue as the sender's next job, and returns the job's number. While the queue is full the
    /// call tries again, so it may wait for a `take`.
    pub fn submit<R: Wait>(&self, rt: &R, pass: &mut SendPass, stream: StreamBytes) -> u32
        requires pass { IsSenderOf self.now pass.old }
        requires few { length (sent_of pass.old) < 2 ^ 31 }
        ensures pass { IsSenderOf self.now pass.new }
        ensures sender { sender_of pass.new ≡ sender_of pass.old }
        ensures sent { sent_of pass.new ≡ sent_of pass.old ++ stream ∷ [] }
        ensures number { result ≡ length (sent_of pass.new) }
    {
        let number = pass.sent + 1;
        let job = SpoolJob {
            sender: pass.sender,
            number,
            stream,
        };
        push(rt, &self.queue, &mut pass.pass, job);
        pass.sent = number;
        number
    }

    /// Takes a job, its sender's next one. While the queue is empty the call tries again, so it may wait for a
    /// `submit`.
    pub fn take<R: Wait>(&self, rt: &R, pass: &mut PrintPass) -> SpoolJob
        requires pass { IsPrinterOf self.now pass.old }
        requires few { length (taken_of pass.old) < 2 ^ 31 }
        ensures pass { IsPrinterOf self.now pass.new }
        ensures senders { senders_of pass.new ≡ senders_of pass.old }
        ensures taken { taken_of pass.new ≡ taken_of pass.old ++ result ∷ [] }
        ensures next { IsNextOf pass.old result }
    {
        let job = pop(rt, &self.queue, &mut pass.pass);
        pass.taken += 1;
        job
    }
}

// Pushes the sender's next job: tries until the queue has room.
fn push<R: Wait>(rt: &R, queue: &JobQueue, pass: &mut Pass<SpoolJob, QueueView>, mut job: SpoolJob)
    requires pass { IsPassOf queue.now pass.old }
    requires role { view pass.old ≡ sender_view job.sender (view pass.old).sent }
    requires number { job.number ≡ suc (length (view pass.old).sent) }
    ensures pass { IsPassOf queue.now pass.new }
    ensures view { view pass.new ≡ sender_view job.sender ((view pass.old).sent ++ job.stream ∷ []) }
{
    for _ in rt.forever() {
        match queue.push_as::<SendsJob, R>(rt, pass, job) {
            Ok(()) => return,
            Err(refused) => job = refused,
        }
        yield_now();
    }
    unreachable!()
}

// Pops for the printer: tries until there is a job.
fn pop<R: Wait>(rt: &R, queue: &JobQueue, pass: &mut Pass<SpoolJob, QueueView>) -> SpoolJob
    requires pass { IsPassOf queue.now pass.old }
    requires role { view pass.old ≡ printer_view (view pass.old).senders (view pass.old).taken [] }
    ensures pass { IsPassOf queue.now pass.new }
    ensures view { view pass.new ≡ printer_view (view pass.old).senders ((view pass.old).taken ++ result ∷ []) [] }
    ensures next { IsNext (view pass.old) result }
{
    for _ in rt.forever() {
        if let Some(job) = queue.pop_as::<PopsJob, R>(rt, pass) {
            return job;
        }
        yield_now();
    }
    unreachable!()
}
