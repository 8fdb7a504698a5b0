//! How a spool is made and finished.
ghost use Rattle.std.specs.Prelude.{All, IfOk, List, [], length, map, vec_capacity, ◌++◌, ◌≡◌, ◌≤◌};
ghost use Rattle.base_definitions.specs.Counting.{count_from};
ghost use Rattle.crossbeam_queue.specs.Passes.{IsPassOf, ruled_capacity, view};
ghost use Rattle.spool_queue.specs.Jobs.{AreSent, count_sent, sent_by};
ghost use Rattle.spool_queue.specs.Passes.{AreAllPasses, room_of, sender_of, sent_lists, sent_of, senders_of, taken_of};
ghost use Rattle.spool_queue.specs.Rule.{printer_view};
ghost use Rattle.spool_queue.specs.declared.job.SpoolJob.{SpoolJob};

use crate::job::SpoolJob;
use crate::kinds::{JobQueue, PrintPass, SendPass, Spool};
use crate::rule::{Drains, Ends, Enrols, QueueView};
use base_definitions::Memory;
use crossbeam_queue::Pass;
use std::alloc::Global;
use std::sync::Wait;

impl Spool {
    /// A spool whose queue has room for `room` jobs, 1 to 65,536, with the passes of 1 to 8 senders, in their order,
    /// and the printer's pass. Returns `Memory` if there is no memory for all that the spool ever needs.
    pub fn make(
        alloc: Global,
        senders: u8,
        room: u32,
    ) -> Result<(Spool, Vec<SendPass>, PrintPass), Memory>
        requires senders { (1 ≤ senders) × (senders ≤ 8) }
        requires room { (1 ≤ room) × (room ≤ 65536) }
        ensures passes { IfOk result (λ r. AreAllPasses r.0 r.1.items r.2) }
        ensures room { IfOk result (λ r. room_of r.0 ≡ room) }
        ensures senders { IfOk result (λ r. (length r.1.items ≡ senders) × (senders_of r.2 ≡ senders)) }
        ensures sent { IfOk result (λ r. All (λ pass. sent_of pass ≡ []) r.1.items) }
        ensures taken { IfOk result (λ r. taken_of r.2 ≡ []) }
    {
        let rest = Vec::with_capacity(alloc, room as usize)?;
        let mut passes = Vec::with_capacity(alloc, usize::from(senders))?;
        let (queue, mut pass) = JobQueue::ruled(alloc, room as usize)?;
        for i in 0..senders {
            let next = queue.another::<Enrols>(&mut pass);
            passes.push_reserved(SendPass {
                pass: next,
                sender: i + 1,
                sent: 0,
            });
        }
        let spool = Spool { queue, rest };
        Ok((spool, passes, PrintPass { pass, taken: 0 }))
    }

    /// Spends all passes while the spool is still shared. The jobs taken are the beginning of the jobs sent, and all of
    /// them if as many jobs were taken as sent. The call does nothing else.
    pub fn settle(&self, senders: Vec<SendPass>, printer: PrintPass)
        requires { AreAllPasses self.now senders.items printer }
        ensures rest { (rest : List SpoolJob)
            × AreSent (sent_by (sent_lists senders.items)) (taken_of printer ++ rest) }
        ensures few { length (taken_of printer) ≤ count_sent (sent_lists senders.items) }
        ensures all { length (taken_of printer) ≡ count_sent (sent_lists senders.items)
            → AreSent (sent_by (sent_lists senders.items)) (taken_of printer) }
    {
        let PrintPass { mut pass, taken: _ } = printer;
        gather(&self.queue, &mut pass, senders);
        self.queue.learn_as::<Drains>(&mut pass);
    }

    /// Returns the jobs that were not taken, the jobs of each sender in its order.
    pub fn finish<R: Wait>(
        self,
        rt: &R,
        senders: Vec<SendPass>,
        printer: PrintPass,
    ) -> Vec<SpoolJob>
        requires { AreAllPasses self senders.items printer }
        ensures { AreSent (sent_by (sent_lists senders.items)) (taken_of printer ++ result.items) }
    {
        let Spool { queue, rest } = self;
        let PrintPass { mut pass, taken: _ } = printer;
        gather(&queue, &mut pass, senders);
        drain(rt, &queue, &mut pass, rest)
    }
}

// Gives the printer the passes of all senders: it then knows what they sent.
fn gather(queue: &JobQueue, pass: &mut Pass<SpoolJob, QueueView>, senders: Vec<SendPass>)
    requires pass { IsPassOf queue.now pass.old }
    requires role { view pass.old ≡ printer_view (view pass.old).senders (view pass.old).taken [] }
    requires senders { All (λ p. IsPassOf queue.now p.pass) senders.items }
    requires order { map sender_of senders.items ≡ count_from 1 (view pass.old).senders }
    ensures pass { IsPassOf queue.now pass.new }
    ensures view { view pass.new
        ≡ printer_view (view pass.old).senders (view pass.old).taken (sent_lists senders.items) }
{
    for sender in senders {
        let SendPass {
            pass: ended,
            sender: _,
            sent: _,
        } = sender;
        queue.absorb::<Ends>(pass, ended);
    }
}

// Takes all that is left. There are no more jobs than the queue holds, so it takes no memory.
fn drain<R: Wait>(
    rt: &R,
    queue: &JobQueue,
    pass: &mut Pass<SpoolJob, QueueView>,
    mut rest: Vec<SpoolJob>,
) -> Vec<SpoolJob>
    requires pass { IsPassOf queue.now pass.old }
    requires role { view pass.old
        ≡ printer_view (view pass.old).senders (view pass.old).taken (view pass.old).ended }
    requires all { length (view pass.old).ended ≡ (view pass.old).senders }
    requires room { (rest.items ≡ []) × (ruled_capacity queue.now ≤ vec_capacity rest) }
    ensures { AreSent (sent_by (view pass.old).ended) ((view pass.old).taken ++ result.items) }
{
    // Asked for what it teaches: all that was sent and not taken is in the queue, which has room for it.
    let _count = queue.len_as::<Drains, R>(rt, pass);
    for _ in rt.forever() {
        match queue.pop_as::<Drains, R>(rt, pass) {
            Some(job) => rest.push_reserved(job),
            None => return rest,
        }
    }
    unreachable!()
}
