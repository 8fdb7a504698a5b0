//! Two senders and a printer, proved: what comes through the queue is what the senders were to send.
ghost use Rattle.spool_core.specs.Senders.{CanSend, HasSent, HaveSent};
ghost use Rattle.spool_queue.specs.Jobs.{AreSent, count_sent, sent_by};
ghost use Rattle.spool_queue.specs.Passes.{IsPrinterOf, sender_of, senders_of, taken_of};
ghost use Rattle.std.specs.Prelude.{[], length, vec_capacity, ◌<◌, ◌^◌, ◌≡◌, ◌≤◌, ◌∷◌};
ghost use denote.Param.Send.{IsSync};

use spool_queue::{PrintPass, SendPass, Spool, SpoolJob, StreamBytes};
use std::sync::Wait;
use std::thread::{Threads, join};

/// A sender's pass, and what it is to send.
#[derive(Drop)]
pub(super) struct Work {
    pub(super) pass: SendPass,
    pub(super) streams: Vec<StreamBytes>,
}

/// Submits all streams, in order.
pub(super) fn submit_all<R: Wait>(rt: &R, spool: &Spool, work: Work) -> SendPass
    requires { CanSend spool.now work.pass work.streams.items }
    ensures { HasSent spool.now result (sender_of work.pass) work.streams.items }
{
    let Work { mut pass, streams } = work;
    for stream in streams {
        spool.submit(rt, &mut pass, stream);
    }
    pass
}

// Both passes, that of the lower sender first.
fn sorted(one: SendPass, other: SendPass, mut passes: Vec<SendPass>) -> Vec<SendPass>
    requires room { (passes.items ≡ []) × (2 ≤ vec_capacity passes) }
    ensures kept { sender_of one < sender_of other → result.items ≡ one ∷ other ∷ [] }
    ensures exchanged { sender_of other < sender_of one → result.items ≡ other ∷ one ∷ [] }
{
    if one.sender() < other.sender() {
        passes.push_reserved(one);
        passes.push_reserved(other);
    } else {
        passes.push_reserved(other);
        passes.push_reserved(one);
    }
    passes
}

/// Senders 1 and 2 send, each on a thread of its own where one can be started. That of sender 2 is joined first, so the
/// passes are sorted.
pub(super) fn send_two<R: Threads + Wait + Sync>(
    rt: &R,
    spool: &Spool,
    one: Work,
    two: Work,
    passes: Vec<SendPass>,
) -> Vec<SendPass>
    requires one { CanSend spool.now one.pass one.streams.items × (sender_of one.pass ≡ 1) }
    requires two { CanSend spool.now two.pass two.streams.items × (sender_of two.pass ≡ 2) }
    requires room { (passes.items ≡ []) × (2 ≤ vec_capacity passes) }
    ensures { HaveSent spool.now result.items (1 ∷ 2 ∷ []) (one.streams.items ∷ two.streams.items ∷ []) }
{
    let first = move || -> SendPass
        requires { IsSync R.row × CanSend spool.now one.pass one.streams.items }
        ensures { HasSent spool.entry.now result (sender_of one.pass) one.streams.items }
    { submit_all(rt, spool, one) };
    let second = move || -> SendPass
        requires { IsSync R.row × CanSend spool.now two.pass two.streams.items }
        ensures { HasSent spool.entry.now result (sender_of two.pass) two.streams.items }
    { submit_all(rt, spool, two) };
    let (later, earlier) = join(rt, second, first);
    sorted(later, earlier, passes)
}

/// Takes so many jobs.
pub(super) fn take_all<R: Wait>(
    rt: &R,
    spool: &Spool,
    printer: &mut PrintPass,
    count: u32,
    mut jobs: Vec<SpoolJob>,
) -> Vec<SpoolJob>
    requires pass { IsPrinterOf spool.now printer.old }
    requires none { taken_of printer.old ≡ [] }
    requires count { count < 2 ^ 31 }
    requires room { (jobs.items ≡ []) × (count ≤ vec_capacity jobs) }
    ensures pass { IsPrinterOf spool.now printer.new }
    ensures senders { senders_of printer.new ≡ senders_of printer.old }
    ensures jobs { result.items ≡ taken_of printer.new }
    ensures count { length (taken_of printer.new) ≡ count }
{
    for _ in 0..count {
        jobs.push_reserved(spool.take(rt, printer));
    }
    jobs
}

/// Both senders send, and then the printer takes all `count` jobs: of each sender its streams, in order.
pub(super) fn take_of_two<R: Threads + Wait + Sync>(
    rt: &R,
    spool: &Spool,
    one: Work,
    two: Work,
    mut printer: PrintPass,
    count: u32,
    passes: Vec<SendPass>,
    jobs: Vec<SpoolJob>,
) -> Vec<SpoolJob>
    requires one { CanSend spool.now one.pass one.streams.items × (sender_of one.pass ≡ 1) }
    requires two { CanSend spool.now two.pass two.streams.items × (sender_of two.pass ≡ 2) }
    requires printer { IsPrinterOf spool.now printer × (taken_of printer ≡ []) × (senders_of printer ≡ 2) }
    requires count { (count ≡ count_sent (one.streams.items ∷ two.streams.items ∷ [])) × (count < 2 ^ 31) }
    requires passes { (passes.items ≡ []) × (2 ≤ vec_capacity passes) }
    requires jobs { (jobs.items ≡ []) × (count ≤ vec_capacity jobs) }
    ensures { AreSent (sent_by (one.streams.items ∷ two.streams.items ∷ [])) result.items }
{
    let passes = send_two(rt, spool, one, two, passes);
    let jobs = take_all(rt, spool, &mut printer, count, jobs);
    spool.settle(passes, printer);
    jobs
}

/// Both senders send, and the printer takes none: all jobs are left.
pub(super) fn left_by_two<R: Threads + Wait + Sync>(
    rt: &R,
    spool: Spool,
    one: Work,
    two: Work,
    printer: PrintPass,
    passes: Vec<SendPass>,
) -> Vec<SpoolJob>
    requires one { CanSend spool one.pass one.streams.items × (sender_of one.pass ≡ 1) }
    requires two { CanSend spool two.pass two.streams.items × (sender_of two.pass ≡ 2) }
    requires printer { IsPrinterOf spool printer × (taken_of printer ≡ []) × (senders_of printer ≡ 2) }
    requires passes { (passes.items ≡ []) × (2 ≤ vec_capacity passes) }
    ensures { AreSent (sent_by (one.streams.items ∷ two.streams.items ∷ [])) result.items }
{
    let passes = send_two(rt, &spool, one, two, passes);
    spool.finish(rt, passes, printer)
}
