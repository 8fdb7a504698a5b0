//! The senders: each submits its streams, on a thread of its own if one can be started.
ghost use Rattle.spool_core.specs.Senders.{CanSend, HasSent, HaveSent, lists_in, senders_in};
ghost use Rattle.spool_queue.specs.Passes.{sender_of};
ghost use Rattle.std.specs.Prelude.{All, [], length, map, vec_capacity, ◌≡◌, ◌≤◌};
ghost use denote.Param.Send.{IsSync};

use spool_queue::{SendPass, Spool, StreamBytes};
use std::sync::Wait;
use std::thread::{Threads, join};

/// A sender's pass, and the streams that the sender is to send.
#[derive(Drop)]
pub struct Work {
    pub pass: SendPass,
    pub streams: Vec<StreamBytes>,
}

/// The work of each sender: the passes with the lists of streams, in their order. `works` has room for them.
pub fn assign(
    passes: Vec<SendPass>,
    lists: Vec<Vec<StreamBytes>>,
    mut works: Vec<Work>,
) -> Vec<Work>
    requires same { length passes.items ≡ length lists.items }
    requires none { works.items ≡ [] }
    requires room { length passes.items ≤ vec_capacity works }
    ensures passes { map (λ w. w.pass) result.items ≡ passes.items }
    ensures lists { map (λ w. w.streams) result.items ≡ lists.items }
{
    let mut rest = lists.into_iter();
    for pass in passes {
        let Some(streams) = rest.next() else {
            unreachable!()
        };
        works.push_reserved(Work { pass, streams });
    }
    works
}

/// Submits all streams, in order.
pub(crate) fn submit_all<R: Wait>(rt: &R, spool: &Spool, work: Work) -> SendPass
    requires { CanSend spool.now work.pass work.streams.items }
    ensures { HasSent spool.now result (sender_of work.pass) work.streams.items }
{
    let Work { mut pass, streams } = work;
    for stream in streams {
        spool.submit(rt, &mut pass, stream);
    }
    pass
}

/// Each sender submits all its streams, on a thread of its own if one can be started, else on the caller's. Returns
/// when all senders have submitted.
#[cycle(senders)]
pub(crate) fn send_all<R: Threads + Wait + Sync>(
    rt: &R,
    spool: &Spool,
    mut works: Vec<Work>,
    ended: Vec<SendPass>,
) -> Vec<SendPass>
    requires works { All (λ w. CanSend spool.now w.pass w.streams.items) works.items }
    requires none { ended.items ≡ [] }
    requires room { length works.items ≤ vec_capacity ended }
    ensures sent { HaveSent spool.now result.items (senders_in works.items) (lists_in works.items) }
    ensures room { vec_capacity result ≡ vec_capacity ended }
{
    let Some(last) = works.pop() else {
        return ended;
    };
    let one = move || -> SendPass
        requires { IsSync R.row × CanSend spool.now last.pass last.streams.items }
        ensures { HasSent spool.entry.now result (sender_of last.pass) last.streams.items }
    { submit_all(rt, spool, last) };
    let others = move || -> Vec<SendPass>
        requires { IsSync R.row × All (λ w. CanSend spool.now w.pass w.streams.items) works.items × (ended.items ≡ [])
            × (length works.items ≤ vec_capacity ended) }
        ensures { HaveSent spool.entry.now result.items (senders_in works.items) (lists_in works.items)
            × (vec_capacity result ≡ vec_capacity ended) }
    { send_all(rt, spool, works, ended) };
    let (pass, mut passes) = join(rt, one, others);
    passes.push_reserved(pass);
    passes
}
