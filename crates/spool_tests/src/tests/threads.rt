//! The queue between threads.
ghost use Rattle.spool_core.specs.Senders.{CanSend};
ghost use Rattle.spool_queue.specs.Passes.{IsSenderOf, sender_of, sent_of};
ghost use Rattle.std.specs.Arc.{arc_value};
ghost use Rattle.std.specs.Prelude.{All, IfOk, [], length, map, ◌≡◌, ◌∷◌};

use super::team::{Work, left_by_two, submit_all, take_all, take_of_two};
use super::{Shown, same, same_jobs, shown, stream};
use spool_queue::{SendPass, Spool, SpoolJob, StreamBytes};
use std::alloc::{AllocError, Global};
use std::process::Abort;
use std::sync::{Arc, Wait};
use std::test::*;
use std::thread;
use std::thread::{JoinHandle, Threads, sleep};
use std::time::{Clock, Duration};

// The streams 1, 2 and so on, of one byte each.
fn streams(alloc: Global, count: u8) -> Result<Vec<StreamBytes>, Fail>
    ensures { IfOk result (λ v. length v.items ≡ count) }
{
    let mut streams = Vec::new(alloc);
    for i in 0..count {
        streams.push(stream(alloc, i + 1)?)?;
    }
    Ok(streams)
}

// The two passes of a list.
fn two_of(mut senders: Vec<SendPass>) -> (SendPass, SendPass)
    requires { length senders.items ≡ 2 }
    ensures { senders.items ≡ result.0 ∷ result.1 ∷ [] }
{
    let Some(two) = senders.pop() else {
        unreachable!()
    };
    let Some(one) = senders.pop() else {
        unreachable!()
    };
    (one, two)
}

// Submits all streams after a while, by a thread that owns what it uses.
fn submit_later<R: Wait + Clock + Copy>(
    rt: R,
    spool: Arc<Spool, Global>,
    work: Work,
    delay: Duration,
) -> SendPass
    requires { CanSend (arc_value spool) work.pass work.streams.items }
{
    sleep(&rt, delay);
    submit_all(&rt, &spool, work)
}

// Starts a thread that submits all streams after a while.
fn start<R: Threads + Wait + Clock + Copy + Send + 'static>(
    rt: R,
    spool: &Arc<Spool, Global>,
    work: Work,
    delay: Duration,
) -> Result<JoinHandle<SendPass>, AllocError>
    requires { CanSend (arc_value spool.now) work.pass work.streams.items }
{
    let theirs = Arc::try_clone(spool)?;
    let sender = thread::spawn(
        &rt,
        move || -> SendPass
            requires { CanSend (arc_value theirs) work.pass work.streams.items }
        { submit_later(rt, theirs, work, delay) },
    )?;
    Ok(sender)
}

// Stops the test where a sender's jobs are not so many, in order, each with its stream.
fn in_order(rt: &impl Abort, jobs: &[SpoolJob], sender: u8, count: u32) {
    let mut next = 1u32;
    for job in jobs {
        if job.sender == sender {
            let byte = (next % 256) as u8;
            same(
                rt,
                "a sender's job",
                &shown(job),
                &(sender, next, Some(byte)),
            );
            next = next.wrapping_add(1);
        }
    }
    same(
        rt,
        "after a sender's last job",
        &next,
        &count.wrapping_add(1),
    );
}

#[test]
fn two_senders_share_a_room_of_three(rt: HostRuntime) -> Result<(), Fail> {
    let alloc = rt.alloc();
    let room = Vec::with_capacity(alloc, 200)?;
    let (ones, twos) = (streams(alloc, 100)?, streams(alloc, 100)?);
    let Ok((spool, senders, mut printer)) = Spool::make(alloc, 2, 3) else {
        panic!(rt; "memory");
    };
    let spool = Arc::new(alloc, spool)?;
    let (pass, other) = two_of(senders);
    let one = Work {
        pass,
        streams: ones,
    };
    let two = Work {
        pass: other,
        streams: twos,
    };
    let one = start(rt, &spool, one, Duration::ZERO)?;
    let two = start(rt, &spool, two, Duration::ZERO)?;
    let jobs = take_all(&rt, &spool, &mut printer, 200, room);
    in_order(&rt, jobs.as_slice(), 1, 100);
    in_order(&rt, jobs.as_slice(), 2, 100);
    let sent = (one.join(&rt).sent(), two.join(&rt).sent());
    same(
        &rt,
        "sent and taken",
        &(sent, printer.taken()),
        &((100, 100), 200),
    );
    Ok(())
}

// What the printer takes of three jobs through a room of one, where sender and printer begin after these whiles.
fn through_one<R: Threads + Wait + Clock + Copy + Send + 'static>(
    rt: R,
    alloc: Global,
    sender: Duration,
    printer: Duration,
) -> Result<Vec<SpoolJob>, Fail> {
    let room = Vec::with_capacity(alloc, 3)?;
    let streams = streams(alloc, 3)?;
    let Ok((spool, mut senders, mut taker)) = Spool::make(alloc, 1, 1) else {
        return Err(AllocError.into());
    };
    let Some(pass) = senders.pop() else {
        unreachable!()
    };
    let spool = Arc::new(alloc, spool)?;
    let work = Work { pass, streams };
    let started = start(rt, &spool, work, sender)?;
    sleep(&rt, printer);
    let jobs = take_all(&rt, &spool, &mut taker, 3, room);
    started.join(&rt);
    Ok(jobs)
}

const THREE: [Shown; 3] = [(1, 1, Some(1)), (1, 2, Some(2)), (1, 3, Some(3))];

#[test]
fn a_refused_push_and_an_empty_pop_lose_nothing(rt: HostRuntime) -> Result<(), Fail> {
    let pause = Duration::from_millis(30);
    for (sender, printer) in [(Duration::ZERO, pause), (pause, Duration::ZERO)] {
        let jobs = through_one(rt, rt.alloc(), sender, printer)?;
        same_jobs(&rt, "through a room of one", jobs.as_slice(), &THREE);
    }
    Ok(())
}

// The work of two senders that have sent nothing: two streams and three.
fn work_of_two(alloc: Global, spool: &Spool, senders: Vec<SendPass>) -> Result<(Work, Work), Fail>
    requires passes { All (IsSenderOf spool.now) senders.items }
    requires order { map sender_of senders.items ≡ 1 ∷ 2 ∷ [] }
    requires sent { All (λ pass. sent_of pass ≡ []) senders.items }
    ensures one { IfOk result (λ works. CanSend spool.now works.0.pass works.0.streams.items
        × (sender_of works.0.pass ≡ 1) × (length works.0.streams.items ≡ 2)) }
    ensures two { IfOk result (λ works. CanSend spool.now works.1.pass works.1.streams.items
        × (sender_of works.1.pass ≡ 2) × (length works.1.streams.items ≡ 3)) }
{
    let (ones, twos) = (streams(alloc, 2)?, streams(alloc, 3)?);
    let (pass, other) = two_of(senders);
    let one = Work {
        pass,
        streams: ones,
    };
    let two = Work {
        pass: other,
        streams: twos,
    };
    Ok((one, two))
}

#[test]
fn all_senders_send_before_the_printer_takes(rt: HostRuntime) -> Result<(), Fail> {
    let alloc = rt.alloc();
    let passes = Vec::with_capacity(alloc, 2)?;
    let room = Vec::with_capacity(alloc, 5)?;
    let Ok((spool, senders, printer)) = Spool::make(alloc, 2, 5) else {
        panic!(rt; "memory");
    };
    let (one, two) = work_of_two(alloc, &spool, senders)?;
    let jobs = take_of_two(&rt, &spool, one, two, printer, 5, passes, room);
    in_order(&rt, jobs.as_slice(), 1, 2);
    in_order(&rt, jobs.as_slice(), 2, 3);
    same(&rt, "all jobs", &jobs.len(), &5);
    Ok(())
}

#[test]
fn the_pass_of_the_second_sender_comes_back_first(rt: HostRuntime) -> Result<(), Fail> {
    let alloc = rt.alloc();
    let passes = Vec::with_capacity(alloc, 2)?;
    let Ok((spool, senders, printer)) = Spool::make(alloc, 2, 5) else {
        panic!(rt; "memory");
    };
    let (one, two) = work_of_two(alloc, &spool, senders)?;
    let jobs = left_by_two(&rt, spool, one, two, printer, passes);
    in_order(&rt, jobs.as_slice(), 1, 2);
    in_order(&rt, jobs.as_slice(), 2, 3);
    same(&rt, "the jobs that are left", &jobs.len(), &5);
    Ok(())
}
