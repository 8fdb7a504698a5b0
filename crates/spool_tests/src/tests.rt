//! The queue on one thread, and what the tests share.
use spool_queue::{Spool, SpoolJob, StreamBytes};
use std::alloc::Global;
use std::fmt::Debug;
use std::process::Abort;
use std::test::*;

mod running;
mod team;
mod threads;
mod words;

// Stops the test where a call did not give what was wanted.
fn same<T: PartialEq + Debug>(rt: &impl Abort, at: &str, got: &T, want: &T) {
    assert_eq!(rt; *got, *want, "at {at}");
}

// A stream of one byte.
fn stream(alloc: Global, byte: u8) -> Result<StreamBytes, Fail> {
    Ok(StreamBytes::new(vec![in alloc; byte]?))
}

// A job's sender, number and first byte.
type Shown = (u8, u32, Option<u8>);

fn shown(job: &SpoolJob) -> Shown {
    (
        job.sender,
        job.number,
        job.stream.as_slice().first().copied(),
    )
}

// Stops the test where the jobs are others.
fn same_jobs(rt: &impl Abort, at: &str, jobs: &[SpoolJob], wanted: &[Shown]) {
    same(rt, at, &jobs.len(), &wanted.len());
    for (job, want) in jobs.iter().zip(wanted) {
        same(rt, at, &shown(job), want);
    }
}

#[test]
fn the_queue_keeps_its_order_on_one_thread(rt: HostRuntime) -> Result<(), Fail> {
    let alloc = rt.alloc();
    let (seven, eight, nine) = (stream(alloc, 7)?, stream(alloc, 8)?, stream(alloc, 9)?);
    let Ok((spool, mut senders, mut printer)) = Spool::make(alloc, 1, 2) else {
        panic!(rt; "memory");
    };
    let first = &mut senders[0];
    let one = spool.submit(&rt, first, seven);
    let two = spool.submit(&rt, first, eight);
    let job = spool.take(&rt, &mut printer);
    let three = spool.submit(&rt, first, nine);
    same(&rt, "submit", &(one, two, three), &(1, 2, 3));
    same(&rt, "take", &shown(&job), &(1, 1, Some(7)));
    same(&rt, "the lists", &(first.sent(), printer.taken()), &(3, 1));
    let rest = spool.finish(&rt, senders, printer);
    same_jobs(
        &rt,
        "finish",
        rest.as_slice(),
        &[(1, 2, Some(8)), (1, 3, Some(9))],
    );
    Ok(())
}

#[test]
fn jobs_of_two_senders_are_left_as_they_came(rt: HostRuntime) -> Result<(), Fail> {
    let alloc = rt.alloc();
    let (seven, eight, nine) = (stream(alloc, 7)?, stream(alloc, 8)?, stream(alloc, 9)?);
    let Ok((spool, mut senders, printer)) = Spool::make(alloc, 2, 3) else {
        panic!(rt; "memory");
    };
    spool.submit(&rt, &mut senders[1], seven);
    spool.submit(&rt, &mut senders[0], eight);
    spool.submit(&rt, &mut senders[1], nine);
    let rest = spool.finish(&rt, senders, printer);
    same_jobs(
        &rt,
        "finish",
        rest.as_slice(),
        &[(2, 1, Some(7)), (1, 1, Some(8)), (2, 2, Some(9))],
    );
    Ok(())
}
