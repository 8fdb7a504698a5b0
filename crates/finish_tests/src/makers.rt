//! The calls that take memory, besides `run`: each succeeds if there is enough.
use crate::plain::{finished, prefix};
use crate::runs::{AT_ONCE, BY_BYTES, Way, sink, source};
use job_finisher::{FinishStop, JobCause, JobFinisher, JobStop, finish_job};
use job_fixtures::TINY_JOB;
use page_watch::PageWatch;
use std::alloc::Global;
use std::process::Abort;
use std::test::Fail;

// The most bytes of a job, how it is given and taken, the answer, how many bytes of it are taken, and how many of what
// they become are written.
type Row = (u64, Way, Result<(), FinishStop>, usize, usize);

// Asserts the answers to a job of 96 bytes, the last four of which are no command.
fn try_rows(rt: &impl Abort, alloc: Global, rows: &[Row]) -> Result<(), Fail> {
    let mut job = TINY_JOB.to_vec(alloc)?;
    job.extend_from_slice(b"\x1B\x28\x47\x41")?;
    for &(most, way, answer, taken, written) in rows {
        assert!(rt; most < 100);
        let (mut input, mut out) = (source(alloc, &job, way)?, sink(alloc, way)?);
        let got = finish_job(alloc, most, &mut input, &mut out);
        let wanted = finished(alloc, prefix(&job, taken))?.out;
        let got = (got, out.bytes());
        assert_eq!(rt;
            got,
            (answer, prefix(&wanted, written)),
            "at most {most} bytes, {way:?}"
        );
    }
    Ok(())
}

#[test]
fn a_job_is_finished(rt: HostRuntime) -> Result<(), Fail> {
    const UNREAD: Way = Way {
        failing_read: 65,
        ..BY_BYTES
    };
    const UNWRITTEN: Way = Way {
        failing_write: 66,
        ..BY_BYTES
    };
    const LENGTH: JobStop = JobStop::Reader(JobCause::BadLength);
    const ROWS: [Row; 5] = [
        (
            99,
            AT_ONCE,
            Err(FinishStop::Job {
                offset: 95,
                cause: LENGTH,
            }),
            96,
            99,
        ),
        (
            92,
            AT_ONCE,
            Err(FinishStop::Job {
                offset: 92,
                cause: JobStop::TooLong,
            }),
            92,
            99,
        ),
        (
            64,
            BY_BYTES,
            Err(FinishStop::Job {
                offset: 64,
                cause: JobStop::TooLong,
            }),
            64,
            99,
        ),
        (99, UNREAD, Err(FinishStop::Read), 64, 99),
        (99, UNWRITTEN, Err(FinishStop::Write), 92, 65),
    ];
    try_rows(&rt, rt.alloc(), &ROWS)
}

#[test]
fn a_finisher_and_a_watch_are_made(rt: HostRuntime) -> Result<(), Fail> {
    let finisher = JobFinisher::make(rt.alloc())?;
    let watch = PageWatch::make(rt.alloc())?;
    let mut out = sink(rt.alloc(), AT_ONCE)?;
    let got = (
        finisher.end(&mut out),
        out.bytes().len(),
        watch.tally().sheets,
    );
    assert_eq!(rt; got, (Ok(()), 0, 0));
    Ok(())
}
