//! Reads and writes that fail.
use crate::plain::{finished, joined, prefix};
use crate::runs::{BY_BYTES, Way, call_behind, leaves};
use job_fixtures::TINY_JOB;
use std::alloc::Global;
use std::process::Abort;
use std::test::Fail;

#[test]
fn a_read_that_fails_ends_the_page(rt: HostRuntime) -> Result<(), Fail> {
    for taken in 0..TINY_JOB.len().saturating_add(1) {
        let way = Way {
            failing_read: call_behind(taken),
            ..BY_BYTES
        };
        let plain = finished(rt.alloc(), prefix(&TINY_JOB, taken))?;
        let wanted = (4, plain.out.as_slice(), b"read failed\n".as_slice());
        leaves(&rt, rt.alloc(), &[], &TINY_JOB, way, wanted)?;
    }
    Ok(())
}

// Asserts what is left of a job if the write behind so many bytes fails, whether the job is read by bytes or not.
fn try_write(
    rt: &impl Abort,
    alloc: Global,
    job: &[u8],
    out: &[u8],
    count: usize,
) -> Result<(), Fail> {
    // the page in hand, behind the form feeds that were written
    let page = finished(alloc, prefix(job, count))?.pages.saturating_add(1);
    let line = format!(in alloc; "write failed: page {page}\n")?;
    for read in [1, 4096] {
        let way = Way {
            read,
            failing_write: call_behind(count),
            ..BY_BYTES
        };
        let wanted = (5, prefix(out, count), line.as_bytes());
        leaves(rt, alloc, &[], job, way, wanted)?;
    }
    Ok(())
}

#[test]
fn a_write_that_fails_leaves_a_part_of_the_finished_job(rt: HostRuntime) -> Result<(), Fail> {
    let two = joined(rt.alloc(), &[&TINY_JOB, &TINY_JOB])?;
    // two whole pages; and the second one cut behind a raster, and before its margins
    for length in [184, 156, 122] {
        let job = prefix(&two, length);
        let out = finished(rt.alloc(), job)?.out;
        for count in 0..out.len() {
            try_write(&rt, rt.alloc(), job, &out, count)?;
        }
    }
    Ok(())
}
