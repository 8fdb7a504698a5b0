//! Pseudo-random jobs, whole, cut and with a byte changed: the driver answers as the slow programs do.
use crate::fixture::leaves;
use crate::jobs::random::{Random, random_job};
use driver_fixtures::{no_files, roomy, run_over, source};
use job_fixtures::{PlainOutcome, listed, played};
use std::alloc::Global;
use std::process::Abort;
use std::test::Fail;
use std::thread::Threads;

// Asserts that a command has this outcome for a job.
fn has_outcome<R: Abort + Threads + Sync>(
    rt: &R,
    alloc: Global,
    words: &[&str],
    job: &[u8],
    piece: u32,
    plain: &PlainOutcome,
) -> Result<(), Fail> {
    let (status, line) = match plain.stop {
        Some((at, cause)) => (8, format!(in alloc; "job: offset {at}: {cause}\n")?),
        None => (0, String::new(alloc)),
    };
    let input = source(alloc, job.to_vec(alloc)?, piece, 0)?;
    let left = run_over(rt, alloc, words, input, roomy(alloc)?, no_files(alloc))?;
    let wanted = (status, plain.out.as_slice(), line.as_bytes());
    leaves(rt, "a pseudo-random job", &left, wanted);
    Ok(())
}

// Asserts that the driver lists and plays a job, read in pieces of some length, as the slow programs do.
fn is_alike<R: Abort + Threads + Sync>(
    rt: &R,
    alloc: Global,
    job: &[u8],
    piece: u32,
) -> Result<(), Fail> {
    has_outcome(rt, alloc, &["list"], job, piece, &listed(alloc, job)?)?;
    let dots = ["dots", "profile=tiny"];
    has_outcome(rt, alloc, &dots, job, piece, &played(alloc, job)?)
}

// Asserts the same of a job, of the job cut somewhere, and of the job with a byte changed.
fn are_alike<R: Abort + Threads + Sync>(
    rt: &R,
    alloc: Global,
    random: &mut Random,
) -> Result<(), Fail> {
    let mut job = random_job(alloc, random)?;
    let piece = 1 + u32::from(random.byte(200));
    is_alike(rt, alloc, &job, piece)?;
    let len = job.len() as u64;
    let cut = job.get(..random.below(len + 1) as usize);
    is_alike(rt, alloc, cut.unwrap_or(&[]), piece)?;
    if let Some(byte) = job.get_mut(random.below(len + 1) as usize) {
        *byte = random.any_byte();
    }
    is_alike(rt, alloc, &job, piece)
}

#[test]
fn random_jobs_are_listed_and_played_as_plain_programs_do(rt: HostRuntime) -> Result<(), Fail> {
    let mut random = Random {
        state: 0x9E37_79B9_7F4A_7C15,
    };
    for _ in 0..120 {
        are_alike(&rt, rt.alloc(), &mut random)?;
    }
    Ok(())
}
