//! A black page that is printed in two passes: every prefix of it and of its job, every failing read and every failing
//! write.
use crate::faults::answers::Answer;
use crate::faults::fixture::{BY_BYTES, Calls, call_behind, leaves};
use driver_fixtures::{black_pages, prefix};
use job_fixtures::{TINY_IMAGES, TINY_JOB};
use std::alloc::{AllocError, Global};
use std::process::Abort;
use std::test::Fail;
use std::thread::Threads;

// The bytes of a stream of one black page.
const STREAM: usize = 1803;

// The status, the output and the error line that a run leaves.
type Wanted = (u8, &'static [u8], &'static str);

// Asserts what printing by the printer `tiny` leaves.
fn prints<R: Abort + Threads + Sync>(
    rt: &R,
    alloc: Global,
    bytes: &[u8],
    calls: Calls,
    (status, out, line): Wanted,
) -> Result<(), Fail> {
    let wanted = Answer::of(alloc, status, out, line)?;
    leaves(rt, alloc, &["print", "profile=tiny"], bytes, calls, &wanted)
}

// What the first bytes of the stream leave.
fn answer_to_prefix(count: usize) -> Wanted {
    match count {
        0..=3 => (3, b"", "input: page 0 line 0: BadSync\n"),
        4 => (0, b"", ""),
        5..=1799 => (3, b"", "input: page 1 line 0: Truncated\n"),
        1800..=1802 => (3, b"", "input: page 1 line 1: Truncated\n"),
        _ => (0, &TINY_JOB, ""),
    }
}

// Asserts what a stream leaves where the read behind so many bytes fails.
fn try_read<R: Abort + Threads + Sync>(
    rt: &R,
    alloc: Global,
    bytes: &[u8],
    taken: usize,
) -> Result<(), Fail> {
    let calls = Calls {
        failing_read: call_behind(taken),
        ..BY_BYTES
    };
    let out: &'static [u8] = if taken < STREAM { b"" } else { &TINY_JOB };
    prints(rt, alloc, bytes, calls, (4, out, "read failed\n"))
}

#[test]
fn every_prefix_and_read_of_a_woven_page_has_its_answer(rt: HostRuntime) -> Result<(), Fail> {
    let whole = black_pages(rt.alloc(), 2)?;
    for count in 0..STREAM + 1 {
        let bytes = prefix(&whole, count);
        prints(&rt, rt.alloc(), bytes, BY_BYTES, answer_to_prefix(count))?;
        try_read(&rt, rt.alloc(), prefix(&whole, STREAM), count)?;
    }
    // the first byte of a second page
    try_read(&rt, rt.alloc(), &whole, STREAM)
}

// Where the commands of the page's job begin, and where it ends.
const BEGINS: [usize; 18] = [
    0, 2, 8, 14, 20, 23, 30, 39, 46, 49, 50, 64, 71, 74, 75, 89, 90, 92,
];

// What playing the first bytes of the job leaves. The sheet is ejected at 89.
fn answer_to_part(alloc: Global, count: usize) -> Result<Answer, AllocError> {
    let out: &[u8] = if count < 90 { b"" } else { TINY_IMAGES };
    let mut last = 0;
    for &begin in &BEGINS {
        if begin <= count {
            last = begin;
        }
    }
    if last == count {
        return Answer::of(alloc, 0, out, "");
    }
    let line = format!(in alloc; "job: offset {last}: Cut\n")?;
    Answer::of(alloc, 8, out, &line)
}

// Asserts what each failing write of the page leaves.
fn try_writes<R: Abort + Threads + Sync>(rt: &R, alloc: Global) -> Result<(), Fail> {
    let page = black_pages(alloc, 1)?;
    for written in 0..TINY_JOB.len() {
        let calls = Calls {
            failing_write: call_behind(written),
            ..BY_BYTES
        };
        let wanted = (5, prefix(&TINY_JOB, written), "write failed: page 1\n");
        prints(rt, alloc, &page, calls, wanted)?;
    }
    Ok(())
}

#[test]
fn every_write_and_prefix_of_its_job_has_its_answer(rt: HostRuntime) -> Result<(), Fail> {
    let (alloc, words) = (rt.alloc(), ["dots", "profile=tiny"]);
    try_writes(&rt, alloc)?;
    for count in 0..TINY_JOB.len() + 1 {
        let wanted = answer_to_part(alloc, count)?;
        let bytes = prefix(&TINY_JOB, count);
        leaves(&rt, alloc, &words, bytes, BY_BYTES, &wanted)?;
    }
    Ok(())
}
