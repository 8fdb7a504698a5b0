//! Runs of the spool over files in memory.
use super::same;
use super::words::words_of;
use driver_core::OpenGate;
use driver_fixtures::{black_pages, roomy};
use ink_meter::{DotMeter, InkCounts, Meter};
use job_fixtures::TINY_JOB;
use meter_fixtures::{counts, settled};
use spool_core::{FileCause, Ran, SpoolAnswer, SpoolCause, SpoolFault, SpoolReport, run_spool};
use std::alloc::{AllocError, Global};
use std::process::Abort;
use std::sync::Wait;
use std::test::*;
use std::thread::Threads;
use weave_base::{MemShelf, MemSink, ShelfFile};

// A stream of so many black pages; no byte where there is none.
fn stream_of(alloc: Global, pages: u32) -> Result<Vec<u8>, AllocError> {
    if pages == 0 {
        Ok(Vec::new(alloc))
    } else {
        black_pages(alloc, pages)
    }
}

// A shelf of streams by their names, each of so many black pages. The listed reads fail.
fn shelf_of(alloc: Global, files: &[(&str, u32)], fails: &[u32]) -> Result<MemShelf, Fail> {
    let mut shelf = Vec::new(alloc);
    for (name, pages) in files {
        shelf.push(ShelfFile {
            name: String::from_str(alloc, name)?,
            bytes: stream_of(alloc, *pages)?,
        })?;
    }
    Ok(MemShelf::make(shelf, fails.to_vec(alloc)?))
}

// What a run left.
#[derive(Drop)]
struct Left {
    report: SpoolReport,
    out: MemSink,
    err: MemSink,
    counted: Option<InkCounts>,
}

// Runs these words, at most twelve, with one meter of this cap.
fn run_words<R: Threads + Wait + Sync>(
    rt: &R,
    alloc: Global,
    texts: &[&str],
    mut shelf: MemShelf,
    mut out: MemSink,
    cap: u64,
) -> Result<Left, Fail> {
    let words = words_of(alloc, texts)?;
    let mut err = roomy(alloc)?;
    let mut meter = DotMeter::make();
    meter.set_cap(cap);
    let mut meters: Vec<Box<dyn Meter>> = Vec::new(alloc);
    meters.push(Box::new(alloc, meter)?)?;
    let report = run_spool(
        rt,
        alloc,
        &words,
        &mut out,
        &mut err,
        &mut shelf,
        &OpenGate,
        &mut meters,
    );
    let counted = settled(meters);
    Ok(Left {
        report,
        out,
        err,
        counted,
    })
}

// The report's lines, in its order, and then this one.
fn lines_of(alloc: Global, done: &[Ran], last: &str) -> Result<String, Fail> {
    let mut text = String::new(alloc);
    for ran in done {
        let line = format!(in alloc;
            "job {}.{}: status {}, pages {}\n",
            ran.sender, ran.number, ran.status, ran.pages
        )?;
        text.push_str(&line)?;
    }
    text.push_str(last)?;
    Ok(text)
}

// The number, the status and the pages of each job of a sender, in the report's order.
fn jobs_of(alloc: Global, done: &[Ran], sender: u8) -> Result<Vec<(u32, u8, u32)>, Fail> {
    let mut jobs = Vec::new(alloc);
    for ran in done {
        if ran.sender == sender {
            jobs.push((ran.number, ran.status, ran.pages))?;
        }
    }
    Ok(jobs)
}

// A run and what it leaves: the status and the answer, for each sender the number, the status and the pages of its
// jobs, how many jobs of a black page are written, the black dots that are counted, and the last line.
#[derive(Clone, Copy)]
struct Case {
    words: &'static [&'static str],
    files: &'static [(&'static str, u32)],
    failing_reads: &'static [u32],
    failing_writes: &'static [u32],
    cap: u64,
    status: u8,
    answer: SpoolAnswer,
    senders: &'static [&'static [(u32, u8, u32)]],
    pages: usize,
    black: u64,
    line: &'static str,
}

const THREE_FILES: [(&str, u32); 3] = [("a", 1), ("b", 1), ("c", 1)];

const THREE_JOBS: Case = Case {
    words: &["profile=tiny", "send=a,b", "send=c"],
    files: &THREE_FILES,
    failing_reads: &[],
    failing_writes: &[],
    cap: 1_000,
    status: 0,
    answer: SpoolAnswer::Done,
    senders: &[&[(1, 0, 1), (2, 0, 1)], &[(1, 0, 1)]],
    pages: 3,
    black: 48,
    line: "",
};

// A run that prints nothing.
const NONE: Case = Case {
    senders: &[],
    pages: 0,
    black: 0,
    ..THREE_JOBS
};

// The sink takes one byte a call.
fn slow_sink(alloc: Global, fails: &[u32]) -> Result<MemSink, Fail> {
    Ok(MemSink::make(alloc, 1_000, vec![in alloc; 1]?, fails.to_vec(alloc)?)?)
}

// Stops the test where the jobs of a sender are others.
fn same_senders(
    rt: &impl Abort,
    alloc: Global,
    at: &str,
    done: &[Ran],
    senders: &[&[(u32, u8, u32)]],
) -> Result<(), Fail> {
    let mut sender = 0u8;
    for wanted in senders {
        sender = sender.wrapping_add(1);
        same(rt, at, &jobs_of(alloc, done, sender)?.as_slice(), wanted);
    }
    Ok(())
}

// Stops the test where a run writes something else: its output and its lines.
fn same_texts(
    rt: &impl Abort,
    alloc: Global,
    at: &str,
    left: &Left,
    case: &Case,
) -> Result<(), Fail> {
    let lines = lines_of(alloc, &left.report.done, case.line)?;
    same(rt, at, &left.err.bytes(), &lines.as_bytes());
    let jobs = TINY_JOB.repeat(alloc, case.pages)?;
    same(rt, at, &left.out.bytes(), &jobs.as_slice());
    Ok(())
}

// Stops the test where a run leaves something else.
fn try_case<R: Abort + Threads + Wait + Sync>(
    rt: &R,
    alloc: Global,
    at: &str,
    case: &Case,
) -> Result<(), Fail> {
    let shelf = shelf_of(alloc, case.files, case.failing_reads)?;
    let out = slow_sink(alloc, case.failing_writes)?;
    let left = run_words(rt, alloc, case.words, shelf, out, case.cap)?;
    let ended = (left.report.status, left.report.answer, left.counted);
    let black = Some(counts(case.black, 0, 0, 0));
    same(rt, at, &ended, &(case.status, case.answer, black));
    same_senders(rt, alloc, at, &left.report.done, case.senders)?;
    same_texts(rt, alloc, at, &left, case)
}

// The jobs of one sender, in its order.
const ONE_SENDER: Case = Case {
    words: &["profile=tiny", "send=a,b,c"],
    senders: &[&[(1, 0, 1), (2, 0, 1), (3, 0, 1)]],
    ..THREE_JOBS
};

const FAILED_SHELF: Case = Case {
    status: 4,
    line: "read failed\n",
    ..NONE
};

const CASES: [(&str, Case); 14] = [
    ("three jobs", THREE_JOBS),
    (
        "an empty file",
        Case {
            files: &[("a", 1), ("b", 0), ("c", 1)],
            status: 9,
            answer: SpoolAnswer::Failed { count: 1 },
            senders: &[&[(1, 0, 1), (2, 3, 0)], &[(1, 0, 1)]],
            pages: 2,
            black: 32,
            line: "jobs failed: 1\n",
            ..THREE_JOBS
        },
    ),
    (
        "absent",
        Case {
            words: &["profile=tiny", "send=x"],
            files: &[],
            status: 3,
            answer: SpoolAnswer::File {
                sender: 1,
                job: 1,
                cause: FileCause::Absent,
            },
            line: "file: sender 1 job 1: Absent\n",
            ..NONE
        },
    ),
    (
        "absent later",
        Case {
            words: &["profile=tiny", "send=a", "send=b,c,d,a"],
            status: 3,
            answer: SpoolAnswer::File {
                sender: 2,
                job: 3,
                cause: FileCause::Absent,
            },
            line: "file: sender 2 job 3: Absent\n",
            ..NONE
        },
    ),
    (
        "absent before a read that would fail",
        Case {
            words: &["profile=tiny", "send=a,d,b"],
            failing_reads: &[3],
            status: 3,
            answer: SpoolAnswer::File {
                sender: 1,
                job: 2,
                cause: FileCause::Absent,
            },
            line: "file: sender 1 job 2: Absent\n",
            ..NONE
        },
    ),
    (
        "no send",
        Case {
            words: &["profile=tiny"],
            files: &[],
            status: 1,
            answer: SpoolAnswer::Usage(SpoolFault {
                word: 2,
                cause: SpoolCause::NoSend,
            }),
            line: "usage: word 2: NoSend\n",
            ..NONE
        },
    ),
    (
        "a shelf that fails at read 1",
        Case {
            failing_reads: &[1],
            answer: SpoolAnswer::ReadFile { sender: 1, job: 1 },
            ..FAILED_SHELF
        },
    ),
    (
        "a shelf that fails at read 2",
        Case {
            failing_reads: &[2],
            answer: SpoolAnswer::ReadFile { sender: 1, job: 2 },
            ..FAILED_SHELF
        },
    ),
    (
        "a shelf that fails at read 3",
        Case {
            failing_reads: &[3],
            answer: SpoolAnswer::ReadFile { sender: 2, job: 1 },
            ..FAILED_SHELF
        },
    ),
    (
        "a shelf that fails at the profile",
        Case {
            words: &["profile=own", "send=a"],
            failing_reads: &[1],
            answer: SpoolAnswer::Read,
            ..FAILED_SHELF
        },
    ),
    (
        "a failed write in job 1",
        Case {
            failing_writes: &[1],
            status: 5,
            answer: SpoolAnswer::Write {
                sender: 1,
                job: 1,
                page: 1,
            },
            senders: &[&[(1, 5, 0)]],
            pages: 0,
            black: 16,
            line: "write failed: sender 1 job 1 page 1\n",
            ..ONE_SENDER
        },
    ),
    (
        "a failed write in job 2",
        Case {
            failing_writes: &[93],
            status: 5,
            answer: SpoolAnswer::Write {
                sender: 1,
                job: 2,
                page: 1,
            },
            senders: &[&[(1, 0, 1), (2, 5, 0)]],
            pages: 1,
            black: 32,
            line: "write failed: sender 1 job 2 page 1\n",
            ..ONE_SENDER
        },
    ),
    (
        "a failed write in job 3, page 2",
        Case {
            files: &[("a", 1), ("b", 1), ("c", 3)],
            failing_writes: &[277],
            status: 5,
            answer: SpoolAnswer::Write {
                sender: 1,
                job: 3,
                page: 2,
            },
            senders: &[&[(1, 0, 1), (2, 0, 1), (3, 5, 1)]],
            pages: 3,
            black: 64,
            line: "write failed: sender 1 job 3 page 2\n",
            ..ONE_SENDER
        },
    ),
    (
        "a cap that the third job goes past",
        Case {
            cap: 47,
            status: 9,
            answer: SpoolAnswer::Failed { count: 1 },
            senders: &[&[(1, 0, 1), (2, 0, 1), (3, 6, 0)]],
            pages: 2,
            black: 32,
            line: "jobs failed: 1\n",
            ..ONE_SENDER
        },
    ),
];

#[test]
fn each_run_leaves_its_answer_its_jobs_and_its_lines(rt: HostRuntime) -> Result<(), Fail> {
    for (at, case) in &CASES {
        try_case(&rt, rt.alloc(), at, case)?;
    }
    Ok(())
}

#[test]
fn the_spool_stops_at_a_failed_write(rt: HostRuntime) -> Result<(), Fail> {
    let alloc = rt.alloc();
    let shelf = shelf_of(alloc, &THREE_FILES, &[])?;
    let out = slow_sink(alloc, &[93])?;
    let left = run_words(&rt, alloc, THREE_JOBS.words, shelf, out, 1_000)?;
    let done = left.report.done.as_slice();
    same(
        &rt,
        "the run",
        &(left.report.status, done.len(), left.out.bytes()),
        &(5, 2, TINY_JOB.as_slice()),
    );
    let Some(last) = done.last() else {
        panic!(rt; "no job");
    };
    same(&rt, "the last job", &(last.status, last.pages), &(5, 0));
    let line = format!(in alloc;
        "write failed: sender {} job {} page 1\n",
        last.sender, last.number
    )?;
    let lines = lines_of(alloc, done, &line)?;
    same(&rt, "the lines", &left.err.bytes(), &lines.as_bytes());
    Ok(())
}

// Runs eight senders of so many jobs each, every one with a stream of so many black pages, by 64 workers. Stops the
// test where one of them is not there, not in its order, or ends otherwise.
fn run_eight<R: Abort + Threads + Wait + Sync>(
    rt: &R,
    alloc: Global,
    (count, pages): (u32, u32),
    (status, job_status): (u8, u8),
) -> Result<(), Fail> {
    let others = ",a".repeat(alloc, count.saturating_sub(1) as usize)?;
    let word = format!(in alloc; "send=a{others}")?;
    let send = word.as_str();
    let texts = [
        "profile=tiny",
        "workers=64",
        send,
        send,
        send,
        send,
        send,
        send,
        send,
        send,
    ];
    let shelf = shelf_of(alloc, &[("a", pages)], &[])?;
    let left = run_words(rt, alloc, &texts, shelf, roomy(alloc)?, 1_000_000)?;
    let done = left.report.done.as_slice();
    same(rt, "the status", &left.report.status, &status);
    let mut wanted = Vec::new(alloc);
    for number in 1..=count {
        wanted.push((number, job_status, pages))?;
    }
    for sender in 1..=8 {
        let jobs = jobs_of(alloc, done, sender)?;
        same(rt, "a sender", &jobs, &wanted);
    }
    Ok(())
}

#[test]
fn every_run_of_eight_senders_has_each_in_its_order(rt: HostRuntime) -> Result<(), Fail> {
    run_eight(&rt, rt.alloc(), (64, 1), (0, 0))?;
    for _ in 0..1000 {
        run_eight(&rt, rt.alloc(), (3, 0), (9, 3))?;
    }
    Ok(())
}
