//! One meter, and the cap that a word sets on it.
use crate::fixture::{BLACK, Page, TINY, Wanted, leaves, run_metered};
use crate::meters::fixture::{last, one_meter, runs_to};
use crate::rows::Given;
use driver_fixtures::{black_pages, no_files, plain, roomy};
use job_fixtures::TINY_JOB;
use meter_fixtures::counts;
use pwg_header::Kind;
use std::alloc::Global;
use std::process::Abort;
use std::test::Fail;
use std::thread::Threads;
use weave_base::MemSink;

// A run with one meter: its words, what is outside, how many dots of black the meter has counted before, what the run
// leaves, and the meter's cap and its counts after it.
type CapRow = (
    &'static [&'static str],
    Given,
    u64,
    Wanted,
    u64,
    (u64, u64, u64, u64),
);

const NO_PAGE: Given = Given::Pages(&[], &[]);

const ONE_PAGE: Given = Given::Pages(&[], &[BLACK]);

const TWO_PAGES: Given = Given::Pages(&[], &[BLACK, BLACK]);

const JUST_MET: [CapRow; 3] = [
    (
        &["print", "profile=tiny", "cap=16"],
        ONE_PAGE,
        0,
        (0, &[&TINY_JOB], b""),
        16,
        (16, 0, 0, 0),
    ),
    (
        &["print", "profile=tiny", "cap=15"],
        ONE_PAGE,
        0,
        (6, &[], b"over cap: page 1: total 0, page 16, cap 15\n"),
        15,
        (0, 0, 0, 0),
    ),
    // the second page is stopped
    (
        &["print", "profile=tiny", "cap=20"],
        TWO_PAGES,
        0,
        (
            6,
            &[&TINY_JOB],
            b"over cap: page 2: total 16, page 16, cap 20\n",
        ),
        20,
        (16, 0, 0, 0),
    ),
];

// A cap past 64 bits, and caps that stay on the meter without a page. The last is set before the profile is found.
const WITHOUT_A_PAGE: [CapRow; 3] = [
    (
        &["print", "profile=tiny", "cap=18446744073709551616"],
        ONE_PAGE,
        0,
        (1, &[], b"usage: word 3: BadValue\n"),
        u64::MAX,
        (0, 0, 0, 0),
    ),
    (
        &["print", "profile=tiny", "cap=0"],
        NO_PAGE,
        0,
        (0, &[], b""),
        0,
        (0, 0, 0, 0),
    ),
    (
        &["print", "cap=7", "profile=none.txt"],
        ONE_PAGE,
        0,
        (2, &[], b"profile: line 0: Absent\n"),
        7,
        (0, 0, 0, 0),
    ),
];

// A printer of four inks without margins.
const FOUR_INKS: &[u8] = b"escp2-profile 1\nhdpi=360\nvdpi=360\nnozzles=1\npitch=1\ninks=cmyk\n";

// The commands before the passes of a sheet of two rows, those that go down by a row, and those after the passes.
const PROLOGUE: [u8; 46] = [
    0x1B, 0x40, 0x1B, 0x28, 0x47, 1, 0, 1, 0x1B, 0x28, 0x55, 1, 0, 5, 0x1B, 0x28, 0x69, 1, 0, 0,
    0x1B, 0x55, 1, 0x1B, 0x28, 0x43, 2, 0, 4, 0, 0x1B, 0x28, 0x63, 4, 0, 0, 0, 4, 0, 0x1B, 0x28,
    0x56, 2, 0, 0, 0,
];

const DOWN: [u8; 7] = [0x1B, 0x28, 0x76, 2, 0, 2, 0];

const END: [u8; 3] = [0x0C, 0x1B, 0x40];

// The passes of four dots in each ink.
const BLACK_DOTS: [u8; 14] = [0x1B, 0x72, 0, 0x0D, 0x1B, 0x2E, 1, 10, 10, 1, 4, 0, 0, 0xF0];

const MAGENTA: [u8; 14] = [0x1B, 0x72, 1, 0x0D, 0x1B, 0x2E, 1, 10, 10, 1, 4, 0, 0, 0xF0];

const CYAN: [u8; 14] = [0x1B, 0x72, 2, 0x0D, 0x1B, 0x2E, 1, 10, 10, 1, 4, 0, 0, 0xF0];

const YELLOW: [u8; 14] = [0x1B, 0x72, 4, 0x0D, 0x1B, 0x2E, 1, 10, 10, 1, 4, 0, 0, 0xF0];

// Two lines of four pixels each: red, for which magenta and yellow are used; black above cyan; black.
const THREE_COLOURS: [Page<'static>; 3] = [
    (Kind::Rgb8, (4, 2), &[1, 3, 255, 0, 0]),
    (Kind::Rgb8, (4, 2), &[0, 3, 0, 0, 0, 0, 3, 0, 255, 255]),
    (Kind::Rgb8, (4, 2), &[1, 3, 0, 0, 0]),
];

// The jobs of the first two pages, which were worked out by hand.
const TWO_JOBS: [&[u8]; 12] = [
    &PROLOGUE,
    &MAGENTA,
    &YELLOW,
    &DOWN,
    &MAGENTA,
    &YELLOW,
    &END,
    &PROLOGUE,
    &BLACK_DOTS,
    &DOWN,
    &CYAN,
    &END,
];

// The third page of colour is refused; a cut page comes before its cap; totals go up to the end of 64 bits.
const REFUSED: [CapRow; 3] = [
    (
        &["print", "profile=m1.txt", "cap=30"],
        Given::Pages(&[FOUR_INKS], &THREE_COLOURS),
        0,
        (
            6,
            &TWO_JOBS,
            b"over cap: page 3: total 24, page 8, cap 30\n",
        ),
        30,
        (4, 4, 8, 8),
    ),
    (
        &["print", "profile=tiny", "cap=0"],
        Given::Pages(&[FOUR_INKS], &[(Kind::Gray8, (8, 6), &[0, 7, 0])]),
        0,
        (3, &[], b"input: page 1 line 2: Truncated\n"),
        0,
        (0, 0, 0, 0),
    ),
    (
        &TINY,
        TWO_PAGES,
        u64::MAX - 16,
        (
            6,
            &[&TINY_JOB],
            b"over cap: page 2: total 18446744073709551615, page 16, cap 18446744073709551615\n",
        ),
        u64::MAX,
        (u64::MAX, 0, 0, 0),
    ),
];

// Asserts what each run leaves and counts.
fn try_caps<R: Abort + Threads + Sync>(rt: &R, alloc: Global, rows: &[CapRow]) -> Result<(), Fail> {
    for (words, given, before, wanted, cap, (black, cyan, magenta, yellow)) in rows {
        let mut meters = one_meter(alloc, *before)?;
        runs_to(rt, alloc, words, *given, &mut meters, *wanted)?;
        let counted = counts(*black, *cyan, *magenta, *yellow);
        assert!(rt; last(&mut meters) == Some((*cap, counted)), "{words:?}");
    }
    Ok(())
}

#[test]
fn a_cap_stops_the_page_that_passes_it(rt: HostRuntime) -> Result<(), Fail> {
    try_caps(&rt, rt.alloc(), &JUST_MET)?;
    try_caps(&rt, rt.alloc(), &WITHOUT_A_PAGE)?;
    try_caps(&rt, rt.alloc(), &REFUSED)
}

#[test]
fn a_failed_write_counts_the_page_begun(rt: HostRuntime) -> Result<(), Fail> {
    const WORDS: [&str; 3] = ["print", "profile=tiny", "cap=32"];
    let alloc = rt.alloc();
    let out = MemSink::make(alloc, 4096, vec![in alloc; 1]?, vec![in alloc; 93]?)?;
    let (input, err) = (plain(alloc, black_pages(alloc, 2)?), roomy(alloc)?);
    let (shelf, mut meters) = (no_files(alloc), one_meter(alloc, 0)?);
    let left = run_metered(&rt, alloc, &WORDS, input, out, err, shelf, &mut meters)?;
    leaves(
        &rt,
        "a failed write",
        &left,
        (5, &TINY_JOB, b"write failed: page 2\n"),
    );
    assert!(rt; last(&mut meters) == Some((32, counts(32, 0, 0, 0))));
    Ok(())
}
