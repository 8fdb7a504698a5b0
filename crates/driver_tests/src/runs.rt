//! Streams of pages, whole and refused.
use crate::fixture::{
    GREY, GREY_JOB, GREY_STREAM, PRINT, TINY, Wanted, leaves, run_bytes, stream_of,
};
use crate::rows::{Given, HashRow, Row, Table, try_hashes, try_tables};
use driver_fixtures::{no_files, prefix};
use pwg_header::Kind;
use std::alloc::Global;
use std::process::Abort;
use std::test::Fail;
use std::thread::Threads;

const FIRST: [Row; 1] = [(&PRINT, Given::Pages(&[], &[GREY]), (0, &[&GREY_JOB], b""))];

// A page of eight columns and six lines.
macro_rules! small {
    ($body:expr) => {
        Given::Pages(&[], &[(Kind::Gray8, (8, 6), $body)])
    };
}

const PAST_LINE: Wanted = (3, &[], b"input: page 1 line 1: RunPastLine\n");

const CUT_AT_FOUR: Wanted = (3, &[], b"input: page 1 line 4: Truncated\n");

const PAST_LINE_FOUR: Wanted = (3, &[], b"input: page 1 line 4: RunPastLine\n");

const LONG_RUNS: [Row; 8] = [
    (&PRINT, small!(&[0, 8, 0]), PAST_LINE),
    (&PRINT, small!(&[0, 8]), PAST_LINE),
    (&PRINT, small!(&[2, 7, 0, 1, 0xF9]), CUT_AT_FOUR),
    (&PRINT, small!(&[2, 7, 0, 1, 0xF8]), PAST_LINE_FOUR),
    (&TINY, small!(&[0, 8, 0]), PAST_LINE),
    (&TINY, small!(&[0, 8]), PAST_LINE),
    (&TINY, small!(&[2, 7, 0, 1, 0xF9]), CUT_AT_FOUR),
    (&TINY, small!(&[2, 7, 0, 1, 0xF8]), PAST_LINE_FOUR),
];

// A page of eight columns and 255 lines.
macro_rules! tall {
    ($body:expr) => {
        Given::Pages(&[], &[(Kind::Gray8, (8, 255), $body)])
    };
}

const PAST_PAGE: Wanted = (3, &[], b"input: page 1 line 1: GroupPastPage\n");

const LONG_GROUPS: [Row; 2] = [
    (&PRINT, tall!(&[0xFF, 7, 0]), PAST_PAGE),
    (&PRINT, tall!(&[0xFF]), PAST_PAGE),
];

// The page of grey with a byte of its header changed.
macro_rules! header {
    ($place:literal, $byte:literal, $line:literal) => {
        (
            &PRINT,
            Given::Changed(&[GREY], &[($place, $byte)]),
            (3, &[], $line),
        )
    };
}

const HEADERS: [Row; 12] = [
    header!(4, b'p', b"input: page 1 line 0: NotPwg\n"),
    header!(13, 1, b"input: page 1 line 0: NotPwg\n"),
    header!(283, 0, b"input: page 1 line 0: Resolution\n"),
    header!(287, 0, b"input: page 1 line 0: Resolution\n"),
    header!(379, 0, b"input: page 1 line 0: Width\n"),
    header!(383, 0, b"input: page 1 line 0: Height\n"),
    // 16 bits a colour
    header!(391, 16, b"input: page 1 line 0: Kind\n"),
    header!(395, 16, b"input: page 1 line 0: Kind\n"),
    header!(399, 5, b"input: page 1 line 0: BytesPerLine\n"),
    header!(403, 1, b"input: page 1 line 0: Order\n"),
    header!(463, 2, b"input: page 1 line 0: Transform\n"),
    header!(467, 255, b"input: page 1 line 0: Transform\n"),
];

const SECOND_PAGE: [Row; 1] = [(
    &PRINT,
    Given::Pages(&[], &[GREY, (Kind::Gray8, (4, 2), &[0, 3, 0, 0, 4])]),
    (3, &[&GREY_JOB], b"input: page 2 line 2: RunPastLine\n"),
)];

// Reads of two pages of grey, of at most so many bytes.
macro_rules! pieces {
    ($piece:literal) => {
        (
            &PRINT,
            Given::Reads(&[GREY, GREY], ($piece, 0), 70_000),
            (0, &[&GREY_JOB, &GREY_JOB], b""),
        )
    };
}

// Reads that end in the sync word, in a header, in a body and between the pages.
const PIECES: [Row; 8] = [
    pieces!(1),
    pieces!(3),
    pieces!(4),
    pieces!(1799),
    pieces!(1800),
    pieces!(1807),
    pieces!(1808),
    pieces!(1809),
];

// A black line of 8191 columns.
const WIDE_BODY: [u8; 129] = [
    0, 127, 0, 127, 0, 127, 0, 127, 0, 127, 0, 127, 0, 127, 0, 127, 0, 127, 0, 127, 0, 127, 0, 127,
    0, 127, 0, 127, 0, 127, 0, 127, 0, 127, 0, 127, 0, 127, 0, 127, 0, 127, 0, 127, 0, 127, 0, 127,
    0, 127, 0, 127, 0, 127, 0, 127, 0, 127, 0, 127, 0, 127, 0, 127, 0, 127, 0, 127, 0, 127, 0, 127,
    0, 127, 0, 127, 0, 127, 0, 127, 0, 127, 0, 127, 0, 127, 0, 127, 0, 127, 0, 127, 0, 127, 0, 127,
    0, 127, 0, 127, 0, 127, 0, 127, 0, 127, 0, 127, 0, 127, 0, 127, 0, 127, 0, 127, 0, 127, 0, 127,
    0, 127, 0, 127, 0, 127, 0, 126, 0,
];

const TOO_WIDE: [Row; 1] = [(
    &PRINT,
    Given::Pages(&[], &[(Kind::Gray8, (8192, 1), &WIDE_BODY)]),
    (3, &[], b"input: page 1 line 0: Width\n"),
)];

#[test]
fn each_stream_has_its_job_or_its_fault(rt: HostRuntime) -> Result<(), Fail> {
    const TABLES: [Table; 7] = [
        ("the first path prints one grey page", &FIRST),
        ("a run past its line is refused at its byte", &LONG_RUNS),
        (
            "a group past the page is refused at its count",
            &LONG_GROUPS,
        ),
        ("a refused header is named by its cause", &HEADERS),
        ("a fault of the second page keeps the first", &SECOND_PAGE),
        ("pieces of a stream give the job", &PIECES),
        ("a page wider than the greatest is refused", &TOO_WIDE),
    ];
    // an independent program that follows the definitions gives the same job
    const WIDEST: [HashRow; 1] = [(
        "a page of the greatest width is printed",
        &PRINT,
        Given::Pages(&[], &[(Kind::Gray8, (8191, 1), &WIDE_BODY)]),
        (0, b"", 79, 0x1276_6F55_193F_5370),
    )];
    try_hashes(&rt, rt.alloc(), &WIDEST)?;
    try_tables(&rt, rt.alloc(), &TABLES)
}

// The status, the output and the error line of the first bytes of a stream of one page of grey.
fn answer_to_prefix(count: usize) -> (u8, &'static [u8], &'static [u8]) {
    match count {
        0..=3 => (3, b"", b"input: page 0 line 0: BadSync\n"),
        4 => (0, b"", b""),
        5..=1799 => (3, b"", b"input: page 1 line 0: Truncated\n"),
        1800..=1802 => (3, b"", b"input: page 1 line 1: Truncated\n"),
        1803..=1807 => (3, b"", b"input: page 1 line 2: Truncated\n"),
        _ => (0, &GREY_JOB, b""),
    }
}

// Asserts the answer to each prefix of these bytes.
fn try_prefixes<R: Abort + Threads + Sync>(
    rt: &R,
    alloc: Global,
    whole: &[u8],
) -> Result<(), Fail> {
    for count in 0..GREY_STREAM + 1 {
        let bytes = prefix(whole, count).to_vec(alloc)?;
        let left = run_bytes(rt, alloc, &PRINT, bytes, no_files(alloc))?;
        leaves(rt, "a prefix of a page", &left, answer_to_prefix(count));
    }
    Ok(())
}

#[test]
fn every_prefix_of_a_stream_has_its_answer(rt: HostRuntime) -> Result<(), Fail> {
    let whole = stream_of(rt.alloc(), &[GREY])?;
    assert!(rt; whole.len() == GREY_STREAM);
    try_prefixes(&rt, rt.alloc(), &whole)
}
