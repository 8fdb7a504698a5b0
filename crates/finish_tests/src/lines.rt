//! The lines of pages and of progress. The page has 60/3600 inch, the head goes down by 30/3600 inch behind the first
//! raster, and both rasters have eight dots of black.
use crate::plain::{finished, joined, prefix};
use crate::runs::{AT_ONCE, BY_BYTES, Way, leaves};
use job_fixtures::TINY_JOB;
use std::alloc::Global;
use std::process::Abort;
use std::test::Fail;

// Words, the parts of a job, how many of its bytes there are, and the lines.
type Row = (
    &'static [&'static str],
    &'static [&'static [u8]],
    usize,
    &'static [u8],
);

const ONE: &[&[u8]] = &[&TINY_JOB];

const TWO: &[&[u8]] = &[&TINY_JOB, &TINY_JOB];

// A page that is refused behind its margins.
const REFUSED: [u8; 31] = [
    0x1B, 0x40, // a reset
    0x1B, 0x28, 0x47, 0x01, 0x00, 0x01, // graphics
    0x1B, 0x28, 0x55, 0x01, 0x00, 0x05, // the unit
    0x1B, 0x28, 0x43, 0x02, 0x00, 0x0C, 0x00, // the length
    0x1B, 0x28, 0x63, 0x04, 0x00, 0x00, 0x00, 0x0C, 0x00, // the margins
    0x41, // no command
];

const BOTH: &[&str] = &["pages=1", "progress=1"];

// Asserts the lines of each row, and that the job is finished as without words.
fn try_rows(rt: &impl Abort, alloc: Global, way: Way, rows: &[Row]) -> Result<(), Fail> {
    for &(words, parts, count, lines) in rows {
        let job = joined(alloc, parts)?;
        let cut = prefix(&job, count);
        let plain = finished(alloc, cut)?;
        let wanted = (plain.status, plain.out.as_slice(), lines);
        leaves(rt, alloc, words, cut, way, wanted)?;
    }
    Ok(())
}

#[test]
fn pages_and_progress_have_their_lines(rt: HostRuntime) -> Result<(), Fail> {
    const PAGE: &[u8] = b"page 1: k 16, c 0, m 0, y 0\n";
    const HALF: &[u8] = b"page 1 at 10\npage 1 at 20\npage 1 at 30\npage 1 at 40\npage 1 at 50\n";
    const WHOLE: &[u8] = b"page 1 at 10\npage 1 at 20\npage 1 at 30\npage 1 at 40\npage 1 at 50\n\
        page 1: k 16, c 0, m 0, y 0\n";
    const CUT_BELOW: &[u8] =
        b"page 1 at 10\npage 1 at 20\npage 1 at 30\npage 1 at 40\npage 1 at 50\n\
        cut page 1: k 8, c 0, m 0, y 0\n";
    const TWO_WHOLE: &[u8] =
        b"page 1 at 10\npage 1 at 20\npage 1 at 30\npage 1 at 40\npage 1 at 50\n\
        page 1: k 16, c 0, m 0, y 0\n\
        page 2 at 10\npage 2 at 20\npage 2 at 30\npage 2 at 40\npage 2 at 50\n\
        page 2: k 16, c 0, m 0, y 0\n";
    const SECOND_CUT: &[u8] = b"page 1: k 16, c 0, m 0, y 0\ncut page 2: k 8, c 0, m 0, y 0\n";
    const FAULT: &[u8] =
        b"page 1: k 16, c 0, m 0, y 0\ncut page 2: k 0, c 0, m 0, y 0\njob: offset 122: Unknown\n";
    const ROWS: [Row; 15] = [
        (&[], TWO, 184, b""),
        (&[], ONE, 64, b""),
        (&["pages=0", "progress=0"], TWO, 184, b""),
        (&["pages=1"], ONE, 92, PAGE),
        (&["progress=1"], ONE, 92, HALF),
        (BOTH, ONE, 92, WHOLE),
        // before the margins, behind them, and behind a raster
        (BOTH, ONE, 38, b""),
        (BOTH, ONE, 39, b"cut page 1: k 0, c 0, m 0, y 0\n"),
        (BOTH, ONE, 64, b"cut page 1: k 8, c 0, m 0, y 0\n"),
        (BOTH, ONE, 71, CUT_BELOW),
        // before and behind the form feed
        (&["progress=1"], ONE, 89, HALF),
        (BOTH, ONE, 90, WHOLE),
        (BOTH, TWO, 184, TWO_WHOLE),
        (&["pages=1"], TWO, 156, SECOND_CUT),
        (&["pages=1"], &[&TINY_JOB, &REFUSED], 123, FAULT),
    ];
    try_rows(&rt, rt.alloc(), AT_ONCE, &ROWS)?;
    try_rows(&rt, rt.alloc(), BY_BYTES, &ROWS)
}

#[test]
fn no_line_stops_a_run(rt: HostRuntime) -> Result<(), Fail> {
    // The error sink takes nothing, or the beginning of the first line.
    const NONE: Way = Way { room: 0, ..AT_ONCE };
    const FEW: Way = Way { room: 5, ..AT_ONCE };
    try_rows(&rt, rt.alloc(), NONE, &[(BOTH, TWO, 184, b"")])?;
    try_rows(&rt, rt.alloc(), FEW, &[(BOTH, TWO, 184, b"page ")])
}
