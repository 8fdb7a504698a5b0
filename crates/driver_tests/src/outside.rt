//! Runs whose reads or writes fail, in the pages of a stream. `faults` has every call that can fail.
use crate::fixture::{GREY, GREY_JOB, GREY_STREAM, PRINT, TINY, leaves, run_metered};
use crate::rows::{Given, Row, Table, input_of, try_tables};
use driver_fixtures::{Left, no_files, roomy};
use std::alloc::Global;
use std::test::Fail;
use std::thread::Threads;
use weave_base::MemSink;

// Two pages of grey, a byte a read, of which one fails, with room for so many bytes of output.
macro_rules! two {
    ($failing:literal, $room:literal, $wanted:expr) => {
        (
            &PRINT,
            Given::Reads(&[GREY, GREY], (1, $failing), $room),
            $wanted,
        )
    };
}

const UNREAD: &[u8] = b"read failed\n";

const FAILING_READS: [Row; 7] = [
    two!(1, 140, (4, &[], UNREAD)),
    two!(4, 140, (4, &[], UNREAD)),
    two!(1808, 140, (4, &[], UNREAD)),
    two!(1809, 140, (4, &[&GREY_JOB], UNREAD)),
    two!(3000, 140, (4, &[&GREY_JOB], UNREAD)),
    two!(3612, 140, (4, &[&GREY_JOB], UNREAD)),
    two!(3613, 140, (4, &[&GREY_JOB, &GREY_JOB], UNREAD)),
];

const FULL_SINKS: [Row; 3] = [
    two!(0, 0, (5, &[], b"write failed: page 1\n")),
    two!(0, 70, (5, &[&GREY_JOB], b"write failed: page 2\n")),
    two!(0, 140, (0, &[&GREY_JOB, &GREY_JOB], b"")),
];

#[test]
fn a_failing_read_or_a_full_sink_keeps_what_was_done(rt: HostRuntime) -> Result<(), Fail> {
    const TABLES: [Table; 2] = [
        ("a failing read keeps the pages before it", &FAILING_READS),
        ("a full sink keeps a prefix of the job", &FULL_SINKS),
    ];
    try_tables(&rt, rt.alloc(), &TABLES)
}

// A sink with room for so many bytes, of which write `failing`, counted from 1, fails; none where it is 0.
fn deaf_sink(alloc: Global, (room, failing): (usize, u32)) -> Result<MemSink, Fail> {
    let fails = vec![in alloc; failing]?;
    Ok(MemSink::make(alloc, room, Vec::new(alloc), fails)?)
}

// A run whose sink for the error line has so much room, or fails one of its calls.
type DeafRow = (&'static [&'static str], Given, (usize, u32), &'static [u8]);

// What such a run leaves.
fn left_deaf<R: Threads + Sync>(
    rt: &R,
    alloc: Global,
    (words, given, deaf, _): DeafRow,
) -> Result<Left, Fail> {
    let (out, err) = (roomy(alloc)?, deaf_sink(alloc, deaf)?);
    let (input, shelf) = (input_of(alloc, given)?, no_files(alloc));
    let none = &mut Vec::new(alloc);
    Ok(run_metered(rt, alloc, words, input, out, err, shelf, none)?)
}

#[test]
fn a_deaf_error_sink_leaves_the_status(rt: HostRuntime) -> Result<(), Fail> {
    const CUT: Given = Given::Cut(&[GREY], GREY_STREAM - 1);
    const ROWS: [DeafRow; 4] = [
        (&PRINT, CUT, (0, 0), b""),
        (&PRINT, CUT, (5, 0), b"input"),
        (&PRINT, CUT, (100, 0), b"input: page 1 line 2: Truncated\n"),
        // the first call fails
        (&TINY, Given::Bytes(b"RaS"), (100, 1), b""),
    ];
    for &row in &ROWS {
        let left = left_deaf(&rt, rt.alloc(), row)?;
        leaves(&rt, "a deaf error sink", &left, (3, b"", row.3));
    }
    Ok(())
}
