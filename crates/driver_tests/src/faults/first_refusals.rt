//! Jobs that break two rules of the machine at once: the first of a command's refusals counts.
use crate::faults::answers::Answer;
use crate::faults::fixture::{BY_BYTES, leaves};
use driver_fixtures::joined;
use std::alloc::Global;
use std::process::Abort;
use std::test::Fail;
use std::thread::Threads;

const GRAPHICS: &[u8] = b"\x1B(G\x01\x00\x01";

const UNIT: &[u8] = b"\x1B(U\x01\x00\x05";

// A sheet of six rows for the printer `tiny`, of which three are above the bottom margin: 28 bytes.
const SHEET: &[u8] =
    b"\x1B(G\x01\x00\x01\x1B(U\x01\x00\x05\x1B(C\x02\x00\x0C\x00\x1B(c\x04\x00\x00\x00\x06\x00";

// A dot in the first row: 11 bytes.
const DOT: &[u8] = b"\x1B.\x00\x14\x0A\x03\x08\x00\x80\x00\x00";

const RETURN: &[u8] = b"\x0D";

// A job, by its parts, and the status and the error line that playing it leaves. No sheet is ejected.
type Job = (&'static [&'static [u8]], u8, &'static str);

const RASTERS: [Job; 10] = [
    // and NoUnit
    (&[DOT], 8, "job: offset 0: NotGraphics\n"),
    (&[UNIT, DOT], 8, "job: offset 6: NotGraphics\n"),
    // and NoMargins
    (&[GRAPHICS, DOT], 8, "job: offset 6: NoUnit\n"),
    // and Density
    (
        &[GRAPHICS, UNIT, b"\x1B.\x00\x14\x05\x03\x08\x00\x80\x00\x00"],
        8,
        "job: offset 12: NoMargins\n",
    ),
    // and Rows
    (
        &[SHEET, b"\x1B.\x00\x14\x05\x02\x08\x00\x80\x00"],
        8,
        "job: offset 28: Density\n",
    ),
    // and OffGrid
    (
        &[
            SHEET,
            b"\x1B$\x01\x00",
            b"\x1B.\x00\x14\x0A\x02\x08\x00\x80\x00",
        ],
        8,
        "job: offset 32: Rows\n",
    ),
    // and OffSheet, past the last column and below the margin
    (
        &[SHEET, b"\x1B$\xFF\x7F", DOT],
        8,
        "job: offset 32: OffGrid\n",
    ),
    (
        &[
            SHEET,
            b"\x1B(v\x02\x00\x01\x00",
            b"\x1B.\x00\x14\x0A\x03\x08\x00\x00\x00\x80",
        ],
        8,
        "job: offset 35: OffGrid\n",
    ),
    // and Overprint, below the margin and past the last column
    (
        &[
            SHEET,
            DOT,
            RETURN,
            b"\x1B.\x00\x14\x0A\x03\x08\x00\x80\x00\x80",
        ],
        8,
        "job: offset 40: OffSheet\n",
    ),
    (
        &[
            SHEET,
            b"\x1B$\xEE\x3F\x1B.\x00\x14\x0A\x03\x08\x00\x40\x00\x00",
            b"\x1B$\xF0\x3F",
            DOT,
        ],
        8,
        "job: offset 47: OffSheet\n",
    ),
];

const OTHERS: [Job; 10] = [
    // Backward and OffSheet
    (
        &[SHEET, DOT, b"\x1B(C\x02\x00\xFF\x7F"],
        8,
        "job: offset 39: Backward\n",
    ),
    (
        &[SHEET, DOT, b"\x1B(c\x04\x00\x00\x00\xFF\x7F"],
        8,
        "job: offset 39: Backward\n",
    ),
    // NoUnit and NoMargins
    (
        &[b"\x1B(c\x04\x00\x00\x00\x06\x00"],
        8,
        "job: offset 0: NoUnit\n",
    ),
    (&[b"\x1B(V\x02\x00\x02\x00"], 8, "job: offset 0: NoUnit\n"),
    (&[b"\x1B(v\x02\x00\x02\x00"], 8, "job: offset 0: NoUnit\n"),
    // what is not a whole command is not run
    (
        &[b"\x1B.\x01\x14\x0A\x03\x08\x00\x80"],
        8,
        "job: offset 8: RunCode\n",
    ),
    (
        &[b"\x1B.\x00\x14\x0A\x03\x08\x00\x80\x00"],
        8,
        "job: offset 0: Cut\n",
    ),
    (
        &[b"\x1B(c\x04\x00\x05\x00\x05\x00"],
        8,
        "job: offset 7: BadValue\n",
    ),
    // a refused command comes before the bytes behind it
    (&[DOT, b"\x1BA"], 8, "job: offset 0: NotGraphics\n"),
    (&[SHEET, DOT, b"\x1B@\x1B"], 8, "job: offset 39: Backward\n"),
];

// The commands before the first raster of a black page of six rows.
const PROLOGUE: &[u8] =
    b"\x1B@\x1B(G\x01\x00\x01\x1B(U\x01\x00\x05\x1B(i\x01\x00\x00\x1BU\x01\x1B(C\x02\x00\x0C\x00\
    \x1B(c\x04\x00\x00\x00\x0C\x00\x1B(V\x02\x00\x00\x00";

// A row of eight dots by one nozzle, and one without a dot.
const ROW: &[u8] = b"\x1B.\x00\x0A\x0A\x01\x08\x00\xFF";

const BLANK_ROW: &[u8] = b"\x1B.\x00\x0A\x0A\x01\x08\x00\x00";

const TWO_ROWS: &[u8] = b"\x1B.\x00\x0A\x0A\x02\x08\x00\xFF\xFF";

// Down to the bottom margin.
const TO_MARGIN: &[u8] = b"\x1B(V\x02\x00\x0C\x00";

const BY_ONE: [Job; 11] = [
    (&[ROW], 8, "job: offset 0: NotGraphics\n"),
    (&[GRAPHICS, ROW], 8, "job: offset 6: NoUnit\n"),
    (&[GRAPHICS, UNIT, ROW], 8, "job: offset 12: NoMargins\n"),
    (&[PROLOGUE, TWO_ROWS], 8, "job: offset 46: Rows\n"),
    (
        &[
            PROLOGUE,
            b"\x1B(V\x02\x00\x04\x00",
            b"\x1B(V\x02\x00\x02\x00",
        ],
        8,
        "job: offset 53: Backward\n",
    ),
    (&[PROLOGUE, ROW, b"\x1B@"], 8, "job: offset 55: Backward\n"),
    (
        &[PROLOGUE, b"\x1B$\x01\x00", ROW],
        8,
        "job: offset 50: OffGrid\n",
    ),
    (
        &[PROLOGUE, b"\x1B(v\x02\x00\x0D\x00"],
        8,
        "job: offset 46: OffSheet\n",
    ),
    (&[PROLOGUE, TO_MARGIN, ROW], 8, "job: offset 53: OffSheet\n"),
    (&[PROLOGUE, TO_MARGIN, BLANK_ROW], 0, ""),
    (
        &[PROLOGUE, ROW, RETURN, ROW],
        8,
        "job: offset 56: Overprint\n",
    ),
];

// Asserts what playing each job on a printer leaves.
fn try_jobs<R: Abort + Threads + Sync>(
    rt: &R,
    alloc: Global,
    words: &[&str],
    jobs: &[Job],
) -> Result<(), Fail> {
    for (parts, status, line) in jobs {
        let job = joined(alloc, parts)?;
        let wanted = Answer::of(alloc, *status, b"", line)?;
        leaves(rt, alloc, words, &job, BY_BYTES, &wanted)?;
    }
    Ok(())
}

// The second head is one of one nozzle.
#[test]
fn the_machine_refuses_in_its_order(rt: HostRuntime) -> Result<(), Fail> {
    const TINY: [&str; 2] = ["dots", "profile=tiny"];
    try_jobs(&rt, rt.alloc(), &TINY, &RASTERS)?;
    try_jobs(&rt, rt.alloc(), &TINY, &OTHERS)?;
    try_jobs(&rt, rt.alloc(), &["dots", "profile=tiny1"], &BY_ONE)
}
