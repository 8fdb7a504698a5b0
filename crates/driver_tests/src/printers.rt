//! Pages printed on printers of one nozzle that differ from the simplest in one value.
use crate::fixture::{BY_TEXT, PRINT, Page, leaves};
use crate::rows::{Given, HashRow, Row, Table, run_given, try_hashes, try_tables};
use pwg_header::Kind;
use std::test::Fail;

// The text of the simplest printer.
const PLAIN: &[u8] = b"escp2-profile 1\nhdpi=360\nvdpi=360\nnozzles=1\npitch=1\ninks=k\n";

/// The job of three columns of one line, below a top margin of one row.
pub const MOVED_JOB: [u8; 63] = [
    0x1B, 0x40, 0x1B, 0x28, 0x47, 1, 0, 1, 0x1B, 0x28, 0x55, 1, 0, 5, 0x1B, 0x28, 0x69, 1, 0, 0,
    0x1B, 0x55, 1, 0x1B, 0x28, 0x43, 2, 0, 4, 0, 0x1B, 0x28, 0x63, 4, 0, 2, 0, 4, 0, 0x1B, 0x28,
    0x56, 2, 0, 0, 0, 0x1B, 0x72, 0, 0x0D, 0x1B, 0x2E, 1, 10, 10, 1, 3, 0, 0, 0xE0, 0x0C, 0x1B,
    0x40,
];

// Margins of a pixel at the left and at the top.
const MOVED: [&[u8]; 2] = [PLAIN, b"left=1\ntop=1\n"];

// The last two are all margin.
const MARGINS: [Row; 3] = [
    (
        &BY_TEXT,
        Given::Pages(&MOVED, &[(Kind::Gray8, (4, 2), &[1, 3, 0])]),
        (0, &[&MOVED_JOB], b""),
    ),
    (
        &BY_TEXT,
        Given::Pages(&MOVED, &[(Kind::Gray8, (1, 2), &[1, 0, 0])]),
        (3, &[], b"input: page 1 line 0: Width\n"),
    ),
    (
        &BY_TEXT,
        Given::Pages(&MOVED, &[(Kind::Gray8, (4, 1), &[0, 3, 0])]),
        (3, &[], b"input: page 1 line 0: Height\n"),
    ),
];

// A black page of four columns and four lines.
const BLACK_4: Page<'static> = (Kind::Gray8, (4, 4), &[3, 3, 0]);

// The hash of the job of that page by the simplest printer with these lines after its text.
macro_rules! more {
    ($at:literal, $lines:literal, $length:literal, $hash:literal) => {
        (
            $at,
            &BY_TEXT,
            Given::Pages(&[PLAIN, $lines], &[BLACK_4]),
            (0, b"", $length, $hash),
        )
    };
}

// An independent program that follows the definitions gives the same jobs.
const VALUES: [HashRow; 5] = [
    more!("limit_k=100", b"limit_k=100\n", 126, 0x6594_EA5F_2FF0_8DD3),
    more!(
        "limit_c=0 black_start=254",
        b"limit_c=0\nblack_start=254\n",
        126,
        0x66A0_C51A_A1F1_A483
    ),
    more!(
        "left=1 right=1 top=1 bottom=1",
        b"left=1\nright=1\ntop=1\nbottom=1\n",
        84,
        0x4F37_0471_C79E_BA4F
    ),
    more!("right=2", b"right=2\n", 126, 0x855B_58AB_4087_2013),
    more!("limit_k=0", b"limit_k=0\n", 49, 0xA9DE_C6EE_CBE2_92C6),
];

#[test]
fn each_value_of_a_printer_has_its_place_in_the_job(rt: HostRuntime) -> Result<(), Fail> {
    const TABLES: [Table; 1] = [("margins cut the window and move it down", &MARGINS)];
    try_tables(&rt, rt.alloc(), &TABLES)?;
    try_hashes(&rt, rt.alloc(), &VALUES)
}

#[test]
fn a_page_can_be_printed_by_a_text_or_by_its_name(rt: HostRuntime) -> Result<(), Fail> {
    const GIVEN: Given = Given::Pages(&[PLAIN], &[BLACK_4]);
    let by_text = run_given(&rt, rt.alloc(), &BY_TEXT, GIVEN)?;
    let by_name = run_given(&rt, rt.alloc(), &PRINT, GIVEN)?;
    leaves(&rt, "by a text", &by_text, (0, by_name.out.bytes(), b""));
    Ok(())
}
