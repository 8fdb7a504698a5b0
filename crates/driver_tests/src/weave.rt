//! Pages printed by heads of several nozzles, and a run without a word for the profile.
use crate::any_printer::{PLAINEST, Printer};
use crate::fixture::{BLACK, PRINT, TINY, Wanted, change, hashes_to, leaves, run_bytes};
use crate::machine::execute;
use crate::rows::{Given, HashRow, Row, Table, try_hashes, try_tables};
use driver_fixtures::{Left, add_header, begin, no_files, plain, run_over, sink};
use hash_fixtures::hash_of;
use job_fixtures::TINY_JOB;
use pwg_header::Kind;
use std::alloc::Global;
use std::process::Abort;
use std::test::Fail;
use std::thread::Threads;
use weave_base::InkSet;

// The second is a page of one bit a pixel.
const NINETY_TWO_BYTES: [Row; 2] = [
    (&TINY, Given::Pages(&[], &[BLACK]), (0, &[&TINY_JOB], b"")),
    (
        &TINY,
        Given::Pages(&[], &[(Kind::Black1, (8, 6), &[5, 0, 0xFF])]),
        (0, &[&TINY_JOB], b""),
    ),
];

const WITHOUT_A_PAGE: [Row; 2] = [
    (&TINY, Given::Bytes(b"RaS2"), (0, &[], b"")),
    (&PRINT, Given::Bytes(b"RaS2"), (0, &[], b"")),
];

const BAD_SYNC: Wanted = (3, &[], b"input: page 0 line 0: BadSync\n");

const SHORT_INPUTS: [Row; 3] = [
    (&["print"], Given::Bytes(b""), BAD_SYNC),
    (&["print"], Given::Bytes(b"Ra"), BAD_SYNC),
    (&["print"], Given::Bytes(b"RaS3"), BAD_SYNC),
];

// Three rasters of one dot.
const THREE_RASTERS: [u8; 105] = [
    0x1B, 0x40, 0x1B, 0x28, 0x47, 1, 0, 1, 0x1B, 0x28, 0x55, 1, 0, 5, 0x1B, 0x28, 0x69, 1, 0, 0,
    0x1B, 0x55, 1, 0x1B, 0x28, 0x43, 2, 0, 6, 0, 0x1B, 0x28, 0x63, 4, 0, 0, 0, 6, 0, 0x1B, 0x28,
    0x56, 2, 0, 0, 0, 0x1B, 0x72, 0, 0x0D, 0x1B, 0x2E, 1, 10, 10, 1, 1, 0, 0, 0x80, 0x1B, 0x28,
    0x76, 2, 0, 2, 0, 0x1B, 0x72, 0, 0x0D, 0x1B, 0x2E, 1, 10, 10, 1, 1, 0, 0, 0x80, 0x1B, 0x28,
    0x76, 2, 0, 2, 0, 0x1B, 0x72, 0, 0x0D, 0x1B, 0x2E, 1, 10, 10, 1, 1, 0, 0, 0x80, 0x0C, 0x1B,
    0x40,
];

const ONE_NOZZLE: [Row; 1] = [(
    &PRINT,
    Given::Pages(&[], &[(Kind::Gray8, (1, 3), &[2, 0, 0])]),
    (0, &[&THREE_RASTERS], b""),
)];

// Two black pages and a cut header of a third.
const CUT: Given = Given::Cut(&[BLACK, BLACK, BLACK], 5397);

const CUT_LINE: &[u8] = b"input: page 3 line 0: Truncated\n";

const CUT_HEADERS: [Row; 1] = [(&TINY, CUT, (3, &[&TINY_JOB, &TINY_JOB], CUT_LINE))];

// A page of 16 bits a colour, and a page shorter than the margins.
const REFUSED: [Row; 2] = [
    (
        &TINY,
        Given::Changed(&[BLACK], &[(391, 16), (395, 16), (399, 16)]),
        (3, &[], b"input: page 1 line 0: Kind\n"),
    ),
    (
        &TINY,
        Given::Pages(&[], &[(Kind::Gray8, (8, 4), &[3, 7, 0])]),
        (3, &[], b"input: page 1 line 0: Height\n"),
    ),
];

#[test]
fn heads_of_one_and_of_three_nozzles_print_each_stream(rt: HostRuntime) -> Result<(), Fail> {
    const TABLES: [Table; 6] = [
        ("tiny prints ninety-two bytes", &NINETY_TWO_BYTES),
        ("a stream without a page prints nothing", &WITHOUT_A_PAGE),
        ("a short input is bad sync", &SHORT_INPUTS),
        ("one nozzle prints three rasters", &ONE_NOZZLE),
        ("a cut third header leaves two pages", &CUT_HEADERS),
        ("sixteen bits and a short page are refused", &REFUSED),
    ];
    const CUT_BY_ONE: [HashRow; 1] = [(
        "a cut third header leaves two pages",
        &PRINT,
        CUT,
        (3, CUT_LINE, 336, 0x1F14_3BBC_B886_76ED),
    )];
    try_tables(&rt, rt.alloc(), &TABLES)?;
    try_hashes(&rt, rt.alloc(), &CUT_BY_ONE)
}

// The built-in printer of that name.
const P360CMYK: Printer = Printer {
    nozzles: 15,
    pitch: 4,
    inks: InkSet::Cmyk,
    left: 45,
    right: 45,
    top: 60,
    bottom: 60,
    ..PLAINEST
};

// Appends a line of 2976 pixels, all of one byte.
fn add_line(bytes: &mut Vec<u8>, byte: u8) -> Result<(), Fail> {
    for packet in 0..24 {
        let run = if packet < 23 { 127 } else { 31 };
        bytes.extend_from_slice(&[run, byte, byte, byte])?;
    }
    Ok(())
}

// The place of the last byte of Duplex in the header of a stream's first page (PWG 5102.4, section 4.3).
const DUPLEX: usize = 279;

// An A4 page of red, green and blue at 360 dots an inch, all of one byte, to be printed on both sides.
fn a4(alloc: Global, byte: u8) -> Result<Vec<u8>, Fail> {
    let mut bytes = begin(alloc)?;
    add_header(&mut bytes, Kind::Rgb8, (360, 360), (2976, 4209))?;
    change(&mut bytes, &[(DUPLEX, 1)]);
    for group in 0..17 {
        bytes.push(if group < 16 { 255 } else { 112 })?;
        add_line(&mut bytes, byte)?;
    }
    Ok(bytes)
}

// How many sheets a job of an A4 page gives, how many rasters it fires, and how many dots of each ink.
fn fired(alloc: Global, job: &[u8]) -> Result<(u32, u32, [i64; 4]), Fail> {
    let printed = execute(alloc, &P360CMYK, (2886, 4089), job)?;
    let [black, cyan, magenta, yellow] = &printed.dots;
    Ok((
        printed.sheets,
        printed.rasters,
        [black.sum(), cyan.sum(), magenta.sum(), yellow.sum()],
    ))
}

// Asserts the hash of the images of a job of an A4 page.
fn plays_a4<R: Abort + Threads + Sync>(
    rt: &R,
    alloc: Global,
    job: &[u8],
    hash: u64,
) -> Result<(), Fail> {
    let job = plain(alloc, job.to_vec(alloc)?);
    let room = sink(alloc, 6_077_848)?;
    let words = ["dots", "profile=p360cmyk"];
    let images = run_over(rt, alloc, &words, job, room, no_files(alloc))?;
    hashes_to(
        rt,
        "the images of a page",
        &images,
        (0, b"", 6_077_848, hash),
    );
    Ok(())
}

// Prints an A4 page, all of one byte, whose stream has this hash.
fn print_a4<R: Abort + Threads + Sync>(
    rt: &R,
    alloc: Global,
    byte: u8,
    hash: u64,
) -> Result<Left, Fail> {
    let words = ["print", "profile=p360cmyk", "workers=4"];
    let page = a4(alloc, byte)?;
    let found = (page.len(), hash_of(&page));
    assert!(rt; found == (3449, hash), "{found:?}");
    Ok(run_bytes(rt, alloc, &words, page, no_files(alloc))?)
}

// The job of a white A4 page.
const WHITE_A4: [u8; 49] = [
    0x1B, 0x40, 0x1B, 0x28, 0x47, 1, 0, 1, 0x1B, 0x28, 0x55, 1, 0, 5, 0x1B, 0x28, 0x69, 1, 0, 0,
    0x1B, 0x55, 1, 0x1B, 0x28, 0x43, 2, 0, 0xE2, 0x20, 0x1B, 0x28, 0x63, 4, 0, 8, 0, 0x6A, 0x20,
    0x1B, 0x28, 0x56, 2, 0, 0, 0, 0x0C, 0x1B, 0x40,
];

#[test]
fn a_black_a4_takes_277_rasters_and_a_white_one_49_bytes(rt: HostRuntime) -> Result<(), Fail> {
    let black = print_a4(&rt, rt.alloc(), 0, 0x81C3_9434_9E4F_387E)?;
    hashes_to(
        &rt,
        "a black page",
        &black,
        (0, b"", 38_413, 0xAC5A_E1A3_CCA8_296C),
    );
    let found = fired(rt.alloc(), black.out.bytes())?;
    assert!(rt; found == (1, 277, [11_800_854, 0, 0, 0]), "{found:?}");
    plays_a4(&rt, rt.alloc(), black.out.bytes(), 0xB9F9_D3F8_92E0_C969)?;
    let white = print_a4(&rt, rt.alloc(), 0xFF, 0x8657_F188_D501_119E)?;
    leaves(&rt, "a white page", &white, (0, &WHITE_A4, b""));
    Ok(())
}
