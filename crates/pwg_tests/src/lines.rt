//! Groups fed whole, in two pieces and byte by byte, and groups written.
ghost use Rattle.base_definitions.specs.Limits.{most_columns, most_rows};
ghost use Rattle.std.specs.Prelude.{IfOk, length, ◌≤◌};

use crate::checks::{same, same_bytes};
use page_maker::made_form;
use pwg_lines::{Fed, Fill, Kind, LineFault, LineReader, code_line};
use std::alloc::Global;
use std::process::Abort;
use std::test::Fail;

// Feeds each piece, of which so many bytes are to be used.
fn feeds(rt: &impl Abort, reader: &mut LineReader, pieces: &[(&[u8], usize, Fill)]) {
    for (piece, used, state) in pieces {
        let wanted = Fed {
            used: *used,
            state: *state,
        };
        same(rt, "a piece", &reader.feed(piece), &wanted);
    }
}

// A reader of a page of this kind.
fn reader_of(alloc: Global, kind: Kind, width: u32, height: u32) -> Result<LineReader, Fail>
    requires narrowest { 1 ≤ width }
    requires widest { width ≤ most_columns }
    requires lowest { 1 ≤ height }
    requires tallest { height ≤ most_rows }
{
    Ok(LineReader::begin(alloc, made_form(width, height, kind))?)
}

#[test]
fn a_reader_begins_another_page_in_the_middle_of_a_group(rt: HostRuntime) -> Result<(), Fail> {
    const GROUP: [u8; 5] = [0x01, 0x01, 0x05, 0x06, 0x07];
    let mut reader = reader_of(rt.alloc(), Kind::Gray8, 4, 1)?;
    feeds(&rt, &mut reader, &[(&[0x00, 0x01], 2, Fill::More)]);
    reader.restart(made_form(2, 2, Kind::Rgb8))?;
    same(&rt, "the lines left", &reader.lines_left(), &2);
    feeds(&rt, &mut reader, &[(&GROUP, 5, Fill::Line { repeats: 2 })]);
    same_bytes(&rt, "the line", reader.line(), &[5, 6, 7, 5, 6, 7]);
    Ok(())
}

// Whether each of these bytes is this one.
fn all_are(bytes: &[u8], wanted: u8) -> bool {
    bytes.iter().all(|byte| *byte == wanted)
}

// Feeds a white line of this many bytes to a reader of one line.
fn fill_white(rt: &impl Abort, reader: &mut LineReader, bytes: usize, white: u8) {
    feeds(rt, reader, &[(&[0x00, 0x80], 2, Fill::Line { repeats: 1 })]);
    let shown = (
        reader.line().len(),
        all_are(reader.line(), white),
        reader.lines_left(),
    );
    same(rt, "a white line", &shown, &(bytes, true, 0));
}

#[test]
fn byte_128_fills_the_line_with_white(rt: HostRuntime) -> Result<(), Fail> {
    for width in [1, 7, 8, 9, 8191] {
        for &(kind, bits, white) in &[
            (Kind::Gray8, 8, 0xFF),
            (Kind::Black8, 8, 0x00),
            (Kind::Rgb8, 24, 0xFF),
            (Kind::Black1, 1, 0x00),
            (Kind::Cmyk8, 32, 0x00),
        ] {
            let mut reader = reader_of(rt.alloc(), kind, width, 1)?;
            let bytes = (bits * width as usize + 7) / 8;
            fill_white(&rt, &mut reader, bytes, white);
        }
    }
    Ok(())
}

#[test]
fn a_cmyk_line_fills_white_and_refuses_a_long_run(rt: HostRuntime) -> Result<(), Fail> {
    const PAST_LINE: Fill = Fill::Fault(LineFault::RunPastLine);
    let mut reader = reader_of(rt.alloc(), Kind::Cmyk8, 1, 1)?;
    fill_white(&rt, &mut reader, 4, 0x00);
    let mut reader = reader_of(rt.alloc(), Kind::Cmyk8, 1, 1)?;
    feeds(&rt, &mut reader, &[(&[0x00, 0x01], 2, PAST_LINE)]);
    Ok(())
}

#[test]
fn lines_of_one_bit_are_whole_bytes_and_their_spare_bits_may_be_set(
    rt: HostRuntime,
) -> Result<(), Fail> {
    const BYTE: &[u8] = &[0x00, 0x00, 0xFF];
    const MANY: &[u8] = &[
        0x00, 0x7F, 0xFF, 0x7F, 0xFF, 0x7F, 0xFF, 0x7F, 0xFF, 0x7F, 0xFF, 0x7F, 0xFF, 0x7F, 0xFF,
        0x7F, 0xFF,
    ];
    // a width, its group, and how many bytes its line has
    const CASES: [(u32, &[u8], usize); 5] = [
        (1, BYTE, 1),
        (7, BYTE, 1),
        (8, BYTE, 1),
        (9, &[0x00, 0x01, 0xFF], 2),
        (8191, MANY, 1024),
    ];
    for &(width, group, bytes) in &CASES {
        let mut reader = reader_of(rt.alloc(), Kind::Black1, width, 1)?;
        feeds(
            &rt,
            &mut reader,
            &[(group, group.len(), Fill::Line { repeats: 1 })],
        );
        let shown = (reader.line().len(), all_are(reader.line(), 0xFF));
        same(&rt, "a line of set bits", &shown, &(bytes, true));
    }
    Ok(())
}

#[test]
fn a_run_of_colours_repeats_three_bytes(rt: HostRuntime) -> Result<(), Fail> {
    const PIECES: [(&[u8], usize, Fill); 2] = [
        (&[0x00, 0x01, 0x01, 0x02], 4, Fill::More),
        (&[0x03, 0x99], 1, Fill::Line { repeats: 1 }),
    ];
    let mut reader = reader_of(rt.alloc(), Kind::Rgb8, 2, 1)?;
    feeds(&rt, &mut reader, &PIECES);
    same_bytes(&rt, "the line", reader.line(), &[1, 2, 3, 1, 2, 3]);
    Ok(())
}

#[test]
fn a_run_past_the_line_is_refused_at_its_first_byte(rt: HostRuntime) -> Result<(), Fail> {
    const PAST_LINE: Fill = Fill::Fault(LineFault::RunPastLine);
    const PIECES: [(&[u8], usize, Fill); 1] = [(&[0x00, 0x02, 0x01, 0x02, 0x03], 2, PAST_LINE)];
    feeds(&rt, &mut reader_of(rt.alloc(), Kind::Rgb8, 2, 2)?, &PIECES);
    Ok(())
}

#[test]
fn a_group_past_the_page_is_refused_at_its_count(rt: HostRuntime) -> Result<(), Fail> {
    const WHOLE: [(&[u8], usize, Fill); 1] = [(
        &[0xFF, 0x07, 0x00],
        3,
        Fill::Line { repeats: 256 },
    )];
    const PAST_PAGE: Fill = Fill::Fault(LineFault::GroupPastPage);
    const SHORT: [(&[u8], usize, Fill); 2] = [
        (&[0xFF, 0x07, 0x00], 1, PAST_PAGE),
        (&[0x00], 0, PAST_PAGE),
    ];
    feeds(
        &rt,
        &mut reader_of(rt.alloc(), Kind::Gray8, 8, 256)?,
        &WHOLE,
    );
    feeds(
        &rt,
        &mut reader_of(rt.alloc(), Kind::Gray8, 8, 255)?,
        &SHORT,
    );
    Ok(())
}

// The bytes of a page of three groups of lines of four pixels, and a byte behind it.
const PAGE: [u8; 14] = [
    0x01, 0xFD, 0x01, 0x02, 0x03, 0x04, 0x00, 0x01, 0x05, 0x80, 0x02, 0x03, 0x07, 0x99,
];

// Its lines, each with its repeats behind it.
const LINES: [u8; 15] = [1, 2, 3, 4, 2, 5, 5, 255, 255, 1, 7, 7, 7, 7, 3];

// Feeds a piece once, appends the line and the repeats of a group that it ends, and answers how much was used.
fn feed_once(reader: &mut LineReader, piece: &[u8], read: &mut Vec<u8>) -> Result<usize, Fail>
    ensures { IfOk result (λ used. used ≤ length piece.now) }
{
    let fed = reader.feed(piece);
    if let Fill::Line { repeats } = fed.state {
        read.extend_from_slice(reader.line())?;
        read.push(u8::try_from(repeats).unwrap_or(0))?;
    }
    Ok(fed.used)
}

// Feeds a piece until it or the page ends.
fn feed_all(reader: &mut LineReader, piece: &[u8], read: &mut Vec<u8>) -> Result<(), Fail> {
    let mut rest = piece;
    for _ in 0..4 {
        if reader.lines_left() > 0 {
            rest = &rest[feed_once(reader, rest, read)?..];
        }
    }
    Ok(())
}

// What is read of the page, cut in two.
fn read_cut(alloc: Global, cut: usize) -> Result<Vec<u8>, Fail>
    requires { cut ≤ 14 }
{
    let mut reader = reader_of(alloc, Kind::Gray8, 4, 6)?;
    let mut read = Vec::new(alloc);
    feed_all(&mut reader, &PAGE[..cut], &mut read)?;
    feed_all(&mut reader, &PAGE[cut..], &mut read)?;
    Ok(read)
}

// What is read of the page, byte by byte.
fn read_bytes(alloc: Global) -> Result<Vec<u8>, Fail> {
    let mut reader = reader_of(alloc, Kind::Gray8, 4, 6)?;
    let mut read = Vec::new(alloc);
    for &byte in &PAGE {
        feed_all(&mut reader, &[byte], &mut read)?;
    }
    Ok(read)
}

#[test]
fn each_cut_gives_the_same_lines(rt: HostRuntime) -> Result<(), Fail> {
    for cut in 0..15 {
        same_bytes(&rt, "a cut", read_cut(rt.alloc(), cut)?.as_slice(), &LINES);
    }
    let single = read_bytes(rt.alloc())?;
    same_bytes(&rt, "single bytes", single.as_slice(), &LINES);
    Ok(())
}

#[test]
fn code_line_writes_the_canonical_group(rt: HostRuntime) -> Result<(), Fail> {
    let mut out = Vec::new(rt.alloc());
    code_line(&[0x05, 0x05, 0x05, 0x07, 0x09, 0x09], 1, 2, &mut out)?;
    code_line(&[0x01, 0x02, 0x03], 1, 1, &mut out)?;
    code_line(&[0x01, 0x02, 0x03, 0x01, 0x02, 0x03], 3, 1, &mut out)?;
    let wanted = [
        0x01, 0x02, 0x05, 0x00, 0x07, 0x01, 0x09, // runs
        0x00, 0xFE, 0x01, 0x02, 0x03, // single bytes
        0x00, 0x01, 0x01, 0x02, 0x03, // pixels of three bytes
    ];
    same_bytes(&rt, "three groups", out.as_slice(), &wanted);
    Ok(())
}

#[test]
fn code_line_takes_four_byte_units(rt: HostRuntime) -> Result<(), Fail> {
    let mut out = Vec::new(rt.alloc());
    code_line(
        &[0x01, 0x02, 0x03, 0x04, 0x01, 0x02, 0x03, 0x04],
        4,
        1,
        &mut out,
    )?;
    same_bytes(
        &rt,
        "a group",
        out.as_slice(),
        &[0x00, 0x01, 0x01, 0x02, 0x03, 0x04],
    );
    Ok(())
}
