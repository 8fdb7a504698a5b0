//! The bytes of each command, written here by hand, the job that was worked out by hand, and sinks that fail or take
//! short pieces.
use crate::checks::{HEADER, is_fit, same, same_bytes, sink};
use escp2_writer::{Command, RasterHead, append_header, append_row, put};
use job_fixtures::{TINY_COMMANDS, TINY_JOB, tiny_rows};
use printer_definitions::Ink;
use std::alloc::Global;
use std::process::Abort;
use std::test::Fail;
use weave_base::{Failed, MemSink};

// A command, its rows, and its bytes.
type Case = (Command, &'static [u8], &'static [u8]);

// Writes a command to a sink, and compares the answer and what the sink then holds.
fn puts(
    rt: &impl Abort,
    at: &str,
    sink: &mut MemSink,
    command: &Command,
    rows: &[u8],
    answer: Result<(), Failed>,
    held: &[u8],
) {
    is_fit(rt, command, rows);
    same(rt, at, &put(command, rows, sink), &answer);
    same_bytes(rt, at, sink.bytes(), held);
}

const MARGINS: Command = Command::Margins {
    top: 0x0102,
    bottom: 0x0304,
};

const SPELLINGS: [Case; 17] = [
    (Command::Init, &[], &[0x1B, 0x40]),
    (
        Command::Graphics,
        &[],
        &[0x1B, 0x28, 0x47, 0x01, 0x00, 0x01],
    ),
    (
        Command::Unit { m: 0x05 },
        &[],
        &[0x1B, 0x28, 0x55, 0x01, 0x00, 0x05],
    ),
    (
        Command::MicroWeave { n: 0x00 },
        &[],
        &[0x1B, 0x28, 0x69, 0x01, 0x00, 0x00],
    ),
    (Command::OneWay { n: 0x01 }, &[], &[0x1B, 0x55, 0x01]),
    (Command::Eject, &[], &[0x0C]),
    (Command::Return, &[], &[0x0D]),
    (
        Command::Length { n: 0x1234 },
        &[],
        &[0x1B, 0x28, 0x43, 0x02, 0x00, 0x34, 0x12],
    ),
    (
        MARGINS,
        &[],
        &[0x1B, 0x28, 0x63, 0x04, 0x00, 0x02, 0x01, 0x04, 0x03],
    ),
    (
        Command::DownTo { n: 0x1234 },
        &[],
        &[0x1B, 0x28, 0x56, 0x02, 0x00, 0x34, 0x12],
    ),
    (
        Command::DownBy { n: 0x1234 },
        &[],
        &[0x1B, 0x28, 0x76, 0x02, 0x00, 0x34, 0x12],
    ),
    (
        Command::Across { n: 0x1234 },
        &[],
        &[0x1B, 0x24, 0x34, 0x12],
    ),
    (
        Command::Colour { ink: Ink::Black },
        &[],
        &[0x1B, 0x72, 0x00],
    ),
    (
        Command::Colour { ink: Ink::Magenta },
        &[],
        &[0x1B, 0x72, 0x01],
    ),
    (Command::Colour { ink: Ink::Cyan }, &[], &[0x1B, 0x72, 0x02]),
    (
        Command::Colour { ink: Ink::Yellow },
        &[],
        &[0x1B, 0x72, 0x04],
    ),
    (RASTER, ROWS, RASTER_BYTES),
];

#[test]
fn each_command_has_its_bytes(rt: HostRuntime) -> Result<(), Fail> {
    for &(command, rows, bytes) in &SPELLINGS {
        let mut sink = sink(rt.alloc(), 16, 16, 0)?;
        puts(&rt, "a command", &mut sink, &command, rows, Ok(()), bytes);
    }
    Ok(())
}

#[test]
fn the_commands_of_the_known_job_are_written_as_its_bytes(rt: HostRuntime) -> Result<(), Fail> {
    let mut sink = sink(rt.alloc(), 92, 92, 0)?;
    for place in 0..TINY_COMMANDS.len() {
        let (command, rows) = (TINY_COMMANDS[place], tiny_rows(place));
        is_fit(&rt, &command, rows);
        same(&rt, "a command", &put(&command, rows, &mut sink), &Ok(()));
    }
    same_bytes(&rt, "the job", sink.bytes(), &TINY_JOB);
    Ok(())
}

// A raster of two rows of nine columns, in two bytes each.
const RASTER: Command = Command::Raster {
    head: RasterHead {
        c: 0,
        m: 2,
        n: 9,
        ..HEADER
    },
};

const ROWS: &[u8] = &[0xFF, 0x80, 0x01, 0x00];

const RASTER_BYTES: &[u8] = &[
    0x1B, 0x2E, 0x00, 0x14, 0x0A, 0x02, 0x09, 0x00, 0xFF, 0x80, 0x01, 0x00,
];

// A coded raster of three rows of 24 columns.
const CODED: Command = Command::Raster {
    head: RasterHead { n: 24, ..HEADER },
};

const CODED_ROWS: &[u8] = &[0, 0, 0, 1, 2, 3, 7, 7, 7];

const CODED_BYTES: &[u8] = &[
    0x1B, 0x2E, 0x01, 0x14, 0x0A, 0x03, 0x18, 0x00, 0xFE, 0x00, 0x02, 0x01, 0x02, 0x03, 0xFE, 0x07,
];

#[test]
fn rasters_take_few_writes_and_short_ones(rt: HostRuntime) -> Result<(), Fail> {
    let alloc = rt.alloc();
    // Coded rows take one write, and a plain raster two: the next would fail.
    let mut one = sink(alloc, 16, 16, 2)?;
    puts(
        &rt,
        "one write",
        &mut one,
        &CODED,
        CODED_ROWS,
        Ok(()),
        CODED_BYTES,
    );
    let mut two = sink(alloc, 16, 16, 3)?;
    puts(
        &rt,
        "two writes",
        &mut two,
        &RASTER,
        ROWS,
        Ok(()),
        RASTER_BYTES,
    );
    let mut slow = sink(alloc, 16, 1, 0)?;
    puts(
        &rt,
        "single bytes",
        &mut slow,
        &RASTER,
        ROWS,
        Ok(()),
        RASTER_BYTES,
    );
    Ok(())
}

#[test]
fn a_write_that_fails_leaves_what_was_written_before(rt: HostRuntime) -> Result<(), Fail> {
    let alloc = rt.alloc();
    let mut first = sink(alloc, 16, 16, 1)?;
    puts(
        &rt,
        "the first",
        &mut first,
        &RASTER,
        ROWS,
        Err(Failed),
        &[],
    );
    puts(
        &rt,
        "the next",
        &mut first,
        &Command::Return,
        &[],
        Ok(()),
        &[0x0D],
    );
    let mut second = sink(alloc, 16, 16, 2)?;
    let numbers = &RASTER_BYTES[..8];
    puts(
        &rt,
        "the second",
        &mut second,
        &RASTER,
        ROWS,
        Err(Failed),
        numbers,
    );
    Ok(())
}

// A byte, and then a raster and the end of a page, appended part by part.
fn appended(alloc: Global) -> Result<Vec<u8>, Fail> {
    let mut out = Vec::with_capacity(alloc, 64)?;
    out.push(0x99)?;
    append_header(&CODED, &mut out);
    append_row(&[0, 0, 0], &mut out);
    append_row(&[1, 2, 3], &mut out);
    append_row(&[7, 7, 7], &mut out);
    append_header(&Command::Eject, &mut out);
    Ok(out)
}

#[test]
fn commands_are_appended(rt: HostRuntime) -> Result<(), Fail> {
    let out = appended(rt.alloc())?;
    assert_eq!(rt; out.len(), 18);
    same_bytes(&rt, "what was there", &out[..1], &[0x99]);
    same_bytes(&rt, "a raster", &out[1..17], CODED_BYTES);
    same_bytes(&rt, "the end of a page", &out[17..], &[0x0C]);
    Ok(())
}
