//! Runs in memory, as rows of tables.
use crate::fixture::{
    Hashed, Page, Wanted, change, hashes_to, leaves_parts, stream_of, text_shelf,
};
use driver_fixtures::{
    Left, failing_shelf, joined, no_files, one_file, plain, prefix, run_over, sink, source,
};
use job_fixtures::TINY_JOB;
use std::alloc::{AllocError, Global};
use std::process::Abort;
use std::test::Fail;
use std::thread::Threads;
use weave_base::{MemShelf, MemSource};

/// Room for the output of a small job.
pub const ROOMY: usize = 4096;

/// A profile's text that has all it needs.
pub const JUST_ENOUGH: &[u8] =
    b"escp2-profile 1\nhdpi=360\nvdpi=720\nnozzles=31\npitch=8\ninks=k\ntop=240\n";

// A head of three inks.
const MINE: &[u8] =
    b"escp2-profile 1\nhdpi=360\nvdpi=360\nnozzles=15\npitch=4\ninks=cmy\nleft=45\nright=45\ntop=60\nbottom=60\n";

/// A part of a job: the bytes of the known job from one place up to another, or other bytes.
#[derive(Clone, Copy)]
pub enum Part {
    Known(usize, usize),
    Bytes(&'static [u8]),
}

/// What is outside of a run: its input, its shelf, and the room for its output. Where no file is named the shelf is
/// empty, and where no room is named there is enough.
#[derive(Clone, Copy)]
pub enum Given {
    /// These bytes.
    Bytes(&'static [u8]),
    /// Pages. The file `m1.txt` has these parts; there is no file without a part.
    Pages(&'static [&'static [u8]], &'static [Page<'static>]),
    /// The first bytes of a stream of pages, so many.
    Cut(&'static [Page<'static>], usize),
    /// A stream of pages with bytes changed, by their places.
    Changed(&'static [Page<'static>], &'static [(usize, u8)]),
    /// Pages, the most bytes of a read and the number of a read that fails, counted from 1, and the room.
    Reads(&'static [Page<'static>], (u32, u32), usize),
    /// The parts of a job; the others as above.
    Job(&'static [Part], (u32, u32), usize),
    /// No input. The file `m1.txt` has these parts.
    Text(&'static [&'static [u8]]),
    /// No input. The file `m1.txt` has a text with just enough, and a comment, in so many bytes.
    Long(usize),
    /// No input, this room, and a shelf whose first read fails.
    Room(usize),
    /// The first read of the input fails, and that of the shelf.
    Unread,
    /// The first read of the input fails. The file `mine` is the profile of a head of three inks.
    Mine,
}

// The parts of a job, one after another.
fn job_of(alloc: Global, parts: &[Part]) -> Result<Vec<u8>, AllocError> {
    let mut job = Vec::new(alloc);
    for part in parts {
        job.extend_from_slice(match *part {
            Part::Known(from, to) => TINY_JOB.get(from..to).unwrap_or(&[]),
            Part::Bytes(bytes) => bytes,
        })?;
    }
    Ok(job)
}

// A stream of pages with these bytes changed.
fn changed(
    alloc: Global,
    pages: &[Page<'_>],
    changes: &[(usize, u8)],
) -> Result<Vec<u8>, AllocError> {
    let mut bytes = stream_of(alloc, pages)?;
    change(&mut bytes, changes);
    Ok(bytes)
}

// The bytes of an input.
fn bytes_of(alloc: Global, given: Given) -> Result<Vec<u8>, AllocError> {
    match given {
        Given::Bytes(bytes) => bytes.to_vec(alloc),
        Given::Pages(_, pages) => stream_of(alloc, pages),
        Given::Cut(pages, count) => prefix(&stream_of(alloc, pages)?, count).to_vec(alloc),
        Given::Changed(pages, changes) => changed(alloc, pages, changes),
        Given::Reads(pages, _, _) => stream_of(alloc, pages),
        Given::Job(parts, _, _) => job_of(alloc, parts),
        _ => Ok(Vec::new(alloc)),
    }
}

/// The input.
pub fn input_of(alloc: Global, given: Given) -> Result<MemSource, AllocError> {
    let bytes = bytes_of(alloc, given)?;
    match given {
        Given::Reads(_, (piece, failing), _) => source(alloc, bytes, piece, failing),
        Given::Job(_, (piece, failing), _) => source(alloc, bytes, piece, failing),
        Given::Unread | Given::Mine => source(alloc, bytes, 1, 1),
        _ => Ok(plain(alloc, bytes)),
    }
}

// A shelf whose file `m1.txt` has a text with just enough and a comment, in so many bytes.
fn long_shelf(alloc: Global, length: usize) -> Result<MemShelf, Fail> {
    let mut text = JUST_ENOUGH.to_vec(alloc)?;
    text.resize(length.max(text.len()), b'#')?;
    text_shelf(alloc, &text)
}

/// The shelf.
pub fn shelf_of(alloc: Global, given: Given) -> Result<MemShelf, Fail> {
    match given {
        Given::Pages([], _) => Ok(no_files(alloc)),
        Given::Pages(text, _) => text_shelf(alloc, &joined(alloc, text)?),
        Given::Text(text) => text_shelf(alloc, &joined(alloc, text)?),
        Given::Long(length) => long_shelf(alloc, length),
        Given::Room(_) | Given::Unread => Ok(failing_shelf(alloc)?),
        Given::Mine => Ok(one_file(alloc, "mine", MINE)?),
        _ => Ok(no_files(alloc)),
    }
}

// The room for the output.
fn room_of(given: Given) -> usize {
    match given {
        Given::Reads(_, _, room) => room,
        Given::Job(_, _, room) => room,
        Given::Room(room) => room,
        _ => 70_000,
    }
}

/// Runs these words, at most nine.
pub fn run_given<R: Threads + Sync>(
    rt: &R,
    alloc: Global,
    words: &[&str],
    given: Given,
) -> Result<Left, Fail> {
    let out = sink(alloc, room_of(given))?;
    let (input, shelf) = (input_of(alloc, given)?, shelf_of(alloc, given)?);
    Ok(run_over(rt, alloc, words, input, out, shelf)?)
}

/// A run: its words, what is outside, and what it leaves.
pub type Row = (&'static [&'static str], Given, Wanted);

/// What runs show, and the runs.
pub type Table = (&'static str, &'static [Row]);

// Asserts what each run leaves.
fn try_rows<R: Abort + Threads + Sync>(
    rt: &R,
    alloc: Global,
    (at, rows): Table,
) -> Result<(), Fail> {
    for (words, given, wanted) in rows {
        let left = run_given(rt, alloc, words, *given)?;
        leaves_parts(rt, alloc, (at, words), &left, *wanted)?;
    }
    Ok(())
}

/// Asserts what each run of these tables leaves.
pub fn try_tables<R: Abort + Threads + Sync>(
    rt: &R,
    alloc: Global,
    tables: &[Table],
) -> Result<(), Fail> {
    for table in tables {
        try_rows(rt, alloc, *table)?;
    }
    Ok(())
}

/// What a run shows, its words, what is outside, and the hash of what it leaves.
pub type HashRow = (&'static str, &'static [&'static str], Given, Hashed);

/// Asserts the hash of what each run leaves.
pub fn try_hashes<R: Abort + Threads + Sync>(
    rt: &R,
    alloc: Global,
    rows: &[HashRow],
) -> Result<(), Fail> {
    for (at, words, given, wanted) in rows {
        let left = run_given(rt, alloc, words, *given)?;
        hashes_to(rt, at, &left, *wanted);
    }
    Ok(())
}
