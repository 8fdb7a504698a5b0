//! How often a run asks a shelf and writes to a sink, and the most pages of a stream.
use crate::fixture::{PRINT, Page, leaves, run_bytes, stream_of};
use driver_core::OpenGate;
use driver_fixtures::{
    add_page, begin, no_files, one_file, plain, roomy, run_over, run_with, sink,
};
use pwg_header::Kind;
use std::alloc::{AllocError, Global};
use std::process::Abort;
use std::test::Fail;
use std::thread::Threads;
use weave_base::{Failed, Found, MemShelf, MemSink, Shelf, ShelfStop, Sink};

// A shelf that records the names that it is asked for.
#[derive(Drop)]
struct ListeningShelf {
    shelf: MemShelf,
    names: Vec<String>,
}

impl Shelf for ListeningShelf {
    ghost use Rattle.std.specs.Prelude.{Some};

    ghost files = { λ s. Some s.shelf.files };

    ghost faults = { λ s. s.shelf.faults };

    fn read_text(&mut self, alloc: Global, name: &str, most: usize) -> Result<Found, ShelfStop> {
        let Ok(kept) = String::from_str(alloc, name) else {
            return Err(ShelfStop::Memory);
        };
        if self.names.push(kept).is_err() {
            return Err(ShelfStop::Memory);
        }
        self.shelf.read_text(alloc, name, most)
    }
}

// Words, their status, and the names that a shelf of one file is asked for.
type Question = (&'static [&'static str], u8, &'static [&'static str]);

// The names that words ask a shelf of one file for, after the status.
fn asked<R: Threads + Sync>(
    rt: &R,
    alloc: Global,
    words: &[&str],
) -> Result<(u8, Vec<String>), Fail> {
    let mut shelf = ListeningShelf {
        shelf: one_file(alloc, "m1.txt", b"escp2-profile 1\n")?,
        names: Vec::new(alloc),
    };
    let (input, mut out) = (plain(alloc, begin(alloc)?), roomy(alloc)?);
    let (status, _) = run_with(rt, alloc, words, input, &mut out, &mut shelf, &OpenGate)?;
    Ok((status, shelf.names))
}

// The first of these names.
fn first(names: &[String]) -> Option<&str> {
    match names.first() {
        Some(name) => Some(name.as_str()),
        None => None,
    }
}

// Asserts the status of words and the names that they ask for, each with the number of names.
fn asks_all<R: Abort + Threads + Sync>(
    rt: &R,
    alloc: Global,
    questions: &[Question],
) -> Result<(), Fail> {
    for (words, status, names) in questions {
        let (answer, asked) = asked(rt, alloc, words)?;
        let found = (answer, asked.len(), first(&asked));
        let wanted = (*status, names.len(), names.first().copied());
        assert!(rt; found == wanted, "{words:?}");
    }
    Ok(())
}

#[test]
fn a_shelf_is_asked_once_for_what_is_not_built_in(rt: HostRuntime) -> Result<(), Fail> {
    const CASES: [Question; 6] = [
        (&["print", "profile=m1.txt"], 2, &["m1.txt"]),
        (&["profile", "profile=m2.txt"], 2, &["m2.txt"]),
        (&["print", "profile=tiny1"], 0, &[]),
        (&["print"], 0, &[]),
        (&["print", "profile=m1.txt", "x"], 1, &[]),
        (&["plot", "profile=m1.txt"], 1, &[]),
    ];
    asks_all(&rt, rt.alloc(), &CASES)
}

// A sink that counts its writes.
#[derive(Drop)]
struct CountingSink {
    sink: MemSink,
    writes: u32,
}

impl Sink for CountingSink {
    ghost use Rattle.std.specs.Prelude.{Some};

    ghost held = { λ s. Some s.sink.held };

    ghost faults = { λ s. s.sink.faults };

    fn write(&mut self, piece: &[u8]) -> Result<usize, Failed> {
        self.writes = self.writes.wrapping_add(1);
        self.sink.write(piece)
    }
}

// A black page of 420 lines.
const TALL: Page<'static> = (
    Kind::Gray8,
    (218, 420),
    &[255, 127, 0, 89, 0, 163, 127, 0, 89, 0],
);

// The status, the length of the error line and how many writes a page takes by a head of 15 nozzles four rows apart:
// 120 lines of margins, and 300 lines that are fired in 24 passes.
fn writes_of<R: Threads + Sync>(rt: &R, alloc: Global) -> Result<(u8, usize, u32), Fail> {
    let mut out = CountingSink {
        sink: roomy(alloc)?,
        writes: 0,
    };
    let input = plain(alloc, stream_of(alloc, &[TALL])?);
    let (words, mut shelf) = (["print", "profile=p360cmyk"], no_files(alloc));
    let (status, err) = run_with(rt, alloc, &words, input, &mut out, &mut shelf, &OpenGate)?;
    Ok((status, err.bytes().len(), out.writes))
}

#[test]
fn short_passes_take_one_write(rt: HostRuntime) -> Result<(), Fail> {
    let (status, line, writes) = writes_of(&rt, rt.alloc())?;
    assert!(rt; (status, line, writes) == (0, 0, 1), "{writes}");
    Ok(())
}

// A stream of `count` pages of one black pixel.
fn black_pixels(alloc: Global, count: u32) -> Result<Vec<u8>, AllocError> {
    let mut page = Vec::new(alloc);
    add_page(&mut page, Kind::Gray8, (1, 1), &[0, 0, 0])?;
    let mut bytes = begin(alloc)?;
    for _ in 0..count {
        bytes.extend_from_slice(&page)?;
    }
    Ok(bytes)
}

// These bytes, so many times.
fn repeated(alloc: Global, bytes: &[u8], count: u32) -> Result<Vec<u8>, AllocError> {
    let mut whole = Vec::new(alloc);
    for _ in 0..count {
        whole.extend_from_slice(bytes)?;
    }
    Ok(whole)
}

#[test]
fn a_byte_after_page_9999_is_too_many_pages(rt: HostRuntime) -> Result<(), Fail> {
    let alloc = rt.alloc();
    let one = run_bytes(&rt, alloc, &PRINT, black_pixels(alloc, 1)?, no_files(alloc))?;
    let input = plain(alloc, black_pixels(alloc, 10_000)?);
    let left = run_over(
        &rt,
        alloc,
        &PRINT,
        input,
        sink(alloc, 800_000)?,
        no_files(alloc),
    )?;
    let jobs = repeated(alloc, one.out.bytes(), 9999)?;
    let line = b"input: page 10000 line 0: TooManyPages\n";
    leaves(&rt, "a byte after page 9999", &left, (3, &jobs, line));
    Ok(())
}
