//! Runs in memory, and what they leave.
use driver_core::{OpenGate, run};
use driver_fixtures::{
    BLACK_BODY, Left, add_page, begin, joined, no_files, one_file, plain, roomy, run_over, words,
};
use hash_fixtures::hash_of;
use ink_meter::Meter;
use pwg_header::Kind;
use std::alloc::{AllocError, Global};
use std::process::Abort;
use std::test::Fail;
use std::thread::Threads;
use weave_base::{MemShelf, MemSink, MemSource, Memory};

/// Two lines of grey on a page of four columns; the second line has two dots.
pub const GREY_BODY: [u8; 8] = [0, 3, 0xD1, 0, 2, 0x9F, 0, 0xA3];

/// The job of the page of grey.
pub const GREY_JOB: [u8; 70] = [
    0x1B, 0x40, 0x1B, 0x28, 0x47, 1, 0, 1, 0x1B, 0x28, 0x55, 1, 0, 5, 0x1B, 0x28, 0x69, 1, 0, 0,
    0x1B, 0x55, 1, 0x1B, 0x28, 0x43, 2, 0, 4, 0, 0x1B, 0x28, 0x63, 4, 0, 0, 0, 4, 0, 0x1B, 0x28,
    0x56, 2, 0, 0, 0, 0x1B, 0x28, 0x76, 2, 0, 2, 0, 0x1B, 0x72, 0, 0x0D, 0x1B, 0x2E, 1, 10, 10, 1,
    4, 0, 0, 0x50, 0x0C, 0x1B, 0x40,
];

/// The bytes of a stream of one page of grey.
pub const GREY_STREAM: usize = 1808;

/// A page for a printer of 360 dots an inch, by its kind, its size and its body.
pub type Page<'a> = (Kind, (u32, u32), &'a [u8]);

/// The page of grey.
pub const GREY: Page<'static> = (Kind::Gray8, (4, 2), &GREY_BODY);

/// A black page of eight columns and six lines.
pub const BLACK: Page<'static> = (Kind::Gray8, (8, 6), &BLACK_BODY);

/// The words of most runs.
pub const PRINT: [&str; 2] = ["print", "profile=tiny1"];

/// The words of runs on a printer of three nozzles.
pub const TINY: [&str; 2] = ["print", "profile=tiny"];

/// The words of runs on the printer of the file `m1.txt`.
pub const BY_TEXT: [&str; 2] = ["print", "profile=m1.txt"];

/// The status, the parts of the output and the error line that a run leaves.
pub type Wanted = (u8, &'static [&'static [u8]], &'static [u8]);

/// Writes these bytes at their places.
pub fn change(bytes: &mut Vec<u8>, changes: &[(usize, u8)]) {
    for (at, byte) in changes {
        if let Some(changed) = bytes.get_mut(*at) {
            *changed = *byte;
        }
    }
}

/// A stream of these pages.
pub fn stream_of(alloc: Global, pages: &[Page<'_>]) -> Result<Vec<u8>, AllocError> {
    let mut bytes = begin(alloc)?;
    for (kind, size, body) in pages {
        add_page(&mut bytes, *kind, *size, body)?;
    }
    Ok(bytes)
}

/// A shelf whose file `m1.txt` has this text.
pub fn text_shelf(alloc: Global, text: &[u8]) -> Result<MemShelf, Fail> {
    Ok(one_file(alloc, "m1.txt", text)?)
}

/// Runs these words with meters and a gate that is always open.
pub fn run_metered<R: Threads + Sync>(
    rt: &R,
    alloc: Global,
    texts: &[&str],
    mut input: MemSource,
    mut out: MemSink,
    mut err: MemSink,
    mut shelf: MemShelf,
    meters: &mut Vec<Box<dyn Meter>>,
) -> Result<Left, Memory> {
    let words = words(alloc, texts)?;
    let status = run(
        rt, alloc, &words, &mut input, &mut out, &mut err, &mut shelf, &OpenGate, meters,
    );
    Ok(Left { status, out, err })
}

/// Runs words over these bytes and a shelf.
pub fn run_bytes<R: Threads + Sync>(
    rt: &R,
    alloc: Global,
    words: &[&str],
    bytes: Vec<u8>,
    shelf: MemShelf,
) -> Result<Left, Memory> {
    run_over(rt, alloc, words, plain(alloc, bytes), roomy(alloc)?, shelf)
}

/// Asserts the status, the output and the error line that a run left. The text says which run it is.
pub fn leaves<R: Abort>(rt: &R, at: &str, left: &Left, wanted: (u8, &[u8], &[u8])) {
    assert_eq!(rt; left.all(), wanted, "{at}");
}

/// Asserts the same of the run of these words, with the output by its parts.
pub fn leaves_parts<R: Abort>(
    rt: &R,
    alloc: Global,
    (at, words): (&str, &[&str]),
    left: &Left,
    (status, parts, line): Wanted,
) -> Result<(), Fail> {
    let out = joined(alloc, parts)?;
    assert_eq!(rt;
        left.all(),
        (status, out.as_slice(), line),
        "{at}: {words:?}"
    );
    Ok(())
}

/// What a run leaves: its status, its error line, and the length and the hash of its output.
pub type Hashed = (u8, &'static [u8], usize, u64);

/// Asserts the status and the error line that a run left, and the length and the hash of its output.
pub fn hashes_to<R: Abort>(rt: &R, at: &str, left: &Left, wanted: Hashed) {
    let (status, out, line) = left.all();
    let found = (status, line, out.len(), hash_of(out));
    assert_eq!(rt; found, wanted, "{at}");
}

/// Asserts the length and the hash of the images of a job that the simplest printer plays.
pub fn plays_to<R: Abort + Threads + Sync>(
    rt: &R,
    alloc: Global,
    at: &str,
    job: &Left,
    (length, hash): (usize, u64),
) -> Result<(), Fail> {
    let bytes = job.out.bytes().to_vec(alloc)?;
    let words = ["dots", "profile=tiny1"];
    let left = run_bytes(rt, alloc, &words, bytes, no_files(alloc))?;
    hashes_to(rt, at, &left, (0, b"", length, hash));
    Ok(())
}
