//! Runs in memory, and what they leave.
use finish_core::run;
use std::alloc::Global;
use std::fmt::Debug;
use std::process::Abort;
use std::test::Fail;
use weave_base::{MemShelf, MemSink, MemSource, Memory, Shelf, Words};

/// How a job is given and taken.
#[derive(Clone, Copy, Debug)]
pub struct Way {
    /// The most bytes of a read, and of a write.
    pub read: u32,
    pub written: u32,
    /// The read and the write that fail, counted from 1; 0 for none.
    pub failing_read: u32,
    pub failing_write: u32,
    /// The room for lines.
    pub room: usize,
}

/// All bytes by one call, of which none fails.
pub const AT_ONCE: Way = Way {
    read: 4096,
    written: 4096,
    failing_read: 0,
    failing_write: 0,
    room: 4096,
};

/// One byte a call, of which none fails.
pub const BY_BYTES: Way = Way {
    read: 1,
    written: 1,
    ..AT_ONCE
};

/// What a run leaves: its status, its output and its lines.
#[derive(Drop)]
pub struct Left {
    pub status: u8,
    pub out: MemSink,
    pub err: MemSink,
}

/// The status, the bytes of the output and the lines of a run.
pub type Wanted<'a> = (u8, &'a [u8], &'a [u8]);

/// The number of the call behind so many.
pub fn call_behind(calls: usize) -> u32 {
    u32::try_from(calls).unwrap_or(0).saturating_add(1)
}

/// A source of these bytes.
pub fn source(alloc: Global, bytes: &[u8], way: Way) -> Result<MemSource, Fail> {
    let pieces = vec![in alloc; way.read.max(1)]?;
    let fails = vec![in alloc; way.failing_read]?;
    Ok(MemSource::make(bytes.to_vec(alloc)?, pieces, fails))
}

/// A sink for a job.
pub fn sink(alloc: Global, way: Way) -> Result<MemSink, Fail> {
    let takes = vec![in alloc; way.written.max(1)]?;
    let fails = vec![in alloc; way.failing_write]?;
    Ok(MemSink::make(alloc, 4096, takes, fails)?)
}

// The words of a command line, at most nine of them.
fn words_of(alloc: Global, texts: &[&str]) -> Result<Words, Memory> {
    let mut made = Words::make(alloc);
    for text in texts {
        if made.len() < 9 {
            made.push(text)?;
        }
    }
    Ok(made)
}

/// Runs these words, at most nine.
pub fn run_over<L: Shelf>(
    alloc: Global,
    texts: &[&str],
    job: &[u8],
    way: Way,
    shelf: &mut L,
) -> Result<Left, Fail> {
    let words = words_of(alloc, texts)?;
    let (mut input, mut out) = (source(alloc, job, way)?, sink(alloc, way)?);
    let mut err = MemSink::make(alloc, way.room, Vec::new(alloc), Vec::new(alloc))?;
    let status = run(alloc, &words, &mut input, &mut out, &mut err, shelf);
    Ok(Left { status, out, err })
}

/// Asserts what a run has left.
pub fn has_left<T: Debug>(rt: &impl Abort, at: &T, left: &Left, wanted: Wanted<'_>) {
    let got = (left.status, left.out.bytes(), left.err.bytes());
    assert_eq!(rt; got, wanted, "at {at:?}");
}

/// Asserts what these words leave of a job, over a shelf without a text.
pub fn leaves(
    rt: &impl Abort,
    alloc: Global,
    texts: &[&str],
    job: &[u8],
    way: Way,
    wanted: Wanted<'_>,
) -> Result<(), Fail> {
    let mut shelf = MemShelf::make(Vec::new(alloc), Vec::new(alloc));
    let left = run_over(alloc, texts, job, way, &mut shelf)?;
    has_left(rt, &(job.len(), way), &left, wanted);
    Ok(())
}
