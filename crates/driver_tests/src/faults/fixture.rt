//! Runs in memory, against what they are to leave.
use crate::faults::answers::{Answer, left_of, printed};
use driver_fixtures::{one_file, run_over, source};
use job_fixtures::{listed, played};
use std::alloc::{AllocError, Global};
use std::process::Abort;
use std::test::Fail;
use std::thread::Threads;
use weave_base::{InkSet, MemSink};

/// A command over an input.
#[derive(Clone, Copy)]
pub enum DriverCommand {
    /// Printing by a head of one nozzle with black ink.
    PrintBlack,
    /// Printing by a head of one nozzle with four inks.
    PrintColours,
    /// Playing on the printer `tiny`.
    Dots,
    List,
}

// The profile of a head of one nozzle with four inks.
const FOUR: &[u8] = b"escp2-profile 1\nhdpi=360\nvdpi=360\nnozzles=1\npitch=1\ninks=cmyk\n";

impl DriverCommand {
    /// Its words.
    pub fn words(self) -> &'static [&'static str] {
        match self {
            DriverCommand::PrintBlack => &["print", "profile=tiny1"],
            DriverCommand::PrintColours => &["print", "profile=four.txt"],
            DriverCommand::Dots => &["dots", "profile=tiny"],
            DriverCommand::List => &["list"],
        }
    }

    /// What it is to leave of these bytes.
    pub fn answer(self, alloc: Global, bytes: &[u8]) -> Result<Answer, AllocError> {
        match self {
            DriverCommand::PrintBlack => printed(alloc, InkSet::K, bytes),
            DriverCommand::PrintColours => printed(alloc, InkSet::Cmyk, bytes),
            DriverCommand::Dots => left_of(alloc, played(alloc, bytes)?),
            DriverCommand::List => left_of(alloc, listed(alloc, bytes)?),
        }
    }
}

/// The outside of a run. A write takes one byte.
#[derive(Clone, Copy, Debug)]
pub struct Calls {
    /// The most bytes of a read.
    pub piece: u32,
    /// The read and the write that fail, counted from 1; 0 for none.
    pub failing_read: u32,
    pub failing_write: u32,
}

impl Calls {
    // A sink.
    fn sink(self, alloc: Global) -> Result<MemSink, Fail> {
        let (pieces, fails) = (vec![in alloc; 1]?, vec![in alloc; self.failing_write]?);
        Ok(MemSink::make(alloc, 70_000, pieces, fails)?)
    }
}

/// The number of the call behind so many.
pub fn call_behind(calls: usize) -> u32 {
    u32::try_from(calls).unwrap_or(0).saturating_add(1)
}

/// No call fails, and a read takes one byte.
pub const BY_BYTES: Calls = Calls {
    piece: 1,
    failing_read: 0,
    failing_write: 0,
};

/// Asserts what these words leave over these bytes.
pub fn leaves<R: Abort + Threads + Sync>(
    rt: &R,
    alloc: Global,
    words: &[&str],
    bytes: &[u8],
    calls: Calls,
    wanted: &Answer,
) -> Result<(), Fail> {
    let bytes_read = bytes.to_vec(alloc)?;
    let input = source(alloc, bytes_read, calls.piece, calls.failing_read)?;
    let (out, shelf) = (calls.sink(alloc)?, one_file(alloc, "four.txt", FOUR)?);
    let left = run_over(rt, alloc, words, input, out, shelf)?;
    let wanted = (wanted.status, wanted.out.as_slice(), wanted.line.as_bytes());
    assert_eq!(rt;
        left.all(),
        wanted,
        "{words:?} of {} bytes, {calls:?}",
        bytes.len()
    );
    Ok(())
}
