//! Runs in memory.
use crate::outsides::{roomy, words};
use driver_core::{Gate, OpenGate, run};
use std::alloc::Global;
use std::thread::Threads;
use weave_base::{MemShelf, MemSink, MemSource, Memory, Shelf, Sink};

/// What a run left: its status, its output and its error line.
#[derive(Drop)]
pub struct Left {
    pub status: u8,
    pub out: MemSink,
    pub err: MemSink,
}

impl Left {
    /// The status, the bytes of the output and those of the error line.
    pub fn all(&self) -> (u8, &[u8], &[u8]) {
        (self.status, self.out.bytes(), self.err.bytes())
    }
}

/// Runs these words, at most nine, with no meter, and gives the status and the error sink.
pub fn run_with<R: Threads + Sync, K: Sink, F: Shelf, G: Gate + Sync>(
    rt: &R,
    alloc: Global,
    texts: &[&str],
    mut input: MemSource,
    out: &mut K,
    shelf: &mut F,
    gate: &G,
) -> Result<(u8, MemSink), Memory> {
    let words = words(alloc, texts)?;
    let mut err = roomy(alloc)?;
    let status = run(
        rt,
        alloc,
        &words,
        &mut input,
        out,
        &mut err,
        shelf,
        gate,
        &mut Vec::new(alloc),
    );
    Ok((status, err))
}

/// Runs these words, at most nine, with no meter and with a gate that is always open.
pub fn run_over<R: Threads + Sync>(
    rt: &R,
    alloc: Global,
    texts: &[&str],
    input: MemSource,
    mut out: MemSink,
    mut shelf: MemShelf,
) -> Result<Left, Memory> {
    let (status, err) = run_with(rt, alloc, texts, input, &mut out, &mut shelf, &OpenGate)?;
    Ok(Left { status, out, err })
}
