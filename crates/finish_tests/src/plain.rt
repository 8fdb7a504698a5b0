//! What the finisher is to make of a job, by a plain rule. It knows commands by the slow lister alone.
use job_fixtures::listed;
use std::alloc::{AllocError, Global};

/// What the finisher is to make of a job.
#[derive(Drop)]
pub struct Plain {
    pub status: u8,
    /// The whole commands, and what ends their page.
    pub out: Vec<u8>,
    /// The error line.
    pub line: String,
    /// How many pages are whole: the form feeds among the commands.
    pub pages: usize,
    /// Whether a form feed ends the page that was cut.
    pub is_cut: bool,
}

/// The first `count` bytes, or all if there are fewer.
pub fn prefix(bytes: &[u8], count: usize) -> &[u8] {
    bytes.get(..count).unwrap_or(bytes)
}

/// Parts of a job, one behind another.
pub fn joined(alloc: Global, parts: &[&[u8]]) -> Result<Vec<u8>, AllocError> {
    let mut whole = Vec::new(alloc);
    for part in parts {
        whole.extend_from_slice(part)?;
    }
    Ok(whole)
}

// What ends the page behind one more command: nothing behind a reset, a reset behind a form feed, a form feed and a
// reset behind margins. Any other command leaves what ended the page before it, or begins a page, which a reset ends.
fn ending_behind(command: &[u8], ending: &'static [u8]) -> &'static [u8] {
    match command {
        [0x1B, 0x40] => b"",
        [0x0C] => b"\x1B\x40",
        [0x1B, 0x28, 0x63, ..] => b"\x0C\x1B\x40",
        _ if ending.is_empty() => b"\x1B\x40",
        _ => ending,
    }
}

// The status of a job that the slow lister stops at so, and its error line. A job that is cut is no fault.
fn answer_to(alloc: Global, stop: Option<(u64, &'static str)>) -> Result<(u8, String), AllocError> {
    match stop {
        None | Some((_, "Cut")) => Ok((0, String::new(alloc))),
        Some((at, cause)) => Ok((8, format!(in alloc; "job: offset {at}: {cause}\n")?)),
    }
}

/// What the finisher is to make of a job. A command ends where the slow lister lists all its bytes.
pub fn finished(alloc: Global, job: &[u8]) -> Result<Plain, AllocError> {
    let (mut whole, mut pages, mut ending): (usize, usize, &'static [u8]) = (0, 0, b"");
    for end in 1..job.len().saturating_add(1) {
        let command = job.get(whole..end).unwrap_or(b"");
        if listed(alloc, command)?.stop.is_none() {
            ending = ending_behind(command, ending);
            pages = pages.saturating_add(usize::from(command == b"\x0C".as_slice()));
            whole = end;
        }
    }
    let mut out = prefix(job, whole).to_vec(alloc)?;
    out.extend_from_slice(ending)?;
    let (status, line) = answer_to(alloc, listed(alloc, job)?.stop)?;
    Ok(Plain {
        status,
        out,
        line,
        pages,
        is_cut: ending.len() == 3,
    })
}
