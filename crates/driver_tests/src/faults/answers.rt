//! What runs are to leave, by the slow programs.
use crate::faults::plain_head::add_job;
use crate::faults::plain_stream::{StreamFault, read_stream};
use job_fixtures::PlainOutcome;
use std::alloc::{AllocError, Global};
use weave_base::InkSet;

/// What a run is to leave.
#[derive(Drop)]
pub struct Answer {
    pub status: u8,
    pub out: Vec<u8>,
    /// Where the pages or the sheets of the output end; nothing for a listing.
    pub ends: Vec<usize>,
    pub line: String,
    /// Whether more bytes of input could mend its end.
    pub mends: bool,
}

impl Answer {
    /// A status, what is written and the error line. Its pages do not count, and no bytes of input mend it.
    pub fn of(alloc: Global, status: u8, out: &[u8], line: &str) -> Result<Answer, AllocError> {
        Ok(Answer {
            status,
            out: out.to_vec(alloc)?,
            ends: Vec::new(alloc),
            line: String::from_str(alloc, line)?,
            mends: false,
        })
    }

    /// The same where a read fails behind the input: what was read stands, and a fault that was read comes first.
    pub fn unread(self, alloc: Global) -> Result<Answer, AllocError> {
        if !self.mends {
            return Ok(self);
        }
        Ok(Answer {
            status: 4,
            line: String::from_str(alloc, "read failed\n")?,
            ..self
        })
    }

    /// The same where a write fails after so many bytes: the line names the page or the sheet that is not whole.
    pub fn unwritten(self, alloc: Global, count: usize) -> Result<Answer, AllocError> {
        if count >= self.out.len() {
            return Ok(self);
        }
        let mut page = u32::from(!self.ends.is_empty());
        for end in self.ends.iter() {
            if *end <= count {
                page = page.wrapping_add(1);
            }
        }
        let mut out = self.out;
        out.truncate(count);
        Ok(Answer {
            status: 5,
            line: format!(in alloc; "write failed: page {page}\n")?,
            out,
            ends: self.ends,
            mends: self.mends,
        })
    }
}

// Whether more bytes could mend the end of a stream: it is whole, or the fault is that it ends too early.
fn mends(bytes: &[u8], fault: Option<StreamFault>) -> bool {
    match fault {
        None => true,
        Some(fault) => bytes.len() < 4 || fault.cause == "Truncated",
    }
}

/// What is left of printing a stream by a head of one nozzle with these inks.
pub fn printed(alloc: Global, inks: InkSet, bytes: &[u8]) -> Result<Answer, AllocError> {
    let stream = read_stream(alloc, bytes)?;
    let (mut out, mut ends) = (Vec::new(alloc), Vec::new(alloc));
    for page in stream.pages.iter() {
        add_job(alloc, inks, page, &mut out)?;
        ends.push(out.len())?;
    }
    let (status, line) = match stream.fault {
        None => (0, String::new(alloc)),
        Some(StreamFault { page, line, cause }) => (
            3,
            format!(in alloc; "input: page {page} line {line}: {cause}\n")?,
        ),
    };
    Ok(Answer {
        status,
        out,
        ends,
        line,
        mends: mends(bytes, stream.fault),
    })
}

/// What is left of listing a job, or of playing it, with this outcome.
pub fn left_of(alloc: Global, outcome: PlainOutcome) -> Result<Answer, AllocError> {
    let (status, line, mends) = match outcome.stop {
        None => (0, String::new(alloc), true),
        Some((at, cause)) => (
            8,
            format!(in alloc; "job: offset {at}: {cause}\n")?,
            cause == "Cut",
        ),
    };
    Ok(Answer {
        status,
        out: outcome.out,
        ends: outcome.ends,
        line,
        mends,
    })
}
