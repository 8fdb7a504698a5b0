//! What the commands for print jobs write, by the slow programs.
use crate::machine::Machine;
use crate::reader::{JobBytesLeft, Name, PlainJobStop, Said};
use std::alloc::{AllocError, Global};

/// What a command makes of a job, by a slow program.
#[derive(Drop)]
pub struct PlainOutcome {
    /// What it writes.
    pub out: Vec<u8>,
    /// How many bytes are written once each sheet is; of a listing none.
    pub ends: Vec<usize>,
    /// Where and why it stops before the end of the job.
    pub stop: Option<(u64, &'static str)>,
}

// The commands of a job, and the stop behind them.
#[derive(Drop)]
struct Commands {
    said: Vec<Said>,
    stop: Option<(u64, &'static str)>,
}

// Appends the line of a command.
fn add_line(alloc: Global, said: &Said, out: &mut Vec<u8>) -> Result<(), AllocError> {
    let start = format!(in alloc; "{} {}", said.at, said.name.word())?;
    out.extend_from_slice(start.as_bytes())?;
    for number in said.numbers.iter() {
        let number = format!(in alloc; " {}", number)?;
        out.extend_from_slice(number.as_bytes())?;
    }
    if said.name == Name::Raster {
        let dots = format!(in alloc; " {}", Machine::dot_count(alloc, said)?)?;
        out.extend_from_slice(dots.as_bytes())?;
    }
    out.extend_from_slice(b"\n")
}

// The commands of a job up to a stop.
fn read(alloc: Global, job: &[u8]) -> Result<Commands, AllocError> {
    let mut said = Vec::new(alloc);
    let mut stop = None;
    let mut unread = JobBytesLeft {
        job,
        at: 0,
        last: 0,
        alloc,
    };
    for _ in 0..job.len() {
        if unread.at >= job.len() || stop.is_some() {
            break;
        }
        match unread.command() {
            Ok(command) => said.push(command)?,
            Err(PlainJobStop::Cut) => stop = Some((unread.last as u64, "Cut")),
            Err(PlainJobStop::Fault { at, cause }) => stop = Some((at, cause)),
            Err(PlainJobStop::Memory) => return Err(AllocError),
        }
    }
    Ok(Commands { said, stop })
}

/// The listing of a job, a line for each command.
pub fn listed(alloc: Global, job: &[u8]) -> Result<PlainOutcome, AllocError> {
    let commands = read(alloc, job)?;
    let mut out = Vec::new(alloc);
    for said in commands.said.iter() {
        add_line(alloc, said, &mut out)?;
    }
    Ok(PlainOutcome {
        out,
        ends: Vec::new(alloc),
        stop: commands.stop,
    })
}

/// The images of the sheets that a job ejects on the printer `tiny`.
pub fn played(alloc: Global, job: &[u8]) -> Result<PlainOutcome, AllocError> {
    let commands = read(alloc, job)?;
    let mut machine = Machine::start(alloc);
    let (mut out, mut ends) = (Vec::new(alloc), Vec::new(alloc));
    let mut stop = commands.stop;
    for said in commands.said.iter() {
        if let Some(fault) = machine.run(said, &mut out)? {
            stop = Some((said.at, fault));
            break;
        }
        if said.name == Name::Eject {
            ends.push(out.len())?;
        }
    }
    Ok(PlainOutcome { out, ends, stop })
}
