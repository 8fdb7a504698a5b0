//! Listing a job.
ghost use Rattle.job_lister.specs.Outcome.{ListResult};
ghost use Rattle.job_lister.specs.declared.lister.ListStop.TheVariants as ListStop;
ghost use Rattle.escp2_definitions.specs.Commands.{in_table, rows_len};
ghost use Rattle.buffered_bytes.specs.Gathering.{Writes, gathered as gathered_of};
ghost use Rattle.job_lister.specs.Listing.{line_of};
ghost use Rattle.buffered_bytes.specs.Outside.{outside_of};
ghost use Rattle.weave_base.specs.Causes.{HasCause};
ghost use Rattle.weave_base.specs.Parts.{AppendsPart};
ghost use Rattle.std.specs.Prelude.{OnErr, OnOk, length, true, ◌<◌, ◌≡◌, ◌^◌};

use crate::line::{Line, push_line};
use buffered_bytes::Gathered;
use escp2_definitions::JobStop;
use escp2_reader::{FeedStop, JobFeed, PlacedCommand};
use std::alloc::Global;
use weave_base::{Failed, Memory, Sink, Source};

/// Why a job is not listed to its end.
#[derive(Clone, Copy, Debug, PartialEq, Eq)]
pub enum ListStop {
    /// The job is refused at this offset.
    Job { offset: u64, cause: JobStop },
    /// A read failed.
    Read,
    /// A write failed.
    Write,
    /// Memory ran out.
    Memory,
}

/// Writes a line for each command of the job in `input`, which has at most `most` bytes.
pub fn list_job<S: Source, K: Sink>(
    alloc: Global,
    most: u64,
    input: &mut S,
    out: &mut K,
) -> Result<(), ListStop>
    requires { most < 2 ^ 63 }
    ensures { ListResult most
        (outside_of S.left S.faults input.old input.new)
        (outside_of K.held K.faults out.old out.new) result }
{
    let mut feed = JobFeed::make(alloc, most)?;
    let mut gathered = Gathered::new();
    'commands: loop {
        match feed.next(input) {
            Ok(Some(placed)) => push_command(&placed, feed.rows(), &mut gathered, out)?,
            Ok(None) => {
                gathered.put(out)?;
                return Ok(());
            }
            Err(stop) => {
                gathered.put(out)?;
                return Err(ListStop::from(stop));
            }
        }
    }
}

// Appends a command's line to what is gathered.
fn push_command<K: Sink>(
    placed: &PlacedCommand,
    rows: &[u8],
    gathered: &mut Gathered,
    out: &mut K,
) -> Result<(), Failed>
    requires in_range { in_table placed.now.command ≡ true }
    requires rows_fit { length rows.now ≡ rows_len placed.now.command }
    ensures ok { OnOk result
        (Writes (K.held out.old) (K.held out.new) (gathered_of gathered.old) (gathered_of gathered.new)
        (line_of placed.now.at placed.now.command rows.now)) }
    ensures part { OnErr result (AppendsPart (K.held out.old) (K.held out.new) (gathered_of gathered.old)) }
    ensures cause { HasCause (K.faults out.old) (K.faults out.new) result }
{
    let mut line = Line::new();
    push_line(placed.at, &placed.command, rows, &mut line);
    gathered.write(line.as_bytes(), out)
}

impl From<FeedStop> for ListStop {
    ghost use Rattle.job_lister.specs.Lines.{feed_stop};

    ghost from_gives = { λ why stop. stop ≡ feed_stop why };

    fn from(stop: FeedStop) -> ListStop {
        match stop {
            FeedStop::Job { offset, cause } => ListStop::Job { offset, cause },
            FeedStop::Read => ListStop::Read,
        }
    }
}

impl From<Failed> for ListStop {
    ghost from_gives = { λ _ stop. stop ≡ ListStop.Write };

    fn from(_failed: Failed) -> ListStop {
        ListStop::Write
    }
}

impl From<Memory> for ListStop {
    ghost from_gives = { λ _ stop. stop ≡ ListStop.Memory };

    fn from(_memory: Memory) -> ListStop {
        ListStop::Memory
    }
}
