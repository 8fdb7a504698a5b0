//! Reading the commands of a job from a source.
ghost use Rattle.escp2_reader.specs.Reading.{StandsFor, begin_of, fed_of, is_failed_of};
ghost use Rattle.escp2_reader.specs.declared.feed.FeedStop.TheVariants as FeedStop;
ghost use Rattle.escp2_definitions.specs.declared.stops.JobStop.TheVariants as JobStop;
ghost use Rattle.std.specs.Prelude.{IfErr, IfNone, IfOk, IfSome, IsErrOf, IsOk, List, None, [], false, length, take};
ghost use Rattle.std.specs.Prelude.{ℕ, ◌<◌, ◌≡◌, ◌≤◌, ◌^◌};

use crate::{HeardState, JobReader};
use buffered_bytes::Unread;
use escp2_definitions::{Command, JobStop};
use std::alloc::Global;
use weave_base::{Failed, Memory, Source};

/// A whole command of a job, and the offset of its first byte.
#[derive(Clone, Copy, Debug, PartialEq, Eq)]
pub struct PlacedCommand {
    pub at: u64,
    pub command: Command,
}

/// Why no further command is returned.
#[derive(Clone, Copy, Debug, PartialEq, Eq)]
pub enum FeedStop {
    /// The job is refused at this offset.
    Job { offset: u64, cause: JobStop },
    /// A read failed.
    Read,
}

/// The commands of a job that a source gives. A job has at most `most` bytes.
#[derive(Drop)]
pub struct JobFeed {
    unread: Unread,
    reader: JobReader,
    // How many bytes the reader used.
    fed: u64,
    most: u64,
    ghost fed_is: { fed ≡ fed_of reader },
    ghost within: { fed ≤ most },
    ghost bounded: { most < 2 ^ 63 },
}

// The first `count` bytes, or all where there are fewer.
fn first_bytes(bytes: &[u8], count: u64) -> &[u8]
    ensures { result.now ≡ take count bytes.now }
{
    if count < bytes.len() as u64 {
        &bytes[..count as usize]
    } else {
        bytes
    }
}

impl JobFeed {
    ghost use Rattle.escp2_reader.specs.Feeding.{HasEnded, IsBetween, IsStopped, TakesCommand, at_of, heard_of, most_of};
    ghost use Rattle.escp2_reader.specs.Feeding.{text_of, unread_of};
    ghost use Rattle.escp2_reader.specs.Pieces.{FeedsSome};

    /// A feed of a job from its first byte on. `make` allocates the memory of the reader and of a buffer. No other call
    /// allocates memory.
    pub fn make(alloc: Global, most: u64) -> Result<JobFeed, Memory>
        requires { most < 2 ^ 63 }
        ensures between { IfOk result IsBetween }
        ensures at { IfOk result (λ feed. at_of feed ≡ 0) }
        ensures most { IfOk result (λ feed. most_of feed ≡ most) }
        ensures unread { IfOk result (λ feed. unread_of feed ≡ []) }
    {
        Ok(JobFeed {
            unread: Unread::make(alloc)?,
            reader: JobReader::make(alloc)?,
            fed: 0,
            most,
        })
    }

    /// The next command, or `None` at the end of the job. After a raster `rows` has its rows.
    pub fn next<S: Source>(&mut self, source: &mut S) -> Result<Option<PlacedCommand>, FeedStop>
        requires { IsBetween self.old }
        ensures command { IfOk result (λ o. IfSome o (λ placed.
            TakesCommand self.old self.new (text_of self.old (S.left source.old))
            (text_of self.new (S.left source.new)) placed)) }
        ensures end { IfOk result
            (λ o. IfNone o (HasEnded (text_of self.old (S.left source.old)) (text_of self.new (S.left source.new)))) }
        ensures stop { IfErr result
            (IsStopped self.old (text_of self.old (S.left source.old)) (text_of self.new (S.left source.new))
            (S.faults source.old) (S.faults source.new)) }
        ensures all_used { IsErrOf result FeedStop.Read → unread_of self.new ≡ [] }
        ensures later { S.faults source.old ≤ S.faults source.new }
    {
        let at = self.fed;
        'pieces: loop {
            self.unread.fill(source, 1)?;
            if self.unread.bytes().is_empty() {
                return self.end();
            }
            if self.fed == self.most {
                return Err(FeedStop::Job {
                    offset: self.most,
                    cause: JobStop::TooLong,
                });
            }
            match self.feed_piece() {
                HeardState::More => {}
                HeardState::One(command) => return Ok(Some(PlacedCommand { at, command })),
                HeardState::Fault { offset, cause } => {
                    return Err(FeedStop::Job {
                        offset,
                        cause: JobStop::Reader(cause),
                    });
                }
            }
        }
    }

    /// The rows of the raster that `next` just returned, the top row first, packed and not coded. Empty if `next`
    /// returned no raster.
    pub fn rows(&self) -> &[u8]
        ensures { result.now ≡ heard_of self.now }
    {
        self.reader.rows()
    }

    // Feeds the reader the unread bytes, as far as the job may have them.
    fn feed_piece(&mut self) -> HeardState
        requires some { 1 ≤ length self.old.unread }
        requires room { self.old.fed < self.old.most }
        requires is_open { is_failed_of self.old.reader ≡ false }
        ensures most { self.new.most ≡ self.old.most }
        ensures fed { FeedsSome self.old self.new result }
    {
        let piece = first_bytes(self.unread.bytes(), self.most - self.fed);
        let heard = self.reader.feed(piece);
        self.unread.use_up(heard.used);
        self.fed += heard.used as u64;
        heard.state
    }

    // The answer at the end of the source.
    fn end(&self) -> Result<Option<PlacedCommand>, FeedStop>
        requires { is_failed_of self.now.reader ≡ false }
        ensures none { IfOk result (λ o. o ≡ None) }
        ensures whole { IsOk result → (sofar : List ℕ) → StandsFor self.now.reader sofar → sofar ≡ [] }
        ensures cut { IfErr result (λ stop. (stop ≡ FeedStop.Job (begin_of self.now.reader) JobStop.Cut)
            × ((sofar : List ℕ) → StandsFor self.now.reader sofar → (sofar ≡ [] → ⊥))) }
    {
        match self.reader.end() {
            Ok(()) => Ok(None),
            Err(cut) => Err(FeedStop::Job {
                offset: cut.offset,
                cause: JobStop::Cut,
            }),
        }
    }
}

impl From<Failed> for FeedStop {
    ghost from_gives = { λ _ stop. stop ≡ FeedStop.Read };

    fn from(_failed: Failed) -> FeedStop {
        FeedStop::Read
    }
}
