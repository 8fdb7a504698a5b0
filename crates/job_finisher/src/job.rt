//! Finishing a job.
ghost use Rattle.buffered_bytes.specs.Outside.{outside_of};
ghost use Rattle.job_finisher.specs.Job.{IsPieceEnd, PassResult, is_write_failure};
ghost use Rattle.job_finisher.specs.Outcome.{FinishResult};
ghost use Rattle.job_finisher.specs.Passing.{Passed};
ghost use Rattle.job_finisher.specs.declared.job.FinishStop.TheVariants as FinishStop;
ghost use Rattle.std.specs.Prelude.{IsOk, List, [], length, take, ℕ, ◌++◌, ◌+◌, ◌<◌, ◌≡◌, ◌≤◌, ◌^◌};

use crate::finisher::{JobFinisher, PassStop};
use buffered_bytes::Unread;
use escp2_definitions::JobStop;
use std::alloc::Global;
use weave_base::{Failed, Memory, Sink, Source};

/// Why a job is not finished at the end of its source.
#[derive(Clone, Copy, Debug, PartialEq, Eq)]
pub enum FinishStop {
    /// The job is refused at this offset.
    Job { offset: u64, cause: JobStop },
    /// A read failed.
    Read,
    /// A write failed.
    Write,
    /// Memory ran out.
    Memory,
}

/// Passes on the whole commands of the job in `input`, which has at most `most` bytes, and then ends its page.
pub fn finish_job<S: Source, K: Sink>(
    alloc: Global,
    most: u64,
    input: &mut S,
    out: &mut K,
) -> Result<(), FinishStop>
    requires { most < 2 ^ 63 }
    ensures { FinishResult most
        (outside_of S.left S.faults input.old input.new)
        (outside_of K.held K.faults out.old out.new) result }
{
    let mut finisher = JobFinisher::make(alloc)?;
    let mut unread = Unread::make(alloc)?;
    let answer = pass_job(&mut finisher, &mut unread, most, input, out);
    if is_write_failure(&answer) {
        return answer;
    }
    finisher.end(out)?;
    answer
}

// Whether a write failed.
fn is_write_failure(answer: &Result<(), FinishStop>) -> bool
    ensures { result ≡ is_write_failure answer.now }
{
    matches!(answer, Err(FinishStop::Write))
}

// Passes on the whole commands of a job.
fn pass_job<S: Source, K: Sink>(
    finisher: &mut JobFinisher,
    unread: &mut Unread,
    most: u64,
    input: &mut S,
    out: &mut K,
) -> Result<(), FinishStop>
    requires most { most < 2 ^ 63 }
    requires anew { Passed finisher.old [] }
    requires empty { unread.old ≡ [] }
    ensures passes { PassResult most finisher.new
        (outside_of S.left S.faults input.old input.new)
        (outside_of K.held K.faults out.old out.new) result }
    ensures later { K.faults out.old ≤ K.faults out.new }
{
    let mut fed = 0;
    'reads: loop {
        let count = match unread.more(input) {
            Ok(0) => return Ok(()),
            Ok(count) => count,
            Err(_failed) => return Err(FinishStop::Read),
        };
        pass_piece(finisher, unread.bytes(), fed, most, out)?;
        unread.use_up(count);
        fed += count as u64;
    }
}

// Passes on a piece of a job after `fed` bytes, as far as the job may have them.
fn pass_piece<K: Sink>(
    finisher: &mut JobFinisher,
    piece: &[u8],
    fed: u64,
    most: u64,
    out: &mut K,
) -> Result<(), FinishStop>
    requires most { most < 2 ^ 63 }
    requires within { fed ≤ most }
    requires passed { (sofar : List ℕ) × Passed finisher.old sofar × (length sofar ≡ fed) }
    ensures within { IsOk result → fed + length piece.now ≤ most }
    ensures end { (sofar : List ℕ) → Passed finisher.old sofar → length sofar ≡ fed
        → IsPieceEnd most finisher.new (outside_of K.held K.faults out.old out.new) sofar piece.now result }
    ensures later { K.faults out.old ≤ K.faults out.new }
{
    let room = most - fed;
    finisher.pass(first_bytes(piece, room), out)?;
    if room < piece.len() as u64 {
        return Err(FinishStop::Job {
            offset: most,
            cause: JobStop::TooLong,
        });
    }
    Ok(())
}

// The first `count` bytes, or all if there are fewer.
fn first_bytes(bytes: &[u8], count: u64) -> &[u8]
    ensures { result.now ≡ take count bytes.now }
{
    if count < bytes.len() as u64 {
        &bytes[..count as usize]
    } else {
        bytes
    }
}

impl From<PassStop> for FinishStop {
    ghost use Rattle.job_finisher.specs.Job.{pass_stop};

    ghost from_gives = { λ why stop. stop ≡ pass_stop why };

    fn from(stop: PassStop) -> FinishStop {
        match stop {
            PassStop::Fault { offset, cause } => FinishStop::Job {
                offset,
                cause: JobStop::Reader(cause),
            },
            PassStop::Write => FinishStop::Write,
        }
    }
}

impl From<Failed> for FinishStop {
    ghost from_gives = { λ _ stop. stop ≡ FinishStop.Write };

    fn from(_failed: Failed) -> FinishStop {
        FinishStop::Write
    }
}

impl From<Memory> for FinishStop {
    ghost from_gives = { λ _ stop. stop ≡ FinishStop.Memory };

    fn from(_memory: Memory) -> FinishStop {
        FinishStop::Memory
    }
}
