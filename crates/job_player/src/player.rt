//! Playing a job.
ghost use Rattle.job_player.specs.Outcome.{PlayResult};
ghost use Rattle.job_player.specs.Stops.{emulator_stop};
ghost use Rattle.job_player.specs.declared.player.PlayStop.TheVariants as PlayStop;
ghost use Rattle.buffered_bytes.specs.Outside.{outside_of};
ghost use Rattle.printer_profile.specs.Validity.{check};
ghost use Rattle.std.specs.Prelude.{IsOk, ◌<◌, ◌≡◌, ◌^◌};

use crate::sheets::write_sheet;
use dot_emulator::{Emulator, EmulatorStop};
use escp2_definitions::JobStop;
use escp2_reader::{FeedStop, JobFeed};
use printer_profile::Profile;
use std::alloc::Global;
use weave_base::{Memory, Sink, Source};

/// Why a job was not played to its end.
#[derive(Clone, Copy, Debug, PartialEq, Eq)]
pub enum PlayStop {
    /// The job is refused at this offset.
    Job { offset: u64, cause: JobStop },
    /// A read failed.
    Read,
    /// A write failed in the images of this sheet. Sheets are counted from 1, up to the last value of 32 bits.
    Write { sheet: u32 },
    /// Memory ran out.
    Memory,
}

/// Runs the job in the input on a printer, and writes the four images of each sheet when the sheet is ejected. Reads at
/// most `most` bytes of the job.
pub fn play_job<S: Source, K: Sink>(
    alloc: Global,
    profile: &Profile,
    most: u64,
    input: &mut S,
    out: &mut K,
) -> Result<(), PlayStop>
    requires checked { IsOk (check profile.now) }
    requires most { most < 2 ^ 63 }
    ensures { PlayResult profile.now most
        (outside_of S.left S.faults input.old input.new)
        (outside_of K.held K.faults out.old out.new) result }
{
    let mut feed = JobFeed::make(alloc, most)?;
    let mut emulator = Emulator::make(alloc, profile);
    let mut sheets = 0u32;
    'commands: loop {
        let Some(placed) = feed.next(input)? else {
            return Ok(());
        };
        let is_blank = !emulator.has_dots();
        let given = match emulator.run(&placed.command, feed.rows()) {
            Ok(given) => given,
            Err(stop) => return Err(refused_at(placed.at, stop)),
        };
        let Some(sheet) = given else {
            continue 'commands;
        };
        sheets = sheets.saturating_add(1);
        match write_sheet(&sheet, out) {
            Ok(()) => {}
            Err(_) => return Err(PlayStop::Write { sheet: sheets }),
        }
        if is_blank {
            emulator.keep(sheet);
        }
    }
}

// Why playing stops at a command that the emulator does not run.
fn refused_at(at: u64, stop: EmulatorStop) -> PlayStop
    ensures { result ≡ emulator_stop at stop }
{
    match stop {
        EmulatorStop::Refused(fault) => PlayStop::Job {
            offset: at,
            cause: JobStop::Machine(fault),
        },
        EmulatorStop::Memory => PlayStop::Memory,
    }
}

impl From<FeedStop> for PlayStop {
    ghost use Rattle.job_player.specs.Stops.{feed_stop};

    ghost from_gives = { λ why stop. stop ≡ feed_stop why };

    fn from(stop: FeedStop) -> PlayStop {
        match stop {
            FeedStop::Job { offset, cause } => PlayStop::Job { offset, cause },
            FeedStop::Read => PlayStop::Read,
        }
    }
}

impl From<Memory> for PlayStop {
    ghost from_gives = { λ _ stop. stop ≡ PlayStop.Memory };

    fn from(_memory: Memory) -> PlayStop {
        PlayStop::Memory
    }
}
