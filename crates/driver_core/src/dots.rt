//! The command `dots`.
ghost use Rattle.driver_core.specs.Outside.{outside_of};
ghost use Rattle.driver_core.specs.Playing.Outcome.{PlayOutcome};
ghost use Rattle.driver_core.specs.Runs.Outcome.{answer_of};
ghost use Rattle.printer_profile.specs.Validity.{check};
ghost use Rattle.std.specs.Prelude.{IsOk, ◌<◌, ◌^◌};

use driver_answer::Answer;
use job_player::{PlayStop, play_job};
use printer_profile::Profile;
use std::alloc::Global;
use weave_base::{Sink, Source};

/// Runs the job in the input, and writes its sheets as images. `Err` has the answer if the job or a write stops the
/// command.
pub fn play<S: Source, K: Sink>(
    alloc: Global,
    profile: &Profile,
    most: u64,
    input: &mut S,
    out: &mut K,
) -> Result<(), Answer>
    requires checked { IsOk (check profile.now) }
    requires most { most < 2 ^ 63 }
    ensures { PlayOutcome profile.now most
        (outside_of S.left S.faults input.old input.new)
        (outside_of K.held K.faults out.old out.new) (answer_of result) }
{
    match play_job(alloc, profile, most, input, out) {
        Ok(()) => Ok(()),
        Err(PlayStop::Job { offset, cause }) => Err(Answer::Job { offset, cause }),
        Err(PlayStop::Read) => Err(Answer::Read),
        Err(PlayStop::Write { sheet }) => Err(Answer::Write { page: sheet }),
        Err(PlayStop::Memory) => Err(Answer::Memory),
    }
}
