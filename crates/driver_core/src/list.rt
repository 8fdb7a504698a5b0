//! The command `list`.
ghost use Rattle.driver_core.specs.Listing.Outcome.{ListOutcome};
ghost use Rattle.driver_core.specs.Outside.{outside_of};
ghost use Rattle.driver_core.specs.Runs.Outcome.{answer_of};
ghost use Rattle.std.specs.Prelude.{◌<◌, ◌^◌};

use driver_answer::Answer;
use job_lister::{ListStop, list_job};
use std::alloc::Global;
use weave_base::{Sink, Source};

/// Lists the commands of the job in the input. `Err` has the answer if the listing stops.
pub fn list<S: Source, K: Sink>(
    alloc: Global,
    most: u64,
    input: &mut S,
    out: &mut K,
) -> Result<(), Answer>
    requires { most < 2 ^ 63 }
    ensures { ListOutcome most
        (outside_of S.left S.faults input.old input.new)
        (outside_of K.held K.faults out.old out.new) (answer_of result) }
{
    match list_job(alloc, most, input, out) {
        Ok(()) => Ok(()),
        Err(ListStop::Job { offset, cause }) => Err(Answer::Job { offset, cause }),
        Err(ListStop::Read) => Err(Answer::Read),
        Err(ListStop::Write) => Err(Answer::Write { page: 0 }),
        Err(ListStop::Memory) => Err(Answer::Memory),
    }
}
