//! Why a job is not passed on to the end of its input.
ghost use Rattle.finish_core.specs.Outcome.{answer_of};
ghost use Rattle.finish_core.specs.Passing.{ends_page};
ghost use Rattle.finish_core.specs.declared.halts.Halt.TheVariants as halt;
ghost use Rattle.std.specs.Prelude.{◌≡◌};

use driver_answer::{Answer, JobStop};
use weave_base::Memory;

/// Why a job is not passed on to the end of its input.
#[derive(Clone, Copy, Debug, PartialEq, Eq)]
pub enum Halt {
    /// The shelf has the text that stops the run.
    Asked,
    /// The shelf failed.
    Shelf,
    /// Memory ran out.
    Memory,
    /// A write failed, in this page.
    Write { page: u32 },
    /// The job is refused at this offset.
    Job { offset: u64, cause: JobStop },
    /// A read of the input failed.
    Read,
}

/// Whether the page of a job that was passed on so is to be ended.
pub fn ends_page(passed: &Result<(), Halt>) -> bool
    ensures { result ≡ ends_page passed.now }
{
    matches!(passed, Ok(()) | Err(Halt::Job { .. }) | Err(Halt::Read))
}

/// The answer of a run that passed on its job so.
pub fn answer_of(passed: Result<(), Halt>) -> Answer
    ensures { result ≡ answer_of passed }
{
    match passed {
        Ok(()) | Err(Halt::Asked) => Answer::Done,
        Err(Halt::Shelf | Halt::Read) => Answer::Read,
        Err(Halt::Memory) => Answer::Memory,
        Err(Halt::Write { page }) => Answer::Write { page },
        Err(Halt::Job { offset, cause }) => Answer::Job { offset, cause },
    }
}

impl From<Memory> for Halt {
    ghost from_gives = { λ _ why. why ≡ halt.Memory };

    fn from(_memory: Memory) -> Halt {
        Halt::Memory
    }
}
