//! The result of a call as an answer, and back.
ghost use Rattle.driver_core.specs.Runs.Outcome.{answer_of};
ghost use Rattle.std.specs.Prelude.{◌≡◌};

use driver_answer::Answer;

/// The answer of a call: `Done` for `Ok`, else the answer in `Err`.
pub fn answer_to(worked: Result<(), Answer>) -> Answer
    ensures { result ≡ answer_of worked }
{
    match worked {
        Ok(()) => Answer::Done,
        Err(answer) => answer,
    }
}

/// The result for an answer: `Ok` for `Done`, `Err` for each other answer.
pub fn work_of(answer: Answer) -> Result<(), Answer>
    ensures { answer_of result ≡ answer }
{
    match answer {
        Answer::Done => Ok(()),
        stop => Err(stop),
    }
}
