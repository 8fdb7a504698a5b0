//! The answers to a job that did not begin: a refused word, or no profile.
ghost use Rattle.driver_answer.specs.declared.answer.Answer.TheVariants as answer;
ghost use Rattle.std.specs.Prelude.{◌≡◌};

use crate::answer::Answer;
use job_profile::ProfileStop;
use job_words::UsageFault;

impl From<UsageFault> for Answer {
    ghost from_gives = { λ fault a. a ≡ answer.Usage fault };

    fn from(fault: UsageFault) -> Answer {
        Answer::Usage(fault)
    }
}

impl From<ProfileStop> for Answer {
    ghost use Rattle.driver_answer.specs.Stops.{profile_answer};

    ghost from_gives = { λ stop a. a ≡ profile_answer stop };

    fn from(stop: ProfileStop) -> Answer {
        match stop {
            ProfileStop::Refused { line, cause } => Answer::Profile { line, cause },
            ProfileStop::Failed => Answer::Read,
            ProfileStop::Memory => Answer::Memory,
        }
    }
}
