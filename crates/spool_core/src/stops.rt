//! The answers to a run that does not print.
ghost use Rattle.spool_core.specs.declared.answer.SpoolAnswer.TheVariants as answer;
ghost use Rattle.std.specs.Prelude.{◌≡◌};

use crate::answer::SpoolAnswer;
use job_profile::ProfileStop;
use spool_words::SpoolFault;

impl From<SpoolFault> for SpoolAnswer {
    ghost from_gives = { λ fault a. a ≡ answer.Usage fault };

    fn from(fault: SpoolFault) -> SpoolAnswer {
        SpoolAnswer::Usage(fault)
    }
}

impl From<ProfileStop> for SpoolAnswer {
    ghost use Rattle.spool_core.specs.Stops.{profile_answer};

    ghost from_gives = { λ stop a. a ≡ profile_answer stop };

    fn from(stop: ProfileStop) -> SpoolAnswer {
        match stop {
            ProfileStop::Refused { line, cause } => SpoolAnswer::Profile { line, cause },
            ProfileStop::Failed => SpoolAnswer::Read,
            ProfileStop::Memory => SpoolAnswer::Memory,
        }
    }
}
