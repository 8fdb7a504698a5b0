//! Why there is no profile.
ghost use Rattle.job_profile.specs.declared.stops.ProfileCause.TheVariants as cause;
ghost use Rattle.job_profile.specs.declared.stops.ProfileStop.TheVariants as stop;
ghost use Rattle.std.specs.Prelude.{◌≡◌};

use dead_nozzles::DeadFault;
use printer_profile::{ProfileFault, TextCause, TextFault};
use weave_base::ShelfStop;

/// Why a profile is refused.
#[derive(Clone, Copy, Debug, PartialEq, Eq)]
pub enum ProfileCause {
    /// The name is not that of a built-in profile, and the shelf has no text of this name.
    Absent,
    /// Its text is longer than 65,536 bytes.
    TooLong,
    /// Its text is refused.
    Text(TextCause),
    /// Its text is read, but the profile makes no sense.
    Check(ProfileFault),
    /// A list of dead nozzles does not fit the head of the profile. `find_profile` does not return this cause.
    Dead(DeadFault),
    /// Its passes cannot be shingled: half of its nozzles, rounded down, is 0 or has a common divisor with the pitch.
    /// `gcd` is their greatest common divisor. `find_profile` does not return this cause.
    NoShingle { half: u8, gcd: u8 },
}

/// Why there is no profile.
#[derive(Clone, Copy, Debug, PartialEq, Eq)]
pub enum ProfileStop {
    /// The profile is refused at this line of its text. Line 0 stands for the text as a whole.
    Refused { line: u32, cause: ProfileCause },
    /// The shelf failed.
    Failed,
    /// Memory ran out.
    Memory,
}

impl From<ProfileCause> for ProfileStop {
    ghost from_gives = { λ why e. e ≡ stop.Refused 0 why };

    fn from(cause: ProfileCause) -> ProfileStop {
        ProfileStop::Refused { line: 0, cause }
    }
}

impl From<TextFault> for ProfileStop {
    ghost from_gives = { λ fault e. e ≡ stop.Refused fault.line (cause.Text fault.cause) };

    fn from(fault: TextFault) -> ProfileStop {
        ProfileStop::Refused {
            line: fault.line,
            cause: ProfileCause::Text(fault.cause),
        }
    }
}

impl From<ProfileFault> for ProfileStop {
    ghost from_gives = { λ fault e. e ≡ stop.Refused 0 (cause.Check fault) };

    fn from(fault: ProfileFault) -> ProfileStop {
        ProfileStop::from(ProfileCause::Check(fault))
    }
}

impl From<ShelfStop> for ProfileStop {
    ghost use Rattle.job_profile.specs.Stops.{stop_of};

    ghost from_gives = { λ why e. e ≡ stop_of why };

    fn from(stop: ShelfStop) -> ProfileStop {
        match stop {
            ShelfStop::Failed => ProfileStop::Failed,
            ShelfStop::Memory => ProfileStop::Memory,
        }
    }
}
