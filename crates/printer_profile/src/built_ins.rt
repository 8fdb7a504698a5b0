//! The built-in profiles.
ghost use Rattle.printer_profile.specs.Profiles.{built_in as built_in_of};
ghost use Rattle.std.specs.Prelude.{◌≡◌};

use crate::fields::{Profile, UNSAID};
use printer_definitions::InkSet;

/// `tiny1`: 360 dots an inch, one nozzle, black, no margins.
pub const TINY1: Profile = Profile {
    hdpi: 360,
    vdpi: 360,
    nozzles: 1,
    pitch: 1,
    ..UNSAID
};

/// `tiny`: three nozzles two rows apart, and a top margin of four rows.
pub const TINY: Profile = Profile {
    nozzles: 3,
    pitch: 2,
    top: 4,
    ..TINY1
};

const P360K: Profile = Profile {
    nozzles: 31,
    pitch: 4,
    left: 45,
    right: 45,
    top: 120,
    bottom: 60,
    ..TINY1
};

const P360CMYK: Profile = Profile {
    nozzles: 15,
    pitch: 4,
    inks: InkSet::Cmyk,
    left: 45,
    right: 45,
    top: 60,
    bottom: 60,
    ..TINY1
};

pub(crate) const P720CMYK: Profile = Profile {
    hdpi: 720,
    vdpi: 720,
    nozzles: 31,
    pitch: 8,
    inks: InkSet::Cmyk,
    black_start: 64,
    limits: [255, 224, 224, 224],
    left: 90,
    right: 90,
    top: 240,
    bottom: 120,
    ..UNSAID
};

/// The built-in profile with this name.
pub fn built_in(name: &str) -> Option<Profile>
    ensures { result ≡ built_in_of name.now }
{
    match name {
        "tiny1" => Some(TINY1),
        "tiny" => Some(TINY),
        "p360k" => Some(P360K),
        "p360cmyk" => Some(P360CMYK),
        "p720cmyk" => Some(P720CMYK),
        _ => None,
    }
}
