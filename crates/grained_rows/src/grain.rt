//! The grain of a page's inks.
ghost use Rattle.grained_rows.specs.Grained.{grain_of};
ghost use Rattle.std.specs.Prelude.{◌≡◌};

use printer_definitions::InkSet;
use printer_profile::Profile;

/// The grain of a page, and the inks to which it is applied, with their limits.
#[derive(Clone, Copy, Debug, PartialEq, Eq)]
pub struct InkGrain {
    pub(crate) grain: u8,
    pub(crate) inks: InkSet,
    pub(crate) limits: [u8; 4],
}

impl InkGrain {
    /// The grain of a printer's inks.
    pub fn make(p: &Profile, grain: u8) -> InkGrain
        ensures { result ≡ grain_of p.now grain }
    {
        InkGrain {
            grain,
            inks: p.inks,
            limits: p.limits,
        }
    }
}
