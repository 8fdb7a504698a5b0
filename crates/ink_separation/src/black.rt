//! Black generation.
ghost use Rattle.printer_profile.specs.Validity.{check};
ghost use Rattle.separation_definitions.specs.Amounts.{moved_to_black};
ghost use Rattle.std.specs.Prelude.{IsOk, slice_index, ℕ, ◌<◌, ◌≡◌};

use crate::pixels::{PIXELS, Values, high_of};
use printer_profile::Profile;
use std::marker::Model;

/// The black generation of a profile, worked out once for many lines. Contracts see the least darkness from which
/// black takes over.
#[derive(Drop)]
pub struct BlackScale {
    least: u8,
    // What black takes over for each step above the least darkness: the whole part, and the rest in parts of 2^16, with
    // one part more.
    whole: u16,
    rest: u16,
}

impl Model for BlackScale {
    ghost use Rattle.std.specs.Prelude.{ℕ};

    ghost Value = { ℕ };

    ghost use Rattle.ink_separation.specs.Black.{IsMade, least_in};

    ghost view = { least_in };

    ghost invariant = { IsMade };
}

impl BlackScale {
    /// The black generation of a profile.
    pub fn make(p: &Profile) -> BlackScale
        requires { IsOk (check p.now) }
        ensures { result ≡ p.now.black_start }
    {
        BlackScale::above(p.black_start)
    }

    // The black generation above a darkness.
    fn above(least: u8) -> BlackScale
        requires { least < 255 }
        ensures { result ≡ least }
    {
        let most = 255 - u32::from(least);
        BlackScale {
            least,
            whole: (255 / most) as u16,
            rest: (255 % most * 65_536 / most + 1) as u16,
        }
    }

    /// How much of a shared darkness black takes over.
    #[inline(always)]
    pub(crate) fn black_at(&self, common: u8) -> u8
        ensures { result ≡ moved_to_black self.now common }
    {
        let above = u16::from(common.saturating_sub(self.least));
        // The minimum changes nothing, and keeps the vectors in lanes of 16 bits.
        (above * self.whole + high_of(above, self.rest)).min(255) as u8
    }

    /// How much of each shared darkness black takes over.
    #[inline(always)]
    pub(crate) fn black_of(&self, common: &Values) -> Values
        ensures { (x : ℕ) → x < 64 → slice_index result x ≡ moved_to_black self.now (slice_index common.now x) }
    {
        if self.least == 0 {
            return *common;
        }
        let mut black = [0; PIXELS];
        for x in 0..PIXELS {
            black[x] = self.black_at(common[x]);
        }
        black
    }
}
