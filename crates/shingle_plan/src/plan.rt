//! A plan of shingled passes: which row a nozzle fires in a pass, and at which columns.
ghost use Rattle.base_definitions.specs.Limits.{most_rows};
ghost use Rattle.shingle_plan.specs.Fits.{Shingles};
ghost use Rattle.shingle_plan.specs.Shingles.{fires_even, half, rows_above, shingle_count, shingle_row};
ghost use Rattle.std.specs.Prelude.{◌*◌, ◌<◌, ◌≡◌, ◌≤◌};

use std::marker::Model;

/// The shingled passes of a head over a window. After each pass the head moves down by as many rows as half its
/// nozzles, so its nozzles, which are `pitch` rows apart, fire each row exactly twice.
#[derive(Drop)]
pub struct ShinglePlan {
    nozzles: u8,
    pitch: u8,
    height: u32,
}

impl Model for ShinglePlan {
    ghost use Rattle.shingle_plan.specs.Fits.{IsShinglePlan, Shingling};

    ghost Value = { Shingling };

    ghost view = { λ p. record { nozzles = p.nozzles; pitch = p.pitch; height = p.height } };

    ghost invariant = { λ p. IsShinglePlan p.nozzles p.pitch p.height };
}

impl ShinglePlan {
    /// A plan for a head of `nozzles` nozzles that are `pitch` rows apart, over a window of `height` rows: at most 22
    /// inches at 720 rows an inch. The head must pass `shingle_fits`.
    pub fn make(nozzles: u8, pitch: u8, height: u32) -> ShinglePlan
        requires fits { Shingles nozzles pitch }
        requires some_rows { 1 ≤ height }
        requires most_rows { height ≤ most_rows }
        ensures { result ≡ record { nozzles = nozzles; pitch = pitch; height = height } }
    {
        ShinglePlan {
            nozzles,
            pitch,
            height,
        }
    }

    /// How many passes the window takes.
    pub fn passes(&self) -> u32
        ensures { result ≡ shingle_count self.now.nozzles self.now.pitch self.now.height }
    {
        let half = u32::from(self.nozzles / 2);
        (self.height + self.above() + (half - 1)) / half
    }

    /// How many rows above the window the head's first nozzle begins.
    pub fn above(&self) -> u32
        ensures { result ≡ rows_above self.now.nozzles self.now.pitch }
    {
        (2 * u32::from(self.nozzles / 2) - 1) * u32::from(self.pitch)
    }

    /// The row of the first nozzle in a pass, counted from its row in the first pass.
    pub fn first_row(&self, pass: u32) -> u32
        requires { pass < shingle_count self.now.nozzles self.now.pitch self.now.height }
        ensures { result ≡ pass * half self.now.nozzles }
    {
        pass * u32::from(self.nozzles / 2)
    }

    /// The row of the window that a nozzle fires in a pass, counted from the top. `None` if the nozzle is above the
    /// window or below it, and for the last of an odd number of nozzles.
    pub fn row(&self, pass: u32, nozzle: u8) -> Option<u32>
        requires pass { pass < shingle_count self.now.nozzles self.now.pitch self.now.height }
        requires nozzle { nozzle < self.now.nozzles }
        ensures { result ≡ shingle_row self.now.nozzles self.now.pitch self.now.height pass nozzle }
    {
        let half = self.nozzles / 2;
        let place = pass * u32::from(half) + u32::from(nozzle) * u32::from(self.pitch);
        let above = self.above();
        if nozzle < 2 * half && above <= place && place - above < self.height {
            Some(place - above)
        } else {
            None
        }
    }

    /// Whether a nozzle fires the even columns of its rows, counted from 0. If not, it fires the odd ones.
    pub fn fires_even(&self, nozzle: u8) -> bool
        ensures { result ≡ fires_even self.now.nozzles nozzle }
    {
        nozzle >= self.nozzles / 2
    }
}
