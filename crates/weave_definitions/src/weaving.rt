//! A plan of passes, both ways: the row under a nozzle in a pass, and the pass and nozzle of a row.
ghost use Rattle.base_definitions.specs.Limits.{most_rows};
ghost use Rattle.weave_definitions.specs.Weave.{nozzle_row, pass_count};
ghost use Rattle.std.specs.Int.{IsGcd};
ghost use Rattle.std.specs.Prelude.{Some, ℕ, ◌*◌, ◌-◌, ◌<◌, ◌≡◌, ◌≤◌};

use crate::inverse::inverse_of;
use std::marker::Model;

/// A pass, and a nozzle of the head; both count from 0.
#[derive(Clone, Copy, PartialEq, Eq, Debug)]
pub struct PassPlace {
    pub pass: u32,
    pub nozzle: u8,
}

/// The interleaved passes of a head over a window. After each pass the head moves down by as many rows as it has
/// nozzles, so its nozzles, which are `pitch` rows apart, fire each row exactly once.
#[derive(Drop)]
pub struct Plan {
    nozzles: u8,
    pitch: u8,
    height: u32,
    inverse: u8,
}

impl Model for Plan {
    ghost use Rattle.weave_definitions.specs.Weaving.{IsPlan, Weaving};

    ghost Value = { Weaving };

    ghost view = { λ p. record { nozzles = p.nozzles; pitch = p.pitch; height = p.height } };

    ghost invariant = { λ p. IsPlan p.nozzles p.pitch p.height p.inverse };
}

impl Plan {
    /// A plan for a head of `nozzles` nozzles that are `pitch` rows apart, over a window of `height` rows: at most 22
    /// inches at 720 rows an inch.
    pub fn make(nozzles: u8, pitch: u8, height: u32) -> Plan
        requires some_nozzles { 1 ≤ nozzles }
        requires some_pitch { 1 ≤ pitch }
        requires coprime { IsGcd nozzles pitch 1 }
        requires some_rows { 1 ≤ height }
        requires most_rows { height ≤ most_rows }
        ensures { result ≡ record { nozzles = nozzles; pitch = pitch; height = height } }
    {
        let inverse = inverse_of(pitch, nozzles);
        Plan {
            nozzles,
            pitch,
            height,
            inverse,
        }
    }

    /// How many passes the window takes.
    pub fn passes(&self) -> u32
        ensures { result ≡ pass_count self.now.nozzles self.now.pitch self.now.height }
    {
        let nozzles = u32::from(self.nozzles);
        (self.height + self.head_rows() + (nozzles - 1)) / nozzles
    }

    /// The row of the first nozzle in a pass, counted from its row in the first pass.
    pub fn first_row(&self, pass: u32) -> u32
        requires { pass < pass_count self.now.nozzles self.now.pitch self.now.height }
        ensures { result ≡ pass * self.now.nozzles }
    {
        pass * u32::from(self.nozzles)
    }

    /// The row of the window under a nozzle in a pass, counted from the top, or `None` if the nozzle is above the
    /// window or below it.
    pub fn row(&self, pass: u32, nozzle: u8) -> Option<u32>
        requires pass { pass < pass_count self.now.nozzles self.now.pitch self.now.height }
        requires nozzle { nozzle < self.now.nozzles }
        ensures { result ≡ nozzle_row self.now.nozzles self.now.pitch self.now.height pass nozzle }
    {
        let place = pass * u32::from(self.nozzles) + u32::from(nozzle) * u32::from(self.pitch);
        let first = self.head_rows();
        if first <= place && place - first < self.height {
            Some(place - first)
        } else {
            None
        }
    }

    /// The only pass and nozzle that fire a row of the window.
    pub fn place_of(&self, row: u32) -> PassPlace
        requires { row < self.now.height }
        ensures pass { result.pass < pass_count self.now.nozzles self.now.pitch self.now.height }
        ensures nozzle { result.nozzle < self.now.nozzles }
        ensures fires { nozzle_row self.now.nozzles self.now.pitch self.now.height result.pass result.nozzle
            ≡ Some row }
        ensures only { (t i : ℕ) → i < self.now.nozzles
            → nozzle_row self.now.nozzles self.now.pitch self.now.height t i ≡ Some row
            → (t ≡ result.pass) × (i ≡ result.nozzle) }
    {
        let nozzles = u32::from(self.nozzles);
        let place = row + self.head_rows();
        let nozzle = place * u32::from(self.inverse) % nozzles;
        let pass = (place - nozzle * u32::from(self.pitch)) / nozzles;
        PassPlace {
            pass,
            nozzle: nozzle as u8,
        }
    }

    /// How many rows the last nozzle is below the first. The head begins this many rows above the window.
    pub fn head_rows(&self) -> u32
        ensures { result ≡ (self.now.nozzles - 1) * self.now.pitch }
    {
        (u32::from(self.nozzles) - 1) * u32::from(self.pitch)
    }
}
