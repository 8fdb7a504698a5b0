//! A head with dead nozzles, over a window.
ghost use Rattle.base_definitions.specs.Limits.{most_rows};
ghost use Rattle.dead_nozzles.specs.Dead.{IsRising, checked, has, least_live};
ghost use Rattle.dead_nozzles.specs.Plans.{IsWorn};
ghost use Rattle.dead_nozzles.specs.Strokes.{Head, IsHead, head_span, row_under};
ghost use Rattle.std.specs.Prelude.{Ok, Some, false, slice_index_or, true, ℕ, ◌*◌, ◌+◌, ◌/◌, ◌<◌, ◌≡◌, ◌≢◌, ◌≤◌};

use std::marker::Model;

// The nozzles of a list, by a table that says of each number whether it is in the list.
fn table_of(dead: &[u8]) -> [bool; 256]
    ensures { (nozzle : ℕ) → nozzle < 256 → slice_index_or result nozzle false ≡ has dead.now nozzle }
{
    let mut table = [false; 256];
    'dead: for nozzle in dead {
        table[usize::from(*nozzle)] = true;
    }
    table
}

/// A head over a window, with a table of its dead nozzles.
#[derive(Drop)]
pub(crate) struct WornHead {
    nozzles: u8,
    pitch: u8,
    height: u32,
    dead: [bool; 256],
}

impl Model for WornHead {
    ghost use Rattle.dead_nozzles.specs.Plans.{IsWorn, listed};
    ghost use Rattle.dead_nozzles.specs.Strokes.{Head};

    ghost Value = { Head };

    ghost view = { λ w.
        record { nozzles = w.nozzles; pitch = w.pitch; height = w.height; dead = listed w.dead w.nozzles } };

    ghost invariant = { λ w. IsWorn w.nozzles w.pitch w.height };
}

impl WornHead {
    pub(crate) fn make(nozzles: u8, pitch: u8, height: u32, dead: &[u8]) -> WornHead
        requires some_nozzles { 1 ≤ nozzles }
        requires some_pitch { 1 ≤ pitch }
        requires most_rows { height ≤ most_rows }
        requires rising { IsRising dead.now }
        requires checked { checked nozzles dead.now ≡ Ok tt }
        ensures { result ≡ record { nozzles = nozzles; pitch = pitch; height = height; dead = dead.now } }
    {
        WornHead {
            nozzles,
            pitch,
            height,
            dead: table_of(dead),
        }
    }

    pub(crate) fn nozzles(&self) -> u8
        ensures { result ≡ self.now.nozzles }
    {
        self.nozzles
    }

    pub(crate) fn pitch(&self) -> u8
        ensures { result ≡ self.now.pitch }
    {
        self.pitch
    }

    pub(crate) fn height(&self) -> u32
        ensures is { result ≡ self.now.height }
        ensures most { result ≤ most_rows }
    {
        self.height
    }

    /// How many rows the last nozzle is below the first.
    pub(crate) fn head_rows(&self) -> u32
        ensures is { result ≡ head_span self.now }
        ensures most { result ≤ 64770 }
        ensures worn { IsWorn self.now.nozzles self.now.pitch self.now.height }
    {
        (u32::from(self.nozzles) - 1) * u32::from(self.pitch)
    }

    pub(crate) fn is_dead(&self, nozzle: u8) -> bool
        requires { nozzle < self.now.nozzles }
        ensures { result ≡ has self.now.dead nozzle }
    {
        self.dead[usize::from(nozzle)]
    }

    /// The least nozzle that is not dead.
    pub(crate) fn least_live(&self) -> u8
        requires { IsHead self.now }
        ensures { Some result ≡ least_live self.now.nozzles self.now.dead }
    {
        for nozzle in 0..self.nozzles {
            if !self.dead[usize::from(nozzle)] {
                return nozzle;
            }
        }
        unreachable!()
    }

    /// Whether a pass of the weave starts here.
    pub(crate) fn begins_pass(&self, start: u32) -> bool
        ensures yes { result ≡ true → start ≡ start / self.now.nozzles * self.now.nozzles }
        ensures no { result ≡ false → (pass : ℕ) → start ≢ pass * self.now.nozzles }
    {
        start % u32::from(self.nozzles) == 0
    }

    /// The row of the window under a nozzle of a stroke.
    pub(crate) fn row_under(&self, start: u32, nozzle: u8) -> Option<u32>
        requires start { start < head_span self.now + self.now.height }
        requires nozzle { nozzle < self.now.nozzles }
        ensures { result ≡ row_under self.now start nozzle }
    {
        let place = start + u32::from(nozzle) * u32::from(self.pitch);
        let first = self.head_rows();
        if first <= place && place - first < self.height {
            Some(place - first)
        } else {
            None
        }
    }
}
