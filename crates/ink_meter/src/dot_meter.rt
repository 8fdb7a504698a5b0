//! A meter that counts and does nothing else.
ghost use Rattle.ink_meter.specs.Accounts.{Account, all_inks};
ghost use Rattle.std.specs.Prelude.{◌-◌, ◌<◌, ◌^◌, ◌≡◌};

use crate::Meter;
use printer_definitions::InkCounts;
use std::marker::Model;

/// A meter that counts and does nothing else. Contracts see its totals and its cap.
#[derive(Drop)]
pub struct DotMeter {
    totals: InkCounts,
    cap: u64,
}

impl Model for DotMeter {
    ghost Value = { Account };

    ghost view = { λ meter. record { totals = meter.totals; cap = meter.cap } };

    ghost invariant = { λ meter. all_inks meter.totals < 2 ^ 64 };
}

impl DotMeter {
    /// A meter that has counted nothing, with the greatest cap: 2^64 - 1 dots.
    pub fn make() -> DotMeter
        ensures { result ≡ record { totals = record { k = 0; c = 0; m = 0; y = 0 }; cap = 2 ^ 64 - 1 } }
    {
        DotMeter {
            totals: InkCounts {
                k: 0,
                c: 0,
                m: 0,
                y: 0,
            },
            cap: u64::MAX,
        }
    }
}

// The dots of all inks.
fn all_dots(dots: &InkCounts) -> u128
    ensures sum { result ≡ all_inks dots.now }
    ensures bound { result < 2 ^ 66 }
{
    [dots.k, dots.c, dots.m, dots.y]
        .iter()
        .map(|&count| u128::from(count))
        .sum()
}

impl Meter for DotMeter {
    ghost account = { λ meter. meter };

    fn room(&self, dots: &InkCounts) -> bool {
        all_dots(&self.totals) + all_dots(dots) <= u128::from(self.cap)
    }

    fn add(&mut self, dots: &InkCounts) {
        self.totals.k += dots.k;
        self.totals.c += dots.c;
        self.totals.m += dots.m;
        self.totals.y += dots.y;
    }

    fn set_cap(&mut self, cap: u64) {
        self.cap = cap;
    }

    fn total(&self) -> InkCounts {
        self.totals
    }

    fn cap(&self) -> u64 {
        self.cap
    }
}
