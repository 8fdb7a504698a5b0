//! A kind of meter that the driver does not know.
ghost use Rattle.ink_meter.specs.Accounts.{Account};
ghost use Rattle.std.specs.Prelude.{◌+◌, ◌<◌, ◌^◌, ◌≡◌};

use ink_meter::{InkCounts, Meter};
use std::marker::Model;

/// A meter that keeps black apart from the colours.
#[derive(Drop)]
pub struct Card {
    black: u64,
    colours: (u64, u64, u64),
    cap: u64,
}

impl Model for Card {
    ghost Value = { Account };

    ghost view = { λ card. record {
      totals = record { k = card.black; c = card.colours.0; m = card.colours.1; y = card.colours.2 };
      cap = card.cap;
    } };

    ghost invariant = { λ card. card.black + card.colours.0 + card.colours.1 + card.colours.2 < 2 ^ 64 };
}

impl Card {
    /// A card that has counted nothing, with this cap.
    pub fn make(cap: u64) -> Card
        ensures { result ≡ record { totals = record { k = 0; c = 0; m = 0; y = 0 }; cap = cap } }
    {
        Card {
            black: 0,
            colours: (0, 0, 0),
            cap,
        }
    }
}

impl Meter for Card {
    ghost account = { λ card. card };

    fn room(&self, dots: &InkCounts) -> bool {
        let (c, m, y) = self.colours;
        let spent = u128::from(self.black + c + m + y);
        let wanted = u128::from(dots.k)
            + u128::from(dots.c)
            + u128::from(dots.m)
            + u128::from(dots.y);
        spent + wanted <= u128::from(self.cap)
    }

    fn add(&mut self, dots: &InkCounts) {
        let (c, m, y) = self.colours;
        self.black += dots.k;
        self.colours = (c + dots.c, m + dots.m, y + dots.y);
    }

    fn set_cap(&mut self, cap: u64) {
        self.cap = cap;
    }

    fn total(&self) -> InkCounts {
        let (c, m, y) = self.colours;
        InkCounts {
            k: self.black,
            c,
            m,
            y,
        }
    }

    fn cap(&self) -> u64 {
        self.cap
    }
}
