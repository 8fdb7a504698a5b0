//! What a profile states about a printer, and what follows for its pages.
ghost use Rattle.separation_definitions.specs.Windows.{wanted_by, window_of};
ghost use Rattle.std.specs.Prelude.{◌≡◌, ◌<◌, [], IsOk, slice_index_or, true};
ghost use Rattle.pwg_definitions.specs.Header.{IsWanted};
ghost use Rattle.printer_definitions.specs.Printer.{tone_on as tone_of_curve};
ghost use Rattle.printer_profile.specs.Validity.{check, is_curve};

use printer_definitions::InkSet;
use pwg_definitions::{MOST_COLUMNS, MOST_ROWS, PageForm, Wanted};
use separation_definitions::Window;
use std::marker::Model;

/// A printer as a profile describes it. The fields are independent: `check` tests whether they make sense together.
#[derive(Clone, Copy, Debug, PartialEq, Eq)]
pub struct Profile {
    /// Dots an inch across the page.
    pub hdpi: u16,
    /// Rows of dots an inch down the page.
    pub vdpi: u16,
    /// Nozzles of each ink.
    pub nozzles: u8,
    /// Rows from one nozzle to the next.
    pub pitch: u8,
    pub inks: InkSet,
    /// The least darkness of a colour page that black takes over from the three colours.
    pub black_start: u8,
    /// The greatest amounts of black, cyan, magenta and yellow, 0 to 255.
    pub limits: [u8; 4],
    /// The tone curves of black, cyan, magenta and yellow: 17 points each, the tones of the amounts 0, 16, .. 256. No
    /// point is above 256.
    pub curves: [[u16; 17]; 4],
    /// The left margin, in pixels of the page, like the other three margins.
    pub left: u16,
    pub right: u16,
    pub top: u16,
    pub bottom: u16,
}

impl Model for Profile {
    ghost use Rattle.printer_definitions.specs.Printer.{Printer};
    ghost use Rattle.printer_profile.specs.Views.{HasPoints, fields_of, printer_in};

    ghost Value = { Printer };

    ghost view = { printer_in };

    ghost inverse = { fields_of };

    ghost invariant = { HasPoints };
}

/// The curve that leaves each amount as it is.
pub const STRAIGHT_CURVE: [u16; 17] = [
    0, 16, 32, 48, 64, 80, 96, 112, 128, 144, 160, 176, 192, 208, 224, 240, 256,
];

/// The values of the keys that a text does not give.
pub(crate) const UNSAID: Profile = Profile {
    hdpi: 0,
    vdpi: 0,
    nozzles: 0,
    pitch: 0,
    inks: InkSet::K,
    black_start: 0,
    limits: [255; 4],
    curves: [STRAIGHT_CURVE; 4],
    left: 0,
    right: 0,
    top: 0,
    bottom: 0,
};

// The tone of an amount by a curve that does not fall.
fn tone_on(curve: &[u16; 17], a: u8) -> u8
    requires { is_curve curve.now ≡ true }
    ensures { result ≡ tone_of_curve curve.now a }
{
    let place = usize::from(a / 16);
    let before = u32::from(curve[place]);
    let behind = u32::from(curve[place + 1]);
    let tone = before + (behind - before) * u32::from(a % 16) / 16;
    tone.min(255) as u8
}

impl Profile {
    /// The tone of an amount of an ink: a point on the straight line between two points of the ink's curve, rounded
    /// down. Inks count from 0 in the order black, cyan, magenta and yellow.
    pub fn tone(&self, ink: u8, a: u8) -> u8
        requires ink { ink < 4 }
        requires checked { IsOk (check self.now) }
        ensures { result ≡ tone_of_curve (slice_index_or self.now.curves ink []) a }
    {
        tone_on(&self.curves[usize::from(ink)], a)
    }

    /// The pages that the printer accepts: of its resolution, and with sizes in pixels that leave at least one pixel
    /// inside the margins.
    pub fn wanted(&self) -> Wanted
        ensures { result ≡ wanted_by self.now }
    {
        Wanted {
            hdpi: u32::from(self.hdpi),
            vdpi: u32::from(self.vdpi),
            least_width: u32::from(self.left) + u32::from(self.right) + 1,
            most_width: MOST_COLUMNS,
            least_height: u32::from(self.top) + u32::from(self.bottom) + 1,
            most_height: MOST_ROWS * u32::from(self.vdpi) / 720,
        }
    }

    /// The part of a page inside the margins, in pixels.
    pub fn window(&self, f: PageForm) -> Window
        requires { IsWanted (wanted_by self.now) f }
        ensures { result ≡ window_of f self.now }
    {
        let left = u32::from(self.left);
        let top = u32::from(self.top);
        Window {
            left,
            top,
            width: f.width - (left + u32::from(self.right)),
            height: f.height - (top + u32::from(self.bottom)),
        }
    }
}
