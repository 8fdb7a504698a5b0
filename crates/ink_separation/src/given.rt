//! What pixels give to each ink, before the inks' limits.
ghost use Rattle.ink_separation.specs.Given.{colour_at, four_at, given_to};
ghost use Rattle.printer_definitions.specs.declared.inks.Ink.{Ink};
ghost use Rattle.separation_definitions.specs.Amounts.{cmyk_ink, colour_ink, complement as complement_of, grey_ink, own_ink};
ghost use Rattle.std.specs.Prelude.{length, min, slice_index, ℕ, ◌*◌, ◌+◌, ◌<◌, ◌≡◌, ◌≤◌};

use crate::black::BlackScale;
use crate::colours::{colours_of, complement};
use crate::pixels::{PIXELS, Values, darkness_of, least_of, less};
use crate::quarters::{byte_of, darkness_left, fours_of, more};
use printer_definitions::Ink;
use printer_profile::InkSet;

/// What up to 64 pixels give to each ink. An ink outside the printer's set may have any values.
#[derive(Drop)]
pub(crate) struct Given {
    black: Values,
    cyan: Values,
    magenta: Values,
    yellow: Values,
}

impl Given {
    /// What the pixels give to an ink.
    #[inline(always)]
    pub(crate) fn to(&self, ink: Ink) -> &Values
        ensures { result.now ≡ given_to self.now ink }
    {
        match ink {
            Ink::Black => &self.black,
            Ink::Cyan => &self.cyan,
            Ink::Magenta => &self.magenta,
            Ink::Yellow => &self.yellow,
        }
    }
}

/// What pixels of these darknesses give.
#[inline(always)]
pub(crate) fn grey_given(inks: InkSet, dark: Values) -> Given
    ensures { (ink : Ink) (x : ℕ)
        → x < 64 → slice_index (given_to result ink) x ≡ grey_ink inks ink (slice_index dark x) }
{
    match inks {
        InkSet::K | InkSet::Cmy => Given {
            black: dark,
            cyan: dark,
            magenta: dark,
            yellow: dark,
        },
        InkSet::Cmyk => Given {
            black: dark,
            cyan: [0; PIXELS],
            magenta: [0; PIXELS],
            yellow: [0; PIXELS],
        },
    }
}

/// What a pixel of full darkness gives to an ink.
#[inline(always)]
pub(crate) fn full_given(inks: InkSet, ink: Ink) -> u8
    ensures { result ≡ grey_ink inks ink 255 }
{
    match inks {
        InkSet::K | InkSet::Cmy => 255,
        InkSet::Cmyk => match ink {
            Ink::Black => 255,
            Ink::Cyan | Ink::Magenta | Ink::Yellow => 0,
        },
    }
}

/// What the first `many` pixels of red, green and blue give.
#[inline(always)]
pub(crate) fn colour_given(inks: InkSet, black: &BlackScale, pixels: &[u8], many: usize) -> Given
    requires many { many ≤ 64 }
    requires pixels { 3 * many ≤ length pixels.now }
    ensures { (least : ℕ) → black.now ≡ least → (ink : Ink) (x : ℕ) → x < many
        → slice_index (given_to result ink) x ≡ colour_ink inks least (colour_at pixels.now x) ink }
{
    match inks {
        InkSet::K => grey_given(inks, darkness_of(pixels, many)),
        InkSet::Cmy => complements_given(pixels, many),
        InkSet::Cmyk => {
            let wanted = complements_given(pixels, many);
            let common = least_of(&wanted.cyan, &wanted.magenta, &wanted.yellow);
            let black = black.black_of(&common);
            Given {
                black,
                cyan: less(&wanted.cyan, &black),
                magenta: less(&wanted.magenta, &black),
                yellow: less(&wanted.yellow, &black),
            }
        }
    }
}

// The complements of the first `many` pixels of red, green and blue.
#[inline(always)]
fn complements_given(pixels: &[u8], many: usize) -> Given
    requires many { many ≤ 64 }
    requires pixels { 3 * many ≤ length pixels.now }
    ensures { (ink : Ink) (x : ℕ) → x < many
        → slice_index (given_to result ink) x ≡ complement_of (colour_at pixels.now x) ink }
{
    let (first, others) = colours_of(pixels, many);
    Given {
        black: [0; PIXELS],
        cyan: complement(&first, &others, 0),
        magenta: complement(&first, &others, 1),
        yellow: complement(&first, &others, 2),
    }
}

/// What the first `many` pixels of cyan, magenta, yellow and black give.
#[inline(always)]
pub(crate) fn four_given(inks: InkSet, pixels: &[u8], many: usize) -> Given
    requires many { many ≤ 64 }
    requires pixels { 4 * many ≤ length pixels.now }
    ensures { (ink : Ink) (x : ℕ) → x < many
        → slice_index (given_to result ink) x ≡ cmyk_ink inks (four_at pixels.now x) ink }
{
    let own = own_given(pixels, many);
    match inks {
        InkSet::Cmyk => own,
        InkSet::Cmy => blackened(&own),
        InkSet::K => {
            let sums = blackened(&own);
            grey_given(inks, darkness_left(&sums.cyan, &sums.magenta, &sums.yellow))
        }
    }
}

// The four numbers of the first `many` pixels.
#[inline(always)]
fn own_given(pixels: &[u8], many: usize) -> Given
    requires many { many ≤ 64 }
    requires pixels { 4 * many ≤ length pixels.now }
    ensures { (ink : Ink) (x : ℕ) → x < many
        → slice_index (given_to result ink) x ≡ own_ink (four_at pixels.now x) ink }
{
    let fours = fours_of(pixels, many);
    Given {
        black: byte_of(&fours, 3),
        cyan: byte_of(&fours, 0),
        magenta: byte_of(&fours, 1),
        yellow: byte_of(&fours, 2),
    }
}

// Each ink with black added, at most 255.
#[inline(always)]
fn blackened(own: &Given) -> Given
    ensures { (ink : Ink) (x : ℕ) → x < 64 → slice_index (given_to result ink) x
        ≡ min 255 (slice_index (given_to own.now ink) x + slice_index own.now.black x) }
{
    Given {
        black: more(&own.black, &own.black),
        cyan: more(&own.cyan, &own.black),
        magenta: more(&own.magenta, &own.black),
        yellow: more(&own.yellow, &own.black),
    }
}
