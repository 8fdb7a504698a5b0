//! The four inks of pixels of cyan, magenta, yellow and black, each apart.
ghost use Rattle.std.specs.Prelude.{length, min, slice_index, ℕ, ◌%◌, ◌*◌, ◌+◌, ◌-◌, ◌/◌, ◌<◌, ◌^◌, ◌≡◌, ◌≤◌};

use crate::pixels::{PIXELS, Values, grey_of};

/// The four bytes of each pixel, the first in the lowest eight bits.
pub(crate) type Fours = [u32; PIXELS];

// Four bytes as a number.
#[inline(always)]
fn joined(a: u8, b: u8, c: u8, d: u8) -> u32
    ensures { result ≡ a + 256 * b + 256 ^ 2 * c + 256 ^ 3 * d }
{
    u32::from(a) + 256 * u32::from(b) + 65_536 * u32::from(c) + 16_777_216 * u32::from(d)
}

/// The bytes of the first `many` pixels.
#[inline(always)]
pub(crate) fn fours_of(pixels: &[u8], many: usize) -> Fours
    requires many { many ≤ 64 }
    requires pixels { 4 * many ≤ length pixels.now }
    ensures { (x : ℕ) → x < many → slice_index result x ≡ slice_index pixels.now (4 * x)
        + 256 * slice_index pixels.now (4 * x + 1) + 256 ^ 2 * slice_index pixels.now (4 * x + 2)
        + 256 ^ 3 * slice_index pixels.now (4 * x + 3) }
{
    let mut fours = [0; PIXELS];
    for x in 0..many {
        fours[x] = joined(
            pixels[4 * x],
            pixels[4 * x + 1],
            pixels[4 * x + 2],
            pixels[4 * x + 3],
        );
    }
    fours
}

/// One of the four bytes of each pixel: 0 to 3 for cyan, magenta, yellow and black.
#[inline(always)]
pub(crate) fn byte_of(fours: &Fours, place: u32) -> Values
    requires { place < 4 }
    ensures { (x : ℕ) → x < 64 → slice_index result x ≡ slice_index fours.now x / 2 ^ (8 * place) % 256 }
{
    let mut values = [0; PIXELS];
    for x in 0..PIXELS {
        values[x] = ((fours[x] >> (8 * place)) % 256) as u8;
    }
    values
}

/// The sums of two values at each pixel, at most 255.
#[inline(always)]
pub(crate) fn more(values: &Values, added: &Values) -> Values
    ensures { (x : ℕ) → x < 64
        → slice_index result x ≡ min 255 (slice_index values.now x + slice_index added.now x) }
{
    let mut sums = [0; PIXELS];
    for x in 0..PIXELS {
        sums[x] = values[x].saturating_add(added[x]);
    }
    sums
}

/// The darkness of the colour that cyan, magenta and yellow leave of white.
#[inline]
pub(crate) fn darkness_left(cyan: &Values, magenta: &Values, yellow: &Values) -> Values
    ensures { (x : ℕ) → x < 64 → slice_index result x ≡ 255 - (77 * (255 - slice_index cyan.now x)
        + 150 * (255 - slice_index magenta.now x) + 29 * (255 - slice_index yellow.now x)) / 256 }
{
    let mut values = [0; PIXELS];
    for x in 0..PIXELS {
        values[x] = grey_of(255 - cyan[x], 255 - magenta[x], 255 - yellow[x]);
    }
    values
}
