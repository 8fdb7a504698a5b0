//! The three colours of pixels, each apart.
ghost use Rattle.std.specs.Prelude.{length, slice_index, ℕ, ◌%◌, ◌*◌, ◌+◌, ◌-◌, ◌/◌, ◌<◌, ◌≡◌, ◌≤◌};

use crate::pixels::{PIXELS, Values};

/// The bytes of 32 pixels, colour by colour: 32 of red, of green and of blue.
pub(crate) type Parted = [u8; 96];

// `count` bytes from place `first` on; what follows them means nothing.
#[inline(always)]
fn bytes_from(pixels: &[u8], first: usize, count: usize) -> [u8; 96]
    requires count { count ≤ 96 }
    requires inside { first + count ≤ length pixels.now }
    ensures { (k : ℕ) → k < count → slice_index result k ≡ slice_index pixels.now (first + k) }
{
    let mut bytes = [0; 96];
    for k in 0..count {
        bytes[k] = pixels[first + k];
    }
    bytes
}

// The first half of the bytes at the even places, the second at the odd ones.
#[inline(always)]
fn riffled(bytes: &[u8; 96]) -> [u8; 96]
    ensures { (k : ℕ) → k < 96 → slice_index result k ≡ slice_index bytes.now (k / 2 + 48 * (k % 2)) }
{
    let mut mixed = [0; 96];
    for i in 0..48 {
        mixed[2 * i] = bytes[i];
        mixed[2 * i + 1] = bytes[48 + i];
    }
    mixed
}

// The colours of 32 pixels. Five riffles move byte 3 x + c to place 32 c + x. Each is a loop that becomes vectors; a
// loop over every third byte would not.
#[inline(always)]
fn parted(bytes: &[u8; 96]) -> Parted
    ensures { (colour x : ℕ) → colour < 3 → x < 32
        → slice_index result (32 * colour + x) ≡ slice_index bytes.now (3 * x + colour) }
{
    riffled(&riffled(&riffled(&riffled(&riffled(bytes)))))
}

/// The colours of the first `many` pixels: those of the first 32, and those of the others.
#[inline(always)]
pub(crate) fn colours_of(pixels: &[u8], many: usize) -> (Parted, Parted)
    requires many { many ≤ 64 }
    requires pixels { 3 * many ≤ length pixels.now }
    ensures first { (colour x : ℕ) → colour < 3 → x < 32 → x < many
        → slice_index result.0 (32 * colour + x) ≡ slice_index pixels.now (3 * x + colour) }
    ensures others { (colour x : ℕ) → colour < 3 → 32 + x < many
        → slice_index result.1 (32 * colour + x) ≡ slice_index pixels.now (3 * (32 + x) + colour) }
{
    let first = many.min(32);
    (
        parted(&bytes_from(pixels, 0, 3 * first)),
        parted(&bytes_from(pixels, 3 * first, 3 * (many - first))),
    )
}

/// The complement of one of the colours of each pixel: 255 less its value.
#[inline(always)]
pub(crate) fn complement(first: &Parted, others: &Parted, colour: usize) -> Values
    requires { colour < 3 }
    ensures first { (x : ℕ) → x < 32 → slice_index result x ≡ 255 - slice_index first.now (32 * colour + x) }
    ensures others { (x : ℕ) → x < 32 → slice_index result (32 + x) ≡ 255 - slice_index others.now (32 * colour + x) }
{
    let mut values = [0; PIXELS];
    for x in 0..32 {
        values[x] = 255 - first[32 * colour + x];
        values[32 + x] = 255 - others[32 * colour + x];
    }
    values
}
