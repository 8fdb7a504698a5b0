//! Values of up to 64 pixels, before they are divided among inks.
ghost use Rattle.ink_separation.specs.Given.{colour_at};
ghost use Rattle.separation_definitions.specs.Amounts.{darkness};
ghost use Rattle.std.specs.Prelude.{length, min, slice_index, ℕ, ◌*◌, ◌+◌, ◌-◌, ◌/◌, ◌<◌, ◌≡◌, ◌≤◌};

/// How many pixels are separated at a time.
pub(crate) const PIXELS: usize = 64;

/// A value for each pixel.
pub(crate) type Values = [u8; PIXELS];

/// The first `many` bytes unchanged.
#[inline(always)]
pub(crate) fn same(bytes: &[u8], many: usize) -> Values
    requires many { many ≤ 64 }
    requires bytes { many ≤ length bytes.now }
    ensures { (x : ℕ) → x < many → slice_index result x ≡ slice_index bytes.now x }
{
    let mut values = [0; PIXELS];
    for x in 0..many {
        values[x] = bytes[x];
    }
    values
}

/// 255 less each of the first `many` bytes.
#[inline(always)]
pub(crate) fn inverted(bytes: &[u8], many: usize) -> Values
    requires many { many ≤ 64 }
    requires bytes { many ≤ length bytes.now }
    ensures { (x : ℕ) → x < many → slice_index result x ≡ 255 - slice_index bytes.now x }
{
    let mut values = [0; PIXELS];
    for x in 0..many {
        values[x] = 255 - bytes[x];
    }
    values
}

/// The upper half of a product.
#[inline(always)]
pub(crate) fn high_of(a: u16, b: u16) -> u16
    ensures { result ≡ a * b / 65536 }
{
    (u32::from(a) * u32::from(b) >> 16) as u16
}

/// The darkness of a colour as a grey.
#[inline(always)]
pub(crate) fn grey_of(red: u8, green: u8, blue: u8) -> u8
    ensures { result ≡ darkness (record { red = red; green = green; blue = blue }) }
{
    let light = 77 * u16::from(red) + 150 * u16::from(green) + 29 * u16::from(blue);
    255 - (light / 256) as u8
}

/// The darkness of each of the first `many` pixels of red, green and blue as a grey.
#[inline]
pub(crate) fn darkness_of(pixels: &[u8], many: usize) -> Values
    requires many { many ≤ 64 }
    requires pixels { 3 * many ≤ length pixels.now }
    ensures { (x : ℕ) → x < many → slice_index result x ≡ darkness (colour_at pixels.now x) }
{
    let mut values = [0; PIXELS];
    for x in 0..many {
        values[x] = grey_of(pixels[3 * x], pixels[3 * x + 1], pixels[3 * x + 2]);
    }
    values
}

/// The least of three values at each pixel.
#[inline(always)]
pub(crate) fn least_of(a: &Values, b: &Values, c: &Values) -> Values
    ensures { (x : ℕ) → x < 64
        → slice_index result x ≡ min (min (slice_index a.now x) (slice_index b.now x)) (slice_index c.now x) }
{
    let mut values = [0; PIXELS];
    for x in 0..PIXELS {
        values[x] = a[x].min(b[x]).min(c[x]);
    }
    values
}

/// The values less others, or 0 if the difference is below 0.
#[inline(always)]
pub(crate) fn less(values: &Values, taken: &Values) -> Values
    ensures { (x : ℕ) → x < 64 → slice_index result x ≡ slice_index values.now x - slice_index taken.now x }
{
    let mut rest = [0; PIXELS];
    for x in 0..PIXELS {
        rest[x] = values[x].saturating_sub(taken[x]);
    }
    rest
}
