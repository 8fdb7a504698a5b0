//! A page's dots by the definitions, dot by dot, as directly as possible.
ghost use Rattle.std.specs.Prelude.{◌<◌, ◌≤◌};

use diffusion_kernel::Kernel;
use dot_planes::Planes;
use printer_definitions::Ink;
use printer_profile::{InkSet, PageForm, Profile, STRAIGHT_CURVE};
use pwg_definitions::Kind;

// The byte of colour c at a pixel: numbers without a pattern.
pub(crate) fn byte_at(x: u32, y: u32, c: u32) -> u8 {
    let n = x
        .wrapping_mul(73)
        .wrapping_add(y.wrapping_mul(151))
        .wrapping_add(c.wrapping_mul(199));
    (n % 256) as u8
}

// The complement of a pixel of red, green and blue, for an ink.
fn complement_at(ink: Ink, x: u32, y: u32) -> i32 {
    match ink {
        Ink::Black => 0,
        Ink::Cyan => i32::from(!byte_at(x, y, 0)),
        Ink::Magenta => i32::from(!byte_at(x, y, 1)),
        Ink::Yellow => i32::from(!byte_at(x, y, 2)),
    }
}

// The darkness of a pixel of red, green and blue as a grey.
fn darkness_at(x: u32, y: u32) -> i32 {
    let red = i32::from(byte_at(x, y, 0)).wrapping_mul(77);
    let green = i32::from(byte_at(x, y, 1)).wrapping_mul(150);
    let blue = i32::from(byte_at(x, y, 2)).wrapping_mul(29);
    255i32.wrapping_sub(red.wrapping_add(green).wrapping_add(blue) / 256)
}

// What black takes over, from 64 on.
fn black_at(x: u32, y: u32) -> i32 {
    let magenta = complement_at(Ink::Magenta, x, y);
    let yellow = complement_at(Ink::Yellow, x, y);
    let q = complement_at(Ink::Cyan, x, y).min(magenta).min(yellow);
    if q < 64 {
        0
    } else {
        q.wrapping_sub(64).wrapping_mul(255) / 191
    }
}

// The bit of a pixel of one bit: the highest bit of a byte is its leftmost pixel.
fn bit_at(x: u32, y: u32) -> bool {
    byte_at(x / 8, y, 0) & (128 >> (x % 8)) != 0
}

// The number that a pixel of four inks has for an ink.
fn own_at(ink: Ink, x: u32, y: u32) -> i32 {
    let place = match ink {
        Ink::Cyan => 0,
        Ink::Magenta => 1,
        Ink::Yellow => 2,
        Ink::Black => 3,
    };
    i32::from(byte_at(x, y, place))
}

// The same with the pixel's black added.
fn blackened_at(ink: Ink, x: u32, y: u32) -> i32 {
    let black = own_at(Ink::Black, x, y);
    own_at(ink, x, y).wrapping_add(black).min(255)
}

// The darkness as a grey of the colour that a pixel of four inks leaves.
fn darkness_left(x: u32, y: u32) -> i32 {
    let mut light = 0i32;
    for (ink, weight) in [(Ink::Cyan, 77i32), (Ink::Magenta, 150), (Ink::Yellow, 29)] {
        let left = 255i32.wrapping_sub(blackened_at(ink, x, y));
        light = light.wrapping_add(left.wrapping_mul(weight));
    }
    255i32.wrapping_sub(light / 256)
}

// What a pixel without colour gives to an ink.
fn grey_at(inks: InkSet, ink: Ink, dark: i32) -> i32 {
    if inks == InkSet::Cmyk && ink != Ink::Black {
        0
    } else {
        dark
    }
}

// What a pixel of red, green and blue gives to an ink.
fn colour_at(inks: InkSet, ink: Ink, x: u32, y: u32) -> i32 {
    match inks {
        InkSet::K => darkness_at(x, y),
        InkSet::Cmy => complement_at(ink, x, y),
        InkSet::Cmyk if ink == Ink::Black => black_at(x, y),
        InkSet::Cmyk => complement_at(ink, x, y).wrapping_sub(black_at(x, y)),
    }
}

// What a pixel of four inks gives to an ink.
fn four_at(inks: InkSet, ink: Ink, x: u32, y: u32) -> i32 {
    match inks {
        InkSet::K => darkness_left(x, y),
        InkSet::Cmy => blackened_at(ink, x, y),
        InkSet::Cmyk => own_at(ink, x, y),
    }
}

// What a pixel gives to an ink.
fn given_at(inks: InkSet, kind: Kind, ink: Ink, x: u32, y: u32) -> i32 {
    match kind {
        Kind::Gray8 => grey_at(inks, ink, i32::from(!byte_at(x, y, 0))),
        Kind::Black8 => grey_at(inks, ink, i32::from(byte_at(x, y, 0))),
        Kind::Black1 => grey_at(inks, ink, if bit_at(x, y) { 255 } else { 0 }),
        Kind::Rgb8 => colour_at(inks, ink, x, y),
        Kind::Cmyk8 => four_at(inks, ink, x, y),
    }
}

/// The greatest amounts of black, cyan, magenta and yellow.
pub(crate) const LIMITS: [u8; 4] = [255, 224, 200, 180];

/// The curve whose tones are half of the amounts.
pub(crate) const HALF: [u16; 17] = [
    0, 8, 16, 24, 32, 40, 48, 56, 64, 72, 80, 88, 96, 104, 112, 120, 128,
];

/// A curve with steps, flat parts and an end below 256.
pub(crate) const BENT: [u16; 17] = [
    0, 0, 5, 40, 41, 90, 90, 90, 120, 150, 151, 170, 200, 201, 220, 239, 250,
];

/// The curves of black, cyan, magenta and yellow.
pub(crate) const CURVES: [[u16; 17]; 4] = [BENT, STRAIGHT_CURVE, HALF, BENT];

// The tone of an amount on a curve.
fn tone_of(curve: &[u16; 17], a: i32) -> i32 {
    let place = (a / 16).clamp(0, 15) as usize;
    let before = i32::from(curve[place]);
    let rise = i32::from(curve[place + 1]).wrapping_sub(before);
    let more = rise.wrapping_mul(a % 16) / 16;
    before.wrapping_add(more).min(255)
}

// The number of an ink in the order black, cyan, magenta, yellow.
fn number_of(ink: Ink) -> usize
    ensures { result < 4 }
{
    match ink {
        Ink::Black => 0,
        Ink::Cyan => 1,
        Ink::Magenta => 2,
        Ink::Yellow => 3,
    }
}

// The amount of an ink at a pixel of the page, by the definition.
fn amount_at(p: &Profile, kind: Kind, ink: Ink, x: u32, y: u32) -> i32 {
    let place = number_of(ink);
    let tone = tone_of(&CURVES[place], given_at(p.inks, kind, ink, x, y));
    tone.wrapping_mul(i32::from(LIMITS[place])) / 255
}

// An amount with grain, at column x and row y of the window, by the definition.
fn grained(grain: u8, ink: Ink, x: u32, y: u32, amount: i32) -> i32 {
    let across = u64::from(x).wrapping_mul(49471);
    let down = u64::from(y).wrapping_mul(37344);
    let beside = (number_of(ink) as u64).wrapping_mul(16384);
    let place = across.wrapping_add(down).wrapping_add(beside) % 65536;
    let left = i32::from(LIMITS[number_of(ink)]).wrapping_sub(amount);
    let reach = i32::from(grain).min(amount).min(left);
    let values = reach.wrapping_mul(2).wrapping_add(1);
    let step = (place as i32).wrapping_mul(values) / 65536;
    amount.wrapping_add(step).wrapping_sub(reach)
}

/// How a page is halftoned.
#[derive(Clone, Copy)]
pub(crate) struct Screening {
    pub(crate) kernel: Kernel,
    pub(crate) grain: u8,
}

/// By a kernel alone.
pub(crate) fn plain(kernel: Kernel) -> Screening {
    Screening { kernel, grain: 0 }
}

// How many errors are kept: those of two rows and more, where a row has up to 4,000.
const KEPT: usize = 8192;

// An error of a window of this width, 0 beside it and above it. Only the last ones are kept.
fn error_at(errors: &[i32], width: u32, x: i64, y: i64) -> i32 {
    if x < 0 || y < 0 || x >= i64::from(width) {
        return 0;
    }
    let at = (y as usize)
        .wrapping_mul(width as usize)
        .wrapping_add(x as usize);
    errors.get(at % KEPT).copied().unwrap_or(0)
}

// What the errors near a pixel give to it, in parts of the kernel's divisor.
fn given(kernel: Kernel, errors: &[i32], width: u32, x: u32, y: u32) -> i32 {
    let mut parts = 0i32;
    for weight in kernel.weights() {
        let from_x = i64::from(x) - i64::from(weight.dx);
        let from_y = i64::from(y) - i64::from(weight.dy);
        let error = error_at(errors, width, from_x, from_y);
        parts = parts.wrapping_add(i32::from(weight.share).wrapping_mul(error));
    }
    parts.div_euclid(i32::from(kernel.shares().divisor))
}

// How many places of the window have a dot where there should be none, or none where there should be one. Each line of
// the page stands this many times.
pub(crate) fn wrong_dots(
    p: &Profile,
    f: PageForm,
    how: Screening,
    copies: u32,
    planes: &Planes,
    i: u8,
    ink: Ink,
) -> u32
    requires { 1 ≤ copies }
{
    let mut errors = [0i32; KEPT];
    let mut wrong = 0u32;
    let width = planes.width();
    for y in 0..planes.rows() {
        for x in 0..width {
            let line = y.wrapping_add(1) / copies;
            let amount = amount_at(p, f.kind, ink, x.wrapping_add(2), line);
            let amount = grained(how.grain, ink, x, y, amount);
            let value = amount
                .wrapping_mul(16)
                .wrapping_add(given(how.kernel, &errors, width, x, y));
            let on = value >= 2040;
            let at = y.wrapping_mul(width).wrapping_add(x) as usize;
            errors[at % KEPT] = if on { value.wrapping_sub(4080) } else { value };
            if i >= planes.inks() || planes.dot(i, x, y) != on {
                wrong = wrong.wrapping_add(1);
            }
        }
    }
    wrong
}
