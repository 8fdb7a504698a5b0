//! The dots that a page asks for, straight from the written definitions: slow, and independent of the driver.
use crate::any_printer::Printer;
use crate::grid::Grid;
use crate::pictures::Picture;
use pwg_header::Kind;
use std::alloc::Global;
use weave_base::{Ink, InkSet, Memory};

/// The inks, in the order in which a printer fires them.
pub const INKS: [Ink; 4] = [Ink::Black, Ink::Cyan, Ink::Magenta, Ink::Yellow];

/// Shares of an error, each with its distance to the right and down.
type Shares = &'static [(i64, i64, i64)];

/// A kernel and a grain: their words on the command line, the shares of an error, and how far an amount may move.
#[derive(Clone, Copy)]
pub struct Screening {
    pub kernel_word: &'static str,
    pub shares: Shares,
    pub grain_word: &'static str,
    pub grain: i64,
}

const FLOYD: Shares = &[(1, 0, 7), (-1, 1, 3), (0, 1, 5), (1, 1, 1)];

const JARVIS: Shares = &[
    (1, 0, 7),
    (2, 0, 5),
    (-2, 1, 3),
    (-1, 1, 5),
    (0, 1, 7),
    (1, 1, 5),
    (2, 1, 3),
    (-2, 2, 1),
    (-1, 2, 3),
    (0, 2, 5),
    (1, 2, 3),
    (2, 2, 1),
];

const STUCKI: Shares = &[
    (1, 0, 8),
    (2, 0, 4),
    (-2, 1, 2),
    (-1, 1, 4),
    (0, 1, 8),
    (1, 1, 4),
    (2, 1, 2),
    (-2, 2, 1),
    (-1, 2, 2),
    (0, 2, 4),
    (1, 2, 2),
    (2, 2, 1),
];

/// Floyd and Steinberg's kernel, without grain.
pub const PLAIN_FLOYD: Screening = Screening {
    kernel_word: "kernel=fs",
    shares: FLOYD,
    grain_word: "grain=0",
    grain: 0,
};

/// The three kernels, without grain.
pub const KERNELS: [Screening; 3] = [
    PLAIN_FLOYD,
    Screening {
        kernel_word: "kernel=jjn",
        shares: JARVIS,
        grain_word: "grain=0",
        grain: 0,
    },
    Screening {
        kernel_word: "kernel=stucki",
        shares: STUCKI,
        grain_word: "grain=0",
        grain: 0,
    },
];

/// The three kernels, each with another grain.
pub const GRAINED: [Screening; 3] = [
    Screening {
        kernel_word: "kernel=fs",
        shares: FLOYD,
        grain_word: "grain=1",
        grain: 1,
    },
    Screening {
        kernel_word: "kernel=jjn",
        shares: JARVIS,
        grain_word: "grain=16",
        grain: 16,
    },
    Screening {
        kernel_word: "kernel=stucki",
        shares: STUCKI,
        grain_word: "grain=32",
        grain: 32,
    },
];

/// Whether a set has an ink.
pub fn has_ink(inks: InkSet, ink: Ink) -> bool {
    match inks {
        InkSet::K => ink == Ink::Black,
        InkSet::Cmy => ink != Ink::Black,
        InkSet::Cmyk => true,
    }
}

// What a grey of this darkness gives to an ink of the set.
fn of_grey(inks: InkSet, ink: Ink, darkness: u8) -> u8 {
    match (inks, ink) {
        (InkSet::Cmyk, Ink::Cyan | Ink::Magenta | Ink::Yellow) => 0,
        _ => darkness,
    }
}

// The complement of a colour, for an ink.
fn complement((red, green, blue): (u8, u8, u8), ink: Ink) -> u8 {
    match ink {
        Ink::Black => 0,
        Ink::Cyan => 255 - red,
        Ink::Magenta => 255 - green,
        Ink::Yellow => 255 - blue,
    }
}

// The part of a darkness that goes to black; a darkness below the least stays in the colours.
fn moved_to_black(least: u8, darkness: u8) -> u8 {
    if darkness < least {
        return 0;
    }
    let above = u32::from(darkness.saturating_sub(least)).wrapping_mul(255);
    let most = u32::from(255 - least);
    u8::try_from(above.checked_div(most).unwrap_or(0)).unwrap_or(255)
}

// What a colour gives to an ink of the set.
fn of_colour(printer: &Printer, ink: Ink, colour: (u8, u8, u8)) -> u8 {
    let (red, green, blue) = colour;
    let lacking = complement(colour, ink);
    let black = moved_to_black(
        printer.black_start,
        (255 - red).min(255 - green).min(255 - blue),
    );
    let grey = (77 * u32::from(red) + 150 * u32::from(green) + 29 * u32::from(blue)) / 256;
    match (printer.inks, ink) {
        (InkSet::K, _) => 255 - u8::try_from(grey).unwrap_or(255),
        (InkSet::Cmy, _) => lacking,
        (InkSet::Cmyk, Ink::Black) => black,
        (InkSet::Cmyk, _) => lacking.saturating_sub(black),
    }
}

// What a pixel of cyan, magenta, yellow and black gives to an ink of the set.
fn of_four(printer: &Printer, ink: Ink, (cyan, magenta, yellow, black): (u8, u8, u8, u8)) -> u8 {
    let own = match ink {
        Ink::Black => black,
        Ink::Cyan => cyan,
        Ink::Magenta => magenta,
        Ink::Yellow => yellow,
    };
    let red = 255 - cyan.saturating_add(black);
    let green = 255 - magenta.saturating_add(black);
    let blue = 255 - yellow.saturating_add(black);
    match printer.inks {
        InkSet::Cmyk => own,
        InkSet::Cmy => own.saturating_add(black),
        InkSet::K => of_colour(printer, ink, (red, green, blue)),
    }
}

// The amount of an ink at a pixel of a picture.
fn amount(printer: &Printer, picture: &Picture, ink: Ink, x: i64, y: i64) -> i64 {
    let first = picture.byte(x, y, 0);
    let given = match picture.kind {
        Kind::Gray8 => of_grey(printer.inks, ink, 255 - first),
        Kind::Black8 => of_grey(printer.inks, ink, first),
        Kind::Rgb8 => of_colour(
            printer,
            ink,
            (first, picture.byte(x, y, 1), picture.byte(x, y, 2)),
        ),
        Kind::Black1 => of_grey(printer.inks, ink, if picture.bit(x, y) { 255 } else { 0 }),
        Kind::Cmyk8 => of_four(
            printer,
            ink,
            (
                first,
                picture.byte(x, y, 1),
                picture.byte(x, y, 2),
                picture.byte(x, y, 3),
            ),
        ),
    };
    i64::from(printer.tone(ink, given)) * i64::from(printer.limit(ink)) / 255
}

// An amount of an ink with grain, at column x and row y of the window.
fn grained(printer: &Printer, grain: i64, ink: Ink, amount: i64, x: i64, y: i64) -> i64 {
    let number = match ink {
        Ink::Black => 0,
        Ink::Cyan => 1,
        Ink::Magenta => 2,
        Ink::Yellow => 3i64,
    };
    let place = x
        .wrapping_mul(49471)
        .wrapping_add(y.wrapping_mul(37344))
        .wrapping_add(number.wrapping_mul(16384))
        .rem_euclid(65536);
    let left = i64::from(printer.limit(ink)).wrapping_sub(amount);
    let reach = grain.min(amount).min(left);
    let values = reach.wrapping_mul(2).wrapping_add(1);
    let step = place.wrapping_mul(values).div_euclid(65536);
    amount.wrapping_add(step).wrapping_sub(reach)
}

// What the errors near a pixel give to it, in sixteenths of an amount.
fn given(how: &Screening, errors: &Grid, x: i64, y: i64) -> i64 {
    let mut sum: i64 = 0;
    let mut parts: i64 = 0;
    for (right, down, share) in how.shares {
        let error = errors.get(x.wrapping_sub(*right), y.wrapping_sub(*down));
        sum = sum.wrapping_add(share.wrapping_mul(error));
        parts = parts.wrapping_add(*share);
    }
    sum.checked_div_euclid(parts).unwrap_or(0)
}

// Diffuses a row, below the errors of the rows above.
fn diffuse_row(how: &Screening, amounts: &Grid, y: i64, errors: &mut Grid, dots: &mut Grid) {
    for x in 0..amounts.width {
        let value = amounts
            .get(x, y)
            .wrapping_mul(16)
            .wrapping_add(given(how, errors, x, y));
        if value >= 2040 {
            dots.set(x, y, 1);
            errors.set(x, y, value.wrapping_sub(4080));
        } else {
            errors.set(x, y, value);
        }
    }
}

// The dots of a plane of amounts: 1 for a dot, else 0.
fn diffuse(alloc: Global, how: &Screening, amounts: &Grid) -> Result<Grid, Memory> {
    let mut errors = Grid::make(alloc, amounts.width, amounts.height)?;
    let mut dots = Grid::make(alloc, amounts.width, amounts.height)?;
    for y in 0..amounts.height {
        diffuse_row(how, amounts, y, &mut errors, &mut dots);
    }
    Ok(dots)
}

// The amounts of an ink in a row of the window, with grain.
fn weigh_row(
    printer: &Printer,
    picture: &Picture,
    how: &Screening,
    ink: Ink,
    y: i64,
    amounts: &mut Grid,
) {
    for x in 0..amounts.width {
        let across = x.wrapping_add(i64::from(printer.left));
        let down = y.wrapping_add(i64::from(printer.top));
        let amount = amount(printer, picture, ink, across, down);
        amounts.set(x, y, grained(printer, how.grain, ink, amount, x, y));
    }
}

/// The dots of an ink over the window of a picture: 1 for a dot, else 0; all 0 for an ink that the printer does not
/// have.
pub fn wanted(
    alloc: Global,
    printer: &Printer,
    picture: &Picture,
    how: &Screening,
    ink: Ink,
) -> Result<Grid, Memory> {
    let (width, height) = printer.window(picture.width, picture.height);
    let mut amounts = Grid::make(alloc, width, height)?;
    if has_ink(printer.inks, ink) {
        for y in 0..height {
            weigh_row(printer, picture, how, ink, y, &mut amounts);
        }
    }
    diffuse(alloc, how, &amounts)
}
