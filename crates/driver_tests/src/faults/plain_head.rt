//! A slow printer of pages by a head of one nozzle, 360 dots an inch, without margins: Floyd and Steinberg's kernel and
//! the commands of a page, independent of the driver.
use crate::faults::plain_stream::{Pixel, PlainPage};
use std::alloc::{AllocError, Global};
use weave_base::InkSet;

// The numbers of the colours black, cyan, magenta and yellow, in the order in which they are fired.
const COLOURS: [u8; 4] = [0, 2, 1, 4];

// The amounts of black, cyan, magenta and yellow of a grey pixel.
fn grey_amounts(inks: InkSet, dark: u8) -> [u8; 4] {
    match inks {
        InkSet::Cmy => [0, dark, dark, dark],
        InkSet::K | InkSet::Cmyk => [dark, 0, 0, 0],
    }
}

// Those of a pixel of three colours.
fn colour_amounts(inks: InkSet, red: u8, green: u8, blue: u8) -> [u8; 4] {
    match inks {
        InkSet::K => {
            let light = (77 * u32::from(red) + 150 * u32::from(green) + 29 * u32::from(blue)) / 256;
            [255 - u8::try_from(light).unwrap_or(255), 0, 0, 0]
        }
        InkSet::Cmy => [0, 255 - red, 255 - green, 255 - blue],
        InkSet::Cmyk => {
            let lightest = red.max(green).max(blue);
            [
                255 - lightest,
                lightest.saturating_sub(red),
                lightest.saturating_sub(green),
                lightest.saturating_sub(blue),
            ]
        }
    }
}

fn amounts(inks: InkSet, pixel: Pixel) -> [u8; 4] {
    match pixel {
        Pixel::Grey(dark) => grey_amounts(inks, dark),
        Pixel::Colour(red, green, blue) => colour_amounts(inks, red, green, blue),
    }
}

// The error so many pixels before this one.
fn error(errors: &[i64], at: usize, back: usize) -> i64 {
    match at.checked_sub(back) {
        Some(place) => errors.get(place).copied().unwrap_or(0),
        None => 0,
    }
}

// What the errors near a pixel give to it, in sixteenths of an amount.
fn given(errors: &[i64], width: usize, at: usize) -> i64 {
    let column = at.checked_rem(width).unwrap_or(0);
    let mut sum = error(errors, at, width).wrapping_mul(5);
    if column > 0 {
        sum = sum
            .wrapping_add(error(errors, at, 1).wrapping_mul(7))
            .wrapping_add(error(errors, at, width.wrapping_add(1)));
    }
    if column.wrapping_add(1) < width {
        let above_right = error(errors, at, width.wrapping_sub(1));
        sum = sum.wrapping_add(above_right.wrapping_mul(3));
    }
    sum.div_euclid(16)
}

// The dots of an ink, by its place in the list of colours.
fn dots_of(
    alloc: Global,
    inks: InkSet,
    page: &PlainPage,
    ink: usize,
) -> Result<Vec<bool>, AllocError> {
    let mut dots = Vec::new(alloc);
    let mut errors = Vec::new(alloc);
    for pixel in page.pixels.iter() {
        let amount = amounts(inks, *pixel).get(ink).copied().unwrap_or(0);
        let value = given(&errors, page.width, dots.len()).wrapping_add(i64::from(
            amount,
        ).wrapping_mul(16));
        let dot = value >= 2040;
        dots.push(dot)?;
        errors.push(if dot { value.wrapping_sub(4080) } else { value })?;
    }
    Ok(dots)
}

// Eight dots, the leftmost in the highest bit.
fn byte_of(dots: &[bool]) -> u8 {
    let mut byte = 0;
    for (dot, mask) in dots.iter().zip([0x80, 0x40, 0x20, 0x10, 8, 4, 2, 1]) {
        if *dot {
            byte |= mask;
        }
    }
    byte
}

// Two bytes of a number, the low one first.
fn wide(number: usize) -> [u8; 2] {
    u16::try_from(number).unwrap_or(0).to_le_bytes()
}

// A job, and the row that the head stands on.
#[derive(Drop)]
struct Head<'a> {
    job: &'a mut Vec<u8>,
    row: usize,
}

impl Head<'_> {
    // Graphics mode, the unit, the length of the paper and its margins.
    fn begin(&mut self, height: usize) -> Result<(), AllocError> {
        let length = wide(height.wrapping_mul(2));
        self.job.extend_from_slice(b"\x1B@\x1B(G\x01\x00\x01\x1B(U\x01\x00\x05\x1B(i\x01\x00\x00")?;
        self.job.extend_from_slice(b"\x1BU\x01\x1B(C\x02\x00")?;
        self.job.extend_from_slice(&length)?;
        self.job.extend_from_slice(b"\x1B(c\x04\x00\x00\x00")?;
        self.job.extend_from_slice(&length)?;
        self.job.extend_from_slice(b"\x1B(V\x02\x00\x00\x00")
    }

    // Moves down to a row.
    fn move_to(&mut self, row: usize) -> Result<(), AllocError> {
        let rows = row.saturating_sub(self.row);
        self.row = row;
        if rows == 0 {
            return Ok(());
        }
        self.job.extend_from_slice(b"\x1B(v\x02\x00")?;
        self.job.extend_from_slice(&wide(rows.wrapping_mul(2)))
    }

    // Fires the dots of an ink in a row, at most sixteen, as literal bytes.
    fn fire(&mut self, colour: u8, row: usize, dots: &[bool]) -> Result<(), AllocError> {
        if !dots.contains(&true) {
            return Ok(());
        }
        self.move_to(row)?;
        self.job
            .extend_from_slice(&[0x1B, b'r', colour, 0x0D, 0x1B, b'.', 1, 10, 10, 1])?;
        self.job.extend_from_slice(&wide(dots.len()))?;
        let (left, right) = dots.split_at(dots.len().min(8));
        if right.is_empty() {
            return self.job.extend_from_slice(&[0, byte_of(left)]);
        }
        self.job
            .extend_from_slice(&[1, byte_of(left), byte_of(right)])
    }
}

// The dots of the four inks.
type Planes = [Vec<bool>; 4];

// Fires the dots of a row.
fn fire_row(
    head: &mut Head<'_>,
    planes: &Planes,
    row: usize,
    width: usize,
) -> Result<(), AllocError> {
    let start = row.wrapping_mul(width);
    for (colour, plane) in COLOURS.iter().zip(planes) {
        let dots = plane.get(start..start.wrapping_add(width));
        head.fire(*colour, row, dots.unwrap_or(&[]))?;
    }
    Ok(())
}

/// Appends the job of a page of at most sixteen columns.
pub fn add_job(
    alloc: Global,
    inks: InkSet,
    page: &PlainPage,
    job: &mut Vec<u8>,
) -> Result<(), AllocError> {
    let planes = [
        dots_of(alloc, inks, page, 0)?,
        dots_of(alloc, inks, page, 1)?,
        dots_of(alloc, inks, page, 2)?,
        dots_of(alloc, inks, page, 3)?,
    ];
    let mut head = Head { job, row: 0 };
    head.begin(page.height)?;
    for row in 0..page.height {
        fire_row(&mut head, &planes, row, page.width)?;
    }
    head.job.extend_from_slice(b"\x0C\x1B@")
}
