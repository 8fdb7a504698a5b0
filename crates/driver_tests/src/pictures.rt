//! Pictures of pseudo-random pixels, and their prints.
use crate::any_printer::Printer;
use crate::machine::execute;
use crate::plain::{INKS, Screening, wanted};
use driver_fixtures::{Left, add_header, begin, one_file, plain, roomy, run_over};
use pwg_header::Kind;
use std::alloc::{AllocError, Global};
use std::process::Abort;
use std::test::Fail;
use std::thread::Threads;

/// A page of pixels, line by line.
#[derive(Drop)]
pub struct Picture {
    pub kind: Kind,
    pub width: u32,
    pub height: u32,
    pub bytes: Vec<u8>,
}

// How many bytes a unit of a line has: a pixel, or eight pixels of one bit.
fn unit_of(kind: Kind) -> u32 {
    match kind {
        Kind::Gray8 | Kind::Black8 | Kind::Black1 => 1,
        Kind::Rgb8 => 3,
        Kind::Cmyk8 => 4,
    }
}

// How many bytes a line of so many pixels has.
fn line_length(kind: Kind, width: u32) -> u32 {
    match kind {
        Kind::Black1 => width.wrapping_add(7) / 8,
        _ => width.wrapping_mul(unit_of(kind)),
    }
}

// A linear congruential generator of bytes.
#[derive(Clone, Copy)]
struct Random {
    state: u64,
}

impl Random {
    fn next(&mut self) -> u8 {
        self.state = self
            .state
            .wrapping_mul(6_364_136_223_846_793_005)
            .wrapping_add(1_442_695_040_888_963_407);
        self.state.to_be_bytes()[0]
    }
}

// Appends a line: one in four is white, and one in four has one byte throughout.
fn add_line(
    bytes: &mut Vec<u8>,
    kind: Kind,
    length: u32,
    random: &mut Random,
) -> Result<(), AllocError> {
    let white = match kind {
        Kind::Gray8 | Kind::Rgb8 => 255,
        Kind::Black8 | Kind::Black1 | Kind::Cmyk8 => 0,
    };
    let sort = random.next();
    let flat = random.next();
    for _ in 0..length {
        let noise = random.next();
        let byte = match sort {
            0..=63 => white,
            64..=127 => flat,
            _ => noise,
        };
        bytes.extend_from_slice(&[byte])?;
    }
    Ok(())
}

impl Picture {
    /// A picture of pseudo-random pixels from a seed.
    pub fn random(
        alloc: Global,
        kind: Kind,
        (width, height): (u32, u32),
        seed: u64,
    ) -> Result<Picture, AllocError> {
        let mut random = Random { state: seed };
        let mut bytes = Vec::new(alloc);
        for _ in 0..height {
            add_line(&mut bytes, kind, line_length(kind, width), &mut random)?;
        }
        Ok(Picture {
            kind,
            width,
            height,
            bytes,
        })
    }

    // A byte of line y.
    fn byte_of_line(&self, y: i64, place: i64) -> u8 {
        let line = i64::from(line_length(self.kind, self.width));
        match usize::try_from(y.wrapping_mul(line).wrapping_add(place)) {
            Ok(place) => self.bytes.get(place).copied().unwrap_or(0),
            Err(_) => 0,
        }
    }

    /// A byte of the pixel at x, y, whose pixels have whole bytes.
    pub fn byte(&self, x: i64, y: i64, part: i64) -> u8 {
        let unit = i64::from(unit_of(self.kind));
        self.byte_of_line(y, x.wrapping_mul(unit).wrapping_add(part))
    }

    /// The pixel at x, y of a picture of one bit a pixel, the leftmost in the highest bit of a byte.
    pub fn bit(&self, x: i64, y: i64) -> bool {
        let worth: u8 = match x.rem_euclid(8) {
            0 => 128,
            1 => 64,
            2 => 32,
            3 => 16,
            4 => 8,
            5 => 4,
            6 => 2,
            _ => 1,
        };
        self.byte_of_line(y, x.div_euclid(8)) & worth != 0
    }

    /// A stream of this page alone, for a printer of these dots an inch.
    pub fn stream(&self, alloc: Global, resolution: (u32, u32)) -> Result<Vec<u8>, AllocError> {
        let mut stream = begin(alloc)?;
        self.add_to(&mut stream, resolution)?;
        Ok(stream)
    }

    /// Appends this page to a stream.
    pub fn add_to(&self, stream: &mut Vec<u8>, resolution: (u32, u32)) -> Result<(), AllocError> {
        add_header(stream, self.kind, resolution, (self.width, self.height))?;
        let unit = unit_of(self.kind) as usize;
        let line = line_length(self.kind, self.width) as usize;
        for bytes in self.bytes.chunks(line.max(1)) {
            code_line(stream, bytes, unit)?;
        }
        Ok(())
    }
}

// Appends the group of a line without repeats, by packets of literal units.
fn code_line(stream: &mut Vec<u8>, line: &[u8], unit: usize) -> Result<(), AllocError> {
    stream.extend_from_slice(&[0])?;
    for packet in line.chunks(unit.wrapping_mul(128).max(1)) {
        let units = packet.len().checked_div(unit).unwrap_or(0);
        let control = if units == 1 {
            0
        } else {
            257usize.saturating_sub(units)
        };
        stream.extend_from_slice(&[u8::try_from(control).unwrap_or(0)])?;
        stream.extend_from_slice(packet)?;
    }
    Ok(())
}

/// Prints a picture.
pub fn print_picture<R: Threads + Sync>(
    rt: &R,
    alloc: Global,
    printer: &Printer,
    picture: &Picture,
    how: &Screening,
) -> Result<Left, Fail> {
    let text = printer.text(alloc)?;
    let resolution = (u32::from(printer.hdpi), u32::from(printer.vdpi));
    let left = run_over(
        rt,
        alloc,
        &["print", "profile=any.txt", how.kernel_word, how.grain_word],
        plain(alloc, picture.stream(alloc, resolution)?),
        roomy(alloc)?,
        one_file(alloc, "any.txt", text.as_bytes())?,
    )?;
    Ok(left)
}

// Asserts that a job of one sheet fires each dot that the picture asks for once, and no other.
fn fires_its_dots<R: Abort>(
    rt: &R,
    alloc: Global,
    printer: &Printer,
    picture: &Picture,
    how: &Screening,
    job: &[u8],
) -> Result<(), Fail> {
    let window = printer.window(picture.width, picture.height);
    let printed = execute(alloc, printer, window, job)?;
    let length = printed.length.checked_mul(i64::from(printer.vdpi));
    let wanted_length = i64::from(picture.height).checked_mul(3600);
    assert!(rt; (printed.sheets, length) == (1, wanted_length));
    for (ink, dots) in INKS.iter().zip(printed.dots.iter()) {
        let wanted = wanted(alloc, printer, picture, how, *ink)?;
        assert!(rt;
            dots.cells() == wanted.cells(),
            "{ink:?} of {} by {}, {} {}",
            picture.width,
            picture.height,
            how.kernel_word,
            how.grain_word
        );
    }
    Ok(())
}

/// Prints a picture, and asserts that its job fires each dot that the picture asks for once, and no other.
pub fn prints_its_dots<R: Abort + Threads + Sync>(
    rt: &R,
    alloc: Global,
    printer: &Printer,
    picture: &Picture,
    how: &Screening,
) -> Result<(), Fail> {
    let left = print_picture(rt, alloc, printer, picture, how)?;
    let (status, job, line) = left.all();
    assert!(rt; status == 0 && line.is_empty());
    fires_its_dots(rt, alloc, printer, picture, how, job)
}
