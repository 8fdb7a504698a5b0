//! A slow reader of streams of grey, black and RGB pages of 360 dots an inch, byte by byte, independent of the driver
//! (PWG 5102.4, section 4).
use std::alloc::{AllocError, Global};

/// Where a stream stops before its end, and why.
#[derive(Clone, Copy)]
pub struct StreamFault {
    pub page: u32,
    pub line: u32,
    pub cause: &'static str,
}

/// A pixel of a page.
#[derive(Clone, Copy)]
pub enum Pixel {
    /// Its darkness.
    Grey(u8),
    /// Its red, green and blue.
    Colour(u8, u8, u8),
}

/// A page, its pixels row by row from the left.
#[derive(Drop)]
pub struct PlainPage {
    pub width: usize,
    pub height: usize,
    pub pixels: Vec<Pixel>,
}

/// A stream: its whole pages, and where it stops behind them.
#[derive(Drop)]
pub struct PlainStream {
    pub pages: Vec<PlainPage>,
    pub fault: Option<StreamFault>,
}

// What the bytes of a pixel mean.
#[derive(Clone, Copy)]
enum Form {
    Grey,
    Black,
    Colour,
}

impl Form {
    // How many bytes a pixel has.
    fn unit(self) -> usize {
        match self {
            Form::Grey | Form::Black => 1,
            Form::Colour => 3,
        }
    }

    // The pixel of these bytes.
    fn pixel(self, unit: &[u8]) -> Pixel {
        match (self, unit) {
            (Form::Grey, [shade]) => Pixel::Grey(255 - *shade),
            (Form::Black, [shade]) => Pixel::Grey(*shade),
            (Form::Colour, [red, green, blue]) => Pixel::Colour(*red, *green, *blue),
            _ => Pixel::Grey(0),
        }
    }
}

// Four bytes of a header, the highest first.
fn number(header: &[u8], at: usize) -> u32 {
    match header.get(at..at.saturating_add(4)) {
        Some([a, b, c, d]) => u32::from_be_bytes([*a, *b, *c, *d]),
        _ => 0,
    }
}

// The form of a page, by its colour space and its bits a colour and a pixel.
fn form_of(header: &[u8]) -> Option<Form> {
    match (
        number(header, 400),
        number(header, 384),
        number(header, 388),
    ) {
        (18, 8, 8) => Some(Form::Grey),
        (3, 8, 8) => Some(Form::Black),
        (19, 8, 24) => Some(Form::Colour),
        _ => None,
    }
}

// The first check that a header does not pass.
fn header_fault(header: &[u8]) -> Option<&'static str> {
    let (width, height) = (number(header, 372), number(header, 376));
    let bits = width.wrapping_mul(number(header, 388));
    let tests = [
        (!header.starts_with(b"PwgRaster\0"), "NotPwg"),
        (
            number(header, 276) != 360 || number(header, 280) != 360,
            "Resolution",
        ),
        (width == 0 || width > 8191, "Width"),
        (height == 0 || height > 7920, "Height"),
        (form_of(header).is_none(), "Kind"),
        (
            number(header, 392) != bits.wrapping_add(7) / 8,
            "BytesPerLine",
        ),
        (number(header, 396) != 0, "Order"),
        (
            number(header, 456) > 1 || number(header, 460) > 1,
            "Transform",
        ),
    ];
    for (holds, cause) in tests {
        if holds {
            return Some(cause);
        }
    }
    None
}

// Why reading stops.
#[derive(Clone, Copy)]
enum PlainStreamStop {
    Fault(StreamFault),
    Memory,
}

impl From<AllocError> for PlainStreamStop {
    fn from(_error: AllocError) -> PlainStreamStop {
        PlainStreamStop::Memory
    }
}

// The bytes that are not yet read, and the page and the line that they begin with.
#[derive(Drop)]
struct StreamLeft<'a> {
    rest: &'a [u8],
    page: u32,
    line: u32,
    alloc: Global,
}

impl<'a> StreamLeft<'a> {
    fn refuse<T>(&self, cause: &'static str) -> Result<T, PlainStreamStop> {
        Err(PlainStreamStop::Fault(StreamFault {
            page: self.page,
            line: self.line,
            cause,
        }))
    }

    // The next bytes, so many.
    fn take(&mut self, count: usize) -> Result<&'a [u8], PlainStreamStop> {
        if self.rest.len() < count {
            return self.refuse("Truncated");
        }
        let (taken, rest) = self.rest.split_at(count);
        self.rest = rest;
        Ok(taken)
    }

    fn byte(&mut self) -> Result<u8, PlainStreamStop> {
        Ok(self.take(1)?.first().copied().unwrap_or(0))
    }

    // Appends the pixels of a packet, of which the line takes at most `left`, and gives their number.
    fn packet(
        &mut self,
        form: Form,
        left: usize,
        pixels: &mut Vec<Pixel>,
    ) -> Result<usize, PlainStreamStop> {
        let control = usize::from(self.byte()?);
        let count = match control {
            0..=127 => control + 1,
            128 => left,
            _ => 257 - control,
        };
        if count > left {
            return self.refuse("RunPastLine");
        }
        let mut pixel = Pixel::Grey(0);
        for place in 0..count {
            if control > 128 || (control < 128 && place == 0) {
                pixel = form.pixel(self.take(form.unit())?);
            }
            if pixels.push(pixel).is_err() {
                return Err(PlainStreamStop::Memory);
            }
        }
        Ok(count)
    }

    // The pixels of a line.
    fn coded_line(&mut self, form: Form, width: usize) -> Result<Vec<Pixel>, PlainStreamStop> {
        let mut pixels = Vec::new(self.alloc);
        let mut left = width;
        for _ in 0..width {
            if left > 0 {
                left = left.saturating_sub(self.packet(form, left, &mut pixels)?);
            }
        }
        Ok(pixels)
    }

    // Appends the lines of a group, of which the page takes at most `left`, and gives their number.
    fn group(
        &mut self,
        form: Form,
        left: usize,
        page: &mut PlainPage,
    ) -> Result<usize, PlainStreamStop> {
        let count = usize::from(self.byte()?) + 1;
        if count > left {
            return self.refuse("GroupPastPage");
        }
        let line = self.coded_line(form, page.width)?;
        for _ in 0..count {
            page.pixels.extend_from_slice(&line)?;
        }
        Ok(count)
    }

    // The next page.
    fn next_page(&mut self) -> Result<PlainPage, PlainStreamStop> {
        self.line = 0;
        let header = self.take(1796)?;
        let form = match (header_fault(header), form_of(header)) {
            (None, Some(form)) => form,
            (Some(cause), _) => return self.refuse(cause),
            (None, None) => return self.refuse("Kind"),
        };
        let mut page = PlainPage {
            width: number(header, 372) as usize,
            height: number(header, 376) as usize,
            pixels: Vec::new(self.alloc),
        };
        self.line = 1;
        let mut left = page.height;
        for _ in 0..page.height {
            if left > 0 {
                let count = self.group(form, left, &mut page)?;
                left = left.saturating_sub(count);
                self.line = self.line.wrapping_add(u32::try_from(count).unwrap_or(0));
            }
        }
        Ok(page)
    }
}

/// The pages of a stream, and where it stops.
pub fn read_stream(alloc: Global, bytes: &[u8]) -> Result<PlainStream, AllocError> {
    let mut pages = Vec::new(alloc);
    let mut unread = StreamLeft {
        rest: bytes.get(4..).unwrap_or(&[]),
        page: 0,
        line: 0,
        alloc,
    };
    if !bytes.starts_with(b"RaS2") {
        let fault = Some(StreamFault {
            page: 0,
            line: 0,
            cause: "BadSync",
        });
        return Ok(PlainStream { pages, fault });
    }
    for _ in 0..bytes.len() {
        if unread.rest.is_empty() {
            break;
        }
        unread.page = unread.page.wrapping_add(1);
        match unread.next_page() {
            Ok(page) => pages.push(page)?,
            Err(PlainStreamStop::Fault(fault)) => {
                let fault = Some(fault);
                return Ok(PlainStream { pages, fault });
            }
            Err(PlainStreamStop::Memory) => return Err(AllocError),
        }
    }
    Ok(PlainStream { pages, fault: None })
}
