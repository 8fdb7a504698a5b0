//! The header of a page, and the pages that a driver wants.
ghost use Rattle.std.specs.Prelude.{length, ◌≡◌, ◌≤◌};

/// A kind of pixel, one row of the table of kinds.
#[derive(Clone, Copy, Debug, PartialEq, Eq)]
pub enum Kind {
    /// Grey of 8 bits (sGray), 0 black and 255 white.
    Gray8,
    /// Black of 8 bits, 0 white and 255 black.
    Black8,
    /// Red, green and blue of 8 bits each (sRGB), side by side.
    Rgb8,
    /// Black of one bit, 0 white. A byte has eight pixels, the first in its highest bit.
    Black1,
    /// Cyan, magenta, yellow and black of 8 bits each, side by side; 0 is white.
    Cmyk8,
}

impl Kind {
    ghost use Rattle.pwg_definitions.specs.Header.{line_bytes, row_of};
    ghost use Rattle.std.specs.Prelude.{◌<◌, ◌^◌};

    /// The length in bytes of a unit, which the packets of a line repeat: a pixel of 1, 3 or 4 bytes, or eight pixels
    /// of one bit.
    #[inline]
    pub fn unit(self) -> usize
        ensures value { result ≡ (row_of self).unit }
        ensures some { 1 ≤ result }
        ensures few { result ≤ 4 }
    {
        match self {
            Kind::Gray8 | Kind::Black8 | Kind::Black1 => 1,
            Kind::Rgb8 => 3,
            Kind::Cmyk8 => 4,
        }
    }

    /// How many bytes this many pixels of the kind take, without gaps.
    pub fn line_bytes(self, pixels: usize) -> usize
        requires { pixels < 2 ^ 33 }
        ensures { result ≡ line_bytes pixels (row_of self).bits_per_pixel }
    {
        match self {
            Kind::Gray8 | Kind::Black8 => pixels,
            Kind::Rgb8 => 3 * pixels,
            Kind::Black1 => pixels.div_ceil(8),
            Kind::Cmyk8 => 4 * pixels,
        }
    }

    /// A white unit of a line: a white pixel, or eight of one bit.
    pub fn white(self) -> &'static [u8]
        ensures value { result.now ≡ (row_of self).white }
        ensures sized { length result.now ≡ (row_of self).unit }
    {
        match self {
            Kind::Gray8 => &[255],
            Kind::Black8 | Kind::Black1 => &[0],
            Kind::Rgb8 => &[255, 255, 255],
            Kind::Cmyk8 => &[0, 0, 0, 0],
        }
    }
}

/// The form of a page: its size in pixels, its kind of pixel, and the length of its lines in bytes.
#[derive(Clone, Copy, Debug, PartialEq, Eq)]
pub struct PageForm {
    /// Pixels across the page.
    pub width: u32,
    /// Lines down the page.
    pub height: u32,
    pub kind: Kind,
    /// Bytes of a line, whose pixels are packed without gaps; bits past the last pixel mean nothing.
    pub bytes_per_line: u32,
}

/// The fields of a page header that decide how its page is read (PWG 5102.4, section 4.3).
#[derive(Clone, Copy, Debug, PartialEq, Eq)]
pub struct Header {
    /// Whether the header begins with the text `PwgRaster`, ended by 00.
    pub is_pwg: bool,
    /// HWResolution across the page, in dots an inch.
    pub hres: u32,
    /// HWResolution down the page, in dots an inch.
    pub vres: u32,
    /// Width, in pixels.
    pub width: u32,
    /// Height, in lines.
    pub height: u32,
    /// BitsPerColor.
    pub bits_per_color: u32,
    /// BitsPerPixel.
    pub bits_per_pixel: u32,
    /// BytesPerLine.
    pub bytes_per_line: u32,
    /// ColorOrder: 0 if the colours of a pixel are side by side.
    pub color_order: u32,
    /// ColorSpace: 18 for grey, 3 for black, 19 for red, green and blue, 6 for cyan, magenta, yellow and black.
    pub color_space: u32,
    /// CrossFeedTransform: 0 or 1.
    pub cross_transform: u32,
    /// FeedTransform: 0 or 1.
    pub feed_transform: u32,
}

/// The pages that a driver wants: their resolution in dots an inch, and the bounds of their size in pixels.
#[derive(Clone, Copy, Debug, PartialEq, Eq)]
pub struct Wanted {
    /// Dots an inch across the page.
    pub hdpi: u32,
    /// Dots an inch down the page.
    pub vdpi: u32,
    pub least_width: u32,
    pub most_width: u32,
    pub least_height: u32,
    pub most_height: u32,
}
