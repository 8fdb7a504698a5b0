//! The table of kinds of pixel.
ghost use Rattle.std.specs.Option.{option_map};
ghost use Rattle.std.specs.Prelude.{◌≡◌};
ghost use Rattle.pwg_definitions.specs.Header.{colors_of, kind_of as kind_row_of, row_of};

use crate::{Header, Kind};

// ColorSpace of black, 0 white.
const BLACK: u32 = 3;
// ColorSpace of cyan, magenta, yellow and black, 0 white.
const CMYK: u32 = 6;
// ColorSpace of grey (sGray).
const GREY: u32 = 18;
// ColorSpace of red, green and blue (sRGB).
const RED_GREEN_BLUE: u32 = 19;

/// The numbers by which a header names a kind.
#[derive(Clone, Copy)]
pub struct KindNumbers {
    pub color_space: u32,
    pub bits_per_color: u32,
    pub bits_per_pixel: u32,
    pub colors: u32,
}

/// The numbers of a kind.
pub fn numbers_of(kind: Kind) -> KindNumbers
    ensures color_space { result.color_space ≡ (row_of kind).color_space }
    ensures bits_per_color { result.bits_per_color ≡ (row_of kind).bits_per_color }
    ensures bits_per_pixel { result.bits_per_pixel ≡ (row_of kind).bits_per_pixel }
    ensures colors { result.colors ≡ colors_of (row_of kind) }
{
    match kind {
        Kind::Gray8 => KindNumbers {
            color_space: GREY,
            bits_per_color: 8,
            bits_per_pixel: 8,
            colors: 1,
        },
        Kind::Black8 => KindNumbers {
            color_space: BLACK,
            bits_per_color: 8,
            bits_per_pixel: 8,
            colors: 1,
        },
        Kind::Rgb8 => KindNumbers {
            color_space: RED_GREEN_BLUE,
            bits_per_color: 8,
            bits_per_pixel: 24,
            colors: 3,
        },
        Kind::Black1 => KindNumbers {
            color_space: BLACK,
            bits_per_color: 1,
            bits_per_pixel: 1,
            colors: 1,
        },
        Kind::Cmyk8 => KindNumbers {
            color_space: CMYK,
            bits_per_color: 8,
            bits_per_pixel: 32,
            colors: 4,
        },
    }
}

/// The kind that a header names.
pub fn kind_of(h: &Header) -> Option<Kind>
    ensures { result ≡ option_map (λ row. row.kind) (kind_row_of h.now) }
{
    match (h.color_space, h.bits_per_color, h.bits_per_pixel) {
        (GREY, 8, 8) => Some(Kind::Gray8),
        (BLACK, 8, 8) => Some(Kind::Black8),
        (RED_GREEN_BLUE, 8, 24) => Some(Kind::Rgb8),
        (BLACK, 1, 1) => Some(Kind::Black1),
        (CMYK, 8, 32) => Some(Kind::Cmyk8),
        _ => None,
    }
}
