//! The fields of a header.
ghost use Rattle.std.specs.Prelude.{◌+◌, ◌≡◌, ◌≤◌};
ghost use Rattle.pwg_definitions.specs.Header.{header_of, number_at};

use crate::{HEADER_LEN, Header, fields};
use byteorder::{BigEndian, ByteOrder};

// The number in the four bytes from an offset on.
fn number(b: &[u8; HEADER_LEN], offset: usize) -> u32
    requires { offset + 4 ≤ HEADER_LEN }
    ensures { result ≡ number_at offset b.now }
{
    BigEndian::read_u32(&b[offset..offset + 4])
}

/// The fields of a header, valid or not. `check` tests them.
pub fn read_header(b: &[u8; HEADER_LEN]) -> Header
    ensures { result ≡ header_of b.now }
{
    Header {
        is_pwg: b.starts_with(b"PwgRaster\0"),
        hres: number(b, fields::CROSS_RESOLUTION),
        vres: number(b, fields::FEED_RESOLUTION),
        width: number(b, fields::WIDTH),
        height: number(b, fields::HEIGHT),
        bits_per_color: number(b, fields::BITS_PER_COLOR),
        bits_per_pixel: number(b, fields::BITS_PER_PIXEL),
        bytes_per_line: number(b, fields::BYTES_PER_LINE),
        color_order: number(b, fields::COLOR_ORDER),
        color_space: number(b, fields::COLOR_SPACE),
        cross_transform: number(b, fields::CROSS_FEED_TRANSFORM),
        feed_transform: number(b, fields::FEED_TRANSFORM),
    }
}
