//! Writing a header.
ghost use Rattle.std.specs.Int.{to_be_bytes, w32};
ghost use Rattle.std.specs.Prelude.{Ok, replicate, ◌+◌, ◌≡◌, ◌≤◌};
ghost use Rattle.pwg_definitions.specs.Header.{IsWanted, check, header_bytes, header_of, pwg_raster, with_bytes};
ghost use Rattle.pwg_definitions.specs.declared.pages.Wanted.{Wanted};

use crate::kinds::numbers_of;
use crate::{HEADER_LEN, PageForm, fields};
use byteorder::{BigEndian, ByteOrder};

// Writes a number into the four bytes from an offset on.
fn put_number(out: &mut [u8; HEADER_LEN], offset: usize, number: u32)
    requires { offset + 4 ≤ HEADER_LEN }
    ensures { out.new ≡ with_bytes offset (to_be_bytes w32 number) out.old }
{
    BigEndian::write_u32(&mut out[offset..offset + 4], number);
}

// Sets all bytes to 0 but `PwgRaster`.
fn begin(out: &mut [u8; HEADER_LEN])
    ensures { out.new ≡ with_bytes 0 pwg_raster (replicate HEADER_LEN 0) }
{
    out.fill(0);
    out[..10].copy_from_slice(b"PwgRaster\0");
}

/// Writes the header of a page of this form, at a resolution in dots an inch: one copy, both transforms 1.
pub fn write_header(f: &PageForm, hdpi: u32, vdpi: u32, out: &mut [u8; HEADER_LEN])
    ensures bytes { out.new ≡ header_bytes f.now hdpi vdpi }

    // A reader that wants this resolution and a page of this form accepts the header.
    ensures accepted { (want : Wanted) → want.hdpi ≡ hdpi → want.vdpi ≡ vdpi → IsWanted want f.now
        → check want (header_of out.new) ≡ Ok f.now }
{
    let kind = numbers_of(f.kind);
    begin(out);
    put_number(out, fields::CROSS_RESOLUTION, hdpi);
    put_number(out, fields::FEED_RESOLUTION, vdpi);
    put_number(out, fields::COPIES, 1);
    put_number(out, fields::WIDTH, f.width);
    put_number(out, fields::HEIGHT, f.height);
    put_number(out, fields::BITS_PER_COLOR, kind.bits_per_color);
    put_number(out, fields::BITS_PER_PIXEL, kind.bits_per_pixel);
    put_number(out, fields::BYTES_PER_LINE, f.bytes_per_line);
    put_number(out, fields::COLOR_SPACE, kind.color_space);
    put_number(out, fields::COLORS, kind.colors);
    put_number(out, fields::CROSS_FEED_TRANSFORM, 1);
    put_number(out, fields::FEED_TRANSFORM, 1);
}
