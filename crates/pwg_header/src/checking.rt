//! The check of a header against the pages that are wanted.
ghost use Rattle.std.specs.Prelude.{◌≡◌};
ghost use Rattle.pwg_definitions.specs.Header.{check as check_of};
ghost use Rattle.pwg_definitions.specs.Header.{is_outside as is_outside_of, line_bytes as line_bytes_of};

use crate::kinds::kind_of;
use crate::{Header, HeaderFault, PageForm, Wanted};

// The length of a line of `width` pixels: its bits, in whole bytes.
fn line_bytes(width: u32, bits_per_pixel: u32) -> u64
    ensures { result ≡ line_bytes_of width bits_per_pixel }
{
    (u64::from(width) * u64::from(bits_per_pixel) + 7) / 8
}

fn is_outside(least: u32, most: u32, n: u32) -> bool
    ensures { result ≡ is_outside_of least most n }
{
    n < least || most < n
}

/// The form of the page that a header begins, or the header's first fault, in the order of
/// `HeaderFault`.
pub fn check(h: &Header, want: Wanted) -> Result<PageForm, HeaderFault>
    ensures { result ≡ check_of want h.now }
{
    if !h.is_pwg {
        return Err(HeaderFault::NotPwg);
    }
    if h.hres != want.hdpi || h.vres != want.vdpi {
        return Err(HeaderFault::Resolution);
    }
    if is_outside(want.least_width, want.most_width, h.width) {
        return Err(HeaderFault::Width);
    }
    if is_outside(want.least_height, want.most_height, h.height) {
        return Err(HeaderFault::Height);
    }
    let Some(kind) = kind_of(h) else {
        return Err(HeaderFault::Kind);
    };
    if u64::from(h.bytes_per_line) != line_bytes(h.width, h.bits_per_pixel) {
        return Err(HeaderFault::BytesPerLine);
    }
    if h.color_order != 0 {
        return Err(HeaderFault::Order);
    }
    if h.cross_transform > 1 || h.feed_transform > 1 {
        return Err(HeaderFault::Transform);
    }
    Ok(PageForm {
        width: h.width,
        height: h.height,
        kind,
        bytes_per_line: h.bytes_per_line,
    })
}
