//! Rows without dots.
ghost use Rattle.base_definitions.specs.Limits.{most_columns, most_row_bytes};
ghost use Rattle.base_definitions.specs.Packed.{packed};
ghost use Rattle.page_writer.specs.Passes.{plane_row as plane_row_of};
ghost use Rattle.std.specs.List.{list_all};
ghost use Rattle.std.specs.Prelude.{IfSome, replicate, ◌<◌, ◌==◌, ◌≡◌, ◌≤◌};

use base_definitions::MOST_ROW_BYTES;
use dot_planes::Planes;

// How many bytes of a row are looked at at once: as many as go, and behind these fewer.
const BLOCK: usize = 64;

const PART: usize = 16;

// The widest row, without dots.
static BLANK: [u8; MOST_ROW_BYTES] = [0; MOST_ROW_BYTES];

/// The first `len` bytes of a row without dots.
#[inline]
pub fn blank_row(len: usize) -> &'static [u8]
    requires { len ≤ most_row_bytes }
    ensures { result.now ≡ replicate len 0 }
{
    &BLANK[..len]
}

/// The packed row of an ink in its plane; the blank row for `None`.
#[inline]
pub(crate) fn plane_row(planes: &Planes, place: u8, row: Option<u32>) -> &[u8]
    requires place { place < planes.now.inks }
    requires row { IfSome row (λ y. y < planes.now.rows) }
    requires width { planes.now.width ≤ most_columns }
    ensures { result.now ≡ packed (plane_row_of planes.now place row) }
{
    match row {
        Some(y) => planes.row(place, y),
        None => blank_row((planes.width() as usize + 7) / 8),
    }
}

// Whether a block has no dot: no byte has a bit. The loop has a known length and never ends early, so that it becomes
// vectors.
#[inline(always)]
fn is_blank_block<const N: usize>(block: &[u8; N]) -> bool
    ensures { result ≡ list_all (λ byte. byte == 0) block.now }
{
    let mut any = 0u8;
    'bytes: for k in 0..N {
        any |= block[k];
    }
    any == 0
}

// The same of the few bytes behind the last part: their greatest is 0.
#[inline(always)]
fn is_blank_tail(tail: &[u8]) -> bool
    ensures { result ≡ list_all (λ byte. byte == 0) tail.now }
{
    let mut most = 0u8;
    'bytes: for byte in tail {
        most = most.max(*byte);
    }
    most == 0
}

// The same of the bytes behind the last block.
#[inline(always)]
fn is_blank_rest(bytes: &[u8]) -> bool
    ensures { result ≡ list_all (λ byte. byte == 0) bytes.now }
{
    let mut rest = bytes;
    'parts: while let Some((part, behind)) = rest.split_first_chunk::<PART>() {
        if !is_blank_block::<PART>(part) {
            return false;
        }
        rest = behind;
    }
    is_blank_tail(rest)
}

/// Whether a packed row has no dot.
#[inline]
pub fn is_blank(row: &[u8]) -> bool
    ensures { result ≡ list_all (λ byte. byte == 0) row.now }
{
    let mut rest = row;
    'blocks: while let Some((block, behind)) = rest.split_first_chunk::<BLOCK>() {
        if !is_blank_block::<BLOCK>(block) {
            return false;
        }
        rest = behind;
    }
    is_blank_rest(rest)
}
