//! A row of a tile's dots, put at its columns of a packed row.
ghost use Rattle.dot_planes.specs.Tables.{row_dot, row_len};
ghost use Rattle.dot_planes.specs.Tiles.{PutsDots};
ghost use Rattle.base_definitions.specs.Packed.{bit_at};
ghost use Rattle.base_definitions.specs.Limits.{most_columns, most_row_bytes};
ghost use Rattle.std.specs.Prelude.{length, slice_index, ℕ, ◌*◌, ◌+◌, ◌-◌, ◌<◌, ◌≡◌, ◌≤◌, ◌⊎◌};

use crate::eights::eight_from;
use crate::places::are_bytes;

/// Sets the dots of row r of a tile in column c, eight bytes, in a packed row of `width` columns, wherever the tile
/// has a pixel of the row. All other dots are unchanged.
pub(crate) fn put_dots(row: &mut [u8], width: usize, c: usize, r: usize, dots: &[u8])
    requires width { width ≤ most_columns }
    requires row { length row.old ≡ row_len width }
    requires c { c < most_row_bytes }
    requires r { r < 32 }
    requires dots { length dots.now ≡ 8 }
    ensures dots { PutsDots width c r width dots.now row.old row.new }
    ensures bytes { (k : ℕ) → slice_index row.new k < 256 }
{
    let (skip, shift) = lean(r);
    if skip < 8 * c && 64 * c + 64 <= width + 2 * r {
        put_whole(row, width, c, r, skip, shift, dots);
    } else {
        put_cut(row, width, c, r, skip, shift, dots);
    }
    are_bytes(row);
}

// How many whole bytes, and how many dots more, row r of a tile begins to the left of row 0.
#[inline]
fn lean(r: usize) -> (usize, usize)
    requires { r < 32 }
    ensures is { 2 * r ≡ 8 * result.0 + result.1 }
    ensures skip { result.0 < 8 }
    ensures shift { result.1 ≤ 6 }
{
    let shift = 2 * (r % 4);
    (r / 4, shift)
}

// The same where all 64 columns are in the row. They begin inside the first of nine bytes, or right after it.
fn put_whole(
    row: &mut [u8],
    width: usize,
    c: usize,
    r: usize,
    skip: usize,
    shift: usize,
    dots: &[u8],
)
    requires row { length row.old ≡ row_len width }
    requires c { c < most_row_bytes }
    requires left { skip < 8 * c }
    requires right { 64 * c + 64 ≤ width + 2 * r }
    requires lean { 2 * r ≡ 8 * skip + shift }
    requires shift { shift ≤ 6 }
    requires dots { length dots.now ≡ 8 }
    ensures { PutsDots width c r width dots.now row.old row.new }
{
    let start = 8 * c - (skip + 1);
    row[start] = put_byte(row[start], dots, 0, shift, 8);
    let bytes = moved_row(dots, shift, row[start + 8]);
    for n in 0..8 {
        row[start + 1 + n] = bytes[n];
    }
}

// The dots of a tile's row from place `shift` on, eight bytes: the last `shift` dots are those of another byte.
#[inline]
fn moved_row(dots: &[u8], shift: usize, last: u8) -> [u8; 8]
    requires shift { shift ≤ 6 }
    requires dots { length dots.now ≡ 8 }
    ensures pixels { (n k offset : ℕ) → n < 8 → k < 8 → offset < 64 → 8 * n + shift + k ≡ offset
        → bit_at (slice_index result n) k ≡ row_dot dots.now offset }
    ensures rest { (k : ℕ) → k < 8 → 8 ≤ k + shift → bit_at (slice_index result 7) k ≡ bit_at last k }
{
    let row = u64::from_be_bytes([
        dots[0], dots[1], dots[2], dots[3], dots[4], dots[5], dots[6], dots[7],
    ]);
    let kept = last % (1 << shift);
    (row << shift | u64::from(kept)).to_be_bytes()
}

// The same where columns may lie left of the row or past its end.
fn put_cut(row: &mut [u8], width: usize, c: usize, r: usize, skip: usize, shift: usize, dots: &[u8])
    requires width { width ≤ most_columns }
    requires row { length row.old ≡ row_len width }
    requires c { c < most_row_bytes }
    requires skip { skip < 8 }
    requires lean { 2 * r ≡ 8 * skip + shift }
    requires shift { shift ≤ 6 }
    requires dots { length dots.now ≡ 8 }
    ensures { PutsDots width c r width dots.now row.old row.new }
{
    // Byte b takes the tile's offsets from 8 (b + skip - 8 c) + shift on.
    let start = (8 * c).saturating_sub(skip + 1);
    let end = (8 * c + 8 - skip).min(row.len());
    for b in start..end {
        row[b] = put_byte(row[b], dots, b + skip + 1 - 8 * c, shift, width - 8 * b);
    }
}

// A byte of a row whose first dot has the tile's offset 8 n + shift - 8, with the tile's dots at places before
// `most`.
#[inline]
fn put_byte(old: u8, dots: &[u8], n: usize, shift: usize, most: usize) -> u8
    requires dots { length dots.now ≡ 8 }
    requires n { n ≤ 8 }
    requires shift { shift < 8 }
    ensures pixels { (k offset : ℕ) → k < 8
        → k < most → offset < 64 → 8 * n + shift + k ≡ offset + 8 → bit_at result k ≡ row_dot dots.now offset }
    ensures others { (k : ℕ) → k < 8 → ((offset : ℕ) → k < most → offset < 64 → ¬ (8 * n + shift + k ≡ offset + 8))
        → bit_at result k ≡ bit_at old k }
{
    let left = if n > 0 { dots[n - 1] } else { 0 };
    let right = if n < 8 { dots[n] } else { 0 };
    let from = if n > 0 { 0 } else { 8 - shift };
    let to = if n < 8 { 8 } else { 8 - shift };
    splice(old, eight_from(left, right, shift), from, to.min(most))
}

// A byte with the dots at `from` to `to` - 1 taken from a second byte.
#[inline]
fn splice(old: u8, new: u8, from: usize, to: usize) -> u8
    requires from { from ≤ 8 }
    requires to { to ≤ 8 }
    ensures inside { (k : ℕ) → from ≤ k → k < to → bit_at result k ≡ bit_at new k }
    ensures outside { (k : ℕ) → k < 8 → (k < from) ⊎ (to ≤ k) → bit_at result k ≡ bit_at old k }
{
    if from == 0 && to == 8 {
        return new;
    }
    let mask = (255u16 >> from) as u8 & !((255u16 >> to) as u8);
    old & !mask | new & mask
}
