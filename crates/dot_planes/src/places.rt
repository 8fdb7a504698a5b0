//! Where the rows of inks begin in a table's bytes.
ghost use Rattle.dot_planes.specs.Tables.{row_at};
ghost use Rattle.base_definitions.specs.Limits.{most_columns, most_row_bytes, most_rows};
ghost use Rattle.std.specs.Prelude.{length, replicate, slice_index, vec_capacity, ℕ, ◌*◌, ◌++◌, ◌+◌, ◌-◌, ◌<◌, ◌≡◌};
ghost use Rattle.std.specs.Prelude.{◌≤◌};

use base_definitions::MOST_ROW_BYTES;

// The widest row, without dots.
const BLANK: [u8; MOST_ROW_BYTES] = [0; MOST_ROW_BYTES];

/// The index of the first byte of row y of an ink, in a table of `inks` inks with `rows` rows of `len` bytes each.
#[inline]
pub(crate) fn row_start(inks: u8, rows: u32, len: usize, ink: u8, y: u32) -> usize
    requires inks { inks ≤ 4 }
    requires rows { rows ≤ most_rows }
    requires len { len ≤ most_columns }
    requires ink { ink < inks }
    requires y { y < rows }
    ensures is { result ≡ (ink * rows + y) * len }
    ensures inside { result + len ≤ inks * rows * len }
{
    (usize::from(ink) * rows as usize + y as usize) * len
}

/// The same if row 0 of each ink comes first, then row 1 of each.
#[inline]
pub(crate) fn row_start_across(inks: u8, rows: u32, len: usize, ink: u8, y: u32) -> usize
    requires inks { inks ≤ 4 }
    requires rows { rows ≤ most_rows }
    requires len { len ≤ most_columns }
    requires ink { ink < inks }
    requires y { y < rows }
    ensures is { result ≡ (y * inks + ink) * len }
    ensures inside { result + len ≤ inks * rows * len }
{
    (y as usize * usize::from(inks) + usize::from(ink)) * len
}

/// The row of `len` bytes that begins at an index.
#[inline]
pub(crate) fn row_of(bytes: &[u8], len: usize, start: usize) -> &[u8]
    requires { start + len ≤ length bytes.now }
    ensures row { (n : ℕ) → start ≡ n * len → result.now ≡ row_at len bytes.now n }
    ensures len { length result.now ≡ len }
    ensures bytes { (k : ℕ) → slice_index result.now k < 256 }
{
    &bytes[start..start + len]
}

/// The row of `len` bytes that begins at an index, or a blank row if the bytes end before it.
#[inline]
pub(crate) fn row_or_blank(bytes: &[u8], len: usize, start: usize) -> &[u8]
    requires most { len ≤ most_row_bytes }
    requires whole { start < length bytes.now → start + len ≤ length bytes.now }
    ensures row { (n more : ℕ) → start ≡ n * len → start + len ≤ length bytes.now + more
        → result.now ≡ row_at len (bytes.now ++ replicate more 0) n }
    ensures len { length result.now ≡ len }
    ensures bytes { (k : ℕ) → slice_index result.now k < 256 }
{
    if start < bytes.len() {
        row_of(bytes, len, start)
    } else {
        &BLANK[..len]
    }
}

/// Fills bytes up to an index with 0, if they end before it. They have room, so no memory is allocated.
#[inline]
pub(crate) fn reach(bytes: &mut Vec<u8>, end: usize)
    requires { end ≤ vec_capacity bytes.old }
    ensures items { bytes.new.items ≡ bytes.old.items ++ replicate (end - length bytes.old.items) 0 }
    ensures capacity { vec_capacity bytes.old ≤ vec_capacity bytes.new }
{
    if bytes.len() < end {
        bytes.resize(end, 0).unwrap();
    }
}

/// A byte is below 256.
#[inline]
pub(crate) fn are_bytes(bytes: &[u8])
    ensures { (k : ℕ) → slice_index bytes.now k < 256 }
{}
