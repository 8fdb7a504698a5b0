//! A row of all tiles of a band, laid over a packed row at once.
ghost use Rattle.dot_planes.specs.Bands.{HasTileRow, HasTileRows, HaveNoDots};
ghost use Rattle.dot_planes.specs.Tables.{row_dot, row_len};
ghost use Rattle.base_definitions.specs.Limits.{most_columns, most_row_bytes};
ghost use Rattle.std.specs.Prelude.{[], false, length, slice_index, slice_index_or, true, ℕ, ◌*◌, ◌+◌, ◌<◌, ◌≡◌, ◌≤◌};

use crate::bit_rows::{row_eight, row_part};
use crate::counts::are_zero;
use crate::places::are_bytes;
use crate::tiles::{NO_DOTS, TileDots};
use base_definitions::MOST_ROW_BYTES;

/// The bytes of a row of the widest band: the skew moves a row by up to 62 columns, and the last tile has up to 63
/// columns more than the row.
pub(crate) const MOST_BAND_BYTES: usize = MOST_ROW_BYTES + 16;

// The bytes of an ink of a tile. An ink that the tile does not have has no dots.
#[inline(always)]
fn tile_ink(tile: &TileDots, ink: u8) -> &[u8; 256]
    ensures { (k : ℕ) → row_dot result.now k ≡ row_dot (slice_index_or tile.now.bits ink []) k }
{
    if ink < tile.bits.inks() {
        tile.bits.ink(ink)
    } else {
        &NO_DOTS
    }
}

// The eight bytes of row r of a tile.
#[inline(always)]
fn tile_row(tile: &TileDots, ink: u8, r: usize) -> &[u8]
    requires { r < 32 }
    ensures dots { HasTileRow result.now tile.now ink r }
    ensures len { length result.now ≡ 8 }
{
    &tile_ink(tile, ink)[8 * r..8 * r + 8]
}

/// Whether no tile has a dot of an ink.
pub(crate) fn have_no_dots(tiles: &[TileDots], ink: u8) -> bool
    ensures { result ≡ true → HaveNoDots tiles.now ink (length tiles.now) }
{
    for c in 0..tiles.len() {
        if !are_zero(tile_ink(&tiles[c], ink)) {
            return false;
        }
    }
    true
}

// Puts the eight bytes of a tile at its column.
#[inline(always)]
fn put_eight(wide: &mut [u8], c: usize, dots: &[u8])
    requires dots { length dots.now ≡ 8 }
    requires c { 8 * c + 8 ≤ length wide.old }
    ensures here { (offset : ℕ) → offset < 64 → row_dot wide.new (64 * c + offset) ≡ row_dot dots.now offset }
    ensures left { (x : ℕ) → x < 64 * c → row_dot wide.new x ≡ row_dot wide.old x }
{
    wide[8 * c..8 * c + 8].copy_from_slice(dots);
}

/// Puts row r of each tile of a band side by side.
pub(crate) fn put_side_by_side(wide: &mut [u8], tiles: &[TileDots], ink: u8, r: usize)
    requires room { 8 * length tiles.now ≤ length wide.old }
    requires r { r < 32 }
    ensures { HasTileRows wide.new tiles.now ink r (length tiles.now) }
{
    for (c, tile) in tiles.iter().enumerate() {
        put_eight(wide, c, tile_row(tile, ink, r));
    }
}

// Sets each byte of a row to eight dots from place `shift` on. The steps are independent, so that the compiler can
// vectorise them.
#[inline(always)]
fn take_eights(row: &mut [u8], from: &[u8], shift: usize)
    requires shift { shift ≤ 8 }
    requires len { length from.now ≡ length row.old + 1 }
    ensures { (x : ℕ) → x < 8 * length row.new → row_dot row.new x ≡ row_dot from.now (x + shift) }
{
    for b in 0..row.len() {
        row[b] = row_eight(from, b, shift);
    }
}

// The same by 2 `step` places: where these are known, the compiler moves bytes, and no wider numbers.
fn take_steps(row: &mut [u8], from: &[u8], step: usize)
    requires step { step < 4 }
    requires len { length from.now ≡ length row.old + 1 }
    ensures { (x : ℕ) → x < 8 * length row.new → row_dot row.new x ≡ row_dot from.now (x + 2 * step) }
{
    match step {
        0 => take_eights(row, from, 0),
        1 => take_eights(row, from, 2),
        2 => take_eights(row, from, 4),
        _ => take_eights(row, from, 6),
    }
}

/// Turns off all dots of a packed row.
pub(crate) fn clear_dots(row: &mut [u8])
    ensures none { (x : ℕ) → row_dot row.new x ≡ false }
    ensures len { length row.new ≡ length row.old }
    ensures bytes { (k : ℕ) → slice_index row.new k < 256 }
{
    row.fill(0);
    are_bytes(row);
}

// Clears the spare bits of a row.
fn clear_spare(row: &mut [u8], width: usize)
    requires width { 1 ≤ width }
    requires row { length row.old ≡ row_len width }
    ensures dots { (x : ℕ) → x < width → row_dot row.new x ≡ row_dot row.old x }
    ensures spare { (x : ℕ) → width ≤ x → row_dot row.new x ≡ false }
{
    let last = row.len() - 1;
    row[last] = row_part(row, width, last);
}

/// Sets all dots of a packed row of `width` columns to those of row r of a band, whose tiles' bytes stand side by side.
pub(crate) fn put_wide(row: &mut [u8], width: usize, r: usize, wide: &[u8])
    requires some { 1 ≤ width }
    requires width { width ≤ most_columns }
    requires row { length row.old ≡ row_len width }
    requires r { r < 32 }
    requires wide { length wide.now ≡ most_row_bytes + 16 }
    ensures dots { (x : ℕ) → x < width → row_dot row.new x ≡ row_dot wide.now (x + 2 * r) }
    ensures spare { (x : ℕ) → width ≤ x → row_dot row.new x ≡ false }
    ensures len { length row.new ≡ length row.old }
    ensures bytes { (k : ℕ) → slice_index row.new k < 256 }
{
    let skip = r / 4;
    take_steps(row, &wide[skip..skip + row.len() + 1], r % 4);
    clear_spare(row, width);
    are_bytes(row);
}
