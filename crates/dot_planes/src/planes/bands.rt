//! Bands of tiles, put into planes.
ghost use Rattle.dot_planes.specs.Bands.{ClearsRows, PutsBand, PutsBandInk, PutsBandRow};
ghost use Rattle.dot_planes.specs.Tiles.{slab_of};
ghost use Rattle.base_definitions.specs.Limits.{most_row_bytes, most_rows};
ghost use Rattle.std.specs.Prelude.{length, ◌*◌, ◌+◌, ◌<◌, ◌≡◌, ◌≤◌};
ghost use Rattle.tile_shape.specs.Geometry.{columns_of};

use super::{Planes, row_len};
use crate::band_rows::{MOST_BAND_BYTES, clear_dots, have_no_dots, put_side_by_side, put_wide};
use crate::places::{reach, row_start_across};
use crate::tiles::TileDots;

impl Planes {
    /// Sets all dots of band j of the slab of `height` rows that begins at row `at`, on or off as the band's tiles have
    /// them. The tiles are listed by column. All rows outside of the band are unchanged.
    pub fn put_band(&mut self, at: u32, height: u32, j: u32, tiles: &[TileDots])
        requires height { 1 ≤ height }
        requires slab { at + height ≤ self.old.rows }
        requires band { 32 * j < height }
        requires tiles { length tiles.now ≡ columns_of (slab_of self.old height) }
        ensures { PutsBand self.old self.new at height j tiles.now }
    {
        let mut wide = [0; MOST_BAND_BYTES];
        let rows = (height - 32 * j).min(32);
        for ink in 0..self.inks {
            if have_no_dots(tiles, ink) {
                self.clear_rows(ink, at + 32 * j, rows);
            } else {
                self.put_band_ink(at + 32 * j, rows, ink, tiles, &mut wide);
            }
        }
    }

    // Turns off all dots of an ink in `rows` rows from row `first` on.
    fn clear_rows(&mut self, ink: u8, first: u32, rows: u32)
        requires slab { first + rows ≤ self.old.rows }
        requires most { first + rows ≤ most_rows }
        requires ink { ink < self.old.inks }
        ensures { ClearsRows self.old self.new ink first rows }
    {
        for r in 0..rows {
            self.clear_row(ink, first + r);
        }
    }

    // Turns off all dots of a row of an ink. A row that is not stored has none.
    fn clear_row(&mut self, ink: u8, y: u32)
        requires ink { ink < self.old.inks }
        requires y { y < self.old.rows }
        ensures { ClearsRows self.old self.new ink y 1 }
    {
        let len = row_len(self.width);
        let start = row_start_across(self.inks, self.rows, len, ink, y);
        if start < self.bytes.len() {
            clear_dots(&mut self.bytes[start..start + len]);
        }
    }

    // The same for the `rows` rows of one ink, which begin at row `first`.
    fn put_band_ink(&mut self, first: u32, rows: u32, ink: u8, tiles: &[TileDots], wide: &mut [u8])
        requires rows { rows ≤ 32 }
        requires slab { first + rows ≤ self.old.rows }
        requires most { first + rows ≤ most_rows }
        requires ink { ink < self.old.inks }
        requires tiles { 8 * length tiles.now ≤ most_row_bytes + 16 }
        requires enough { self.old.width + 62 ≤ 64 * length tiles.now }
        requires wide { length wide.old ≡ most_row_bytes + 16 }
        ensures { PutsBandInk self.old self.new first rows ink tiles.now }
    {
        for r in 0..rows {
            put_side_by_side(wide, tiles, ink, r as usize);
            self.put_band_row(ink, first + r, r, wide);
        }
    }

    // Sets all dots of row y of an ink to those of row r of a band. All other rows are unchanged.
    fn put_band_row(&mut self, ink: u8, y: u32, r: u32, wide: &[u8])
        requires ink { ink < self.old.inks }
        requires y { y < self.old.rows }
        requires r { r < 32 }
        requires wide { length wide.now ≡ most_row_bytes + 16 }
        ensures { PutsBandRow self.old self.new ink y r wide.now }
    {
        let len = row_len(self.width);
        let start = row_start_across(self.inks, self.rows, len, ink, y);
        reach(&mut self.bytes, start + len);
        let row = &mut self.bytes[start..start + len];
        put_wide(row, self.width as usize, r as usize, wide);
    }
}
