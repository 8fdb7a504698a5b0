//! Packed planes of dots.
ghost use Rattle.dot_planes.specs.Tables.{IsSize, TurnsOn, dot, packed_row, row_dot, row_len as row_len_of};
ghost use Rattle.dot_planes.specs.Tiles.{PutsTileRow};
ghost use Rattle.base_definitions.specs.Packed.{packed};
ghost use Rattle.base_definitions.specs.Limits.{most_columns, most_row_bytes};
ghost use Rattle.std.specs.List.{count_by, sum_by};
ghost use Rattle.std.specs.Prelude.{IfOk, count_ones, false, length, map, slice_index, ℕ, ◌%◌, ◌*◌, ◌+◌, ◌<◌, ◌≡◌, ◌≤◌};
ghost use Rattle.base_definitions.specs.Counting.{count_from};

mod bands;
mod laying;

use crate::counts::count_row;
use crate::places::{reach, row_or_blank, row_start_across};
use crate::tile_rows::put_dots;
use base_definitions::Memory;
use std::alloc::Global;
use std::marker::Model;
use tile_shape::Place;

/// The dots of a window, of inks in the order of the printer's set. Contracts see a table of dots.
///
/// A row is packed: eight dots a byte, the first in its highest bit, (width + 7) / 8 bytes, and spare bits of 0. Row 0
/// of each ink comes first, then row 1 of each. There is room for all rows, but only the rows up to the last one that
/// was written are stored. The rest are blank, and their memory is untouched.
#[derive(Drop)]
pub struct Planes {
    width: u32,
    rows: u32,
    inks: u8,
    bytes: Vec<u8>,
}

impl Model for Planes {
    ghost use Rattle.dot_planes.specs.Tables.{DotTable};

    ghost Value = { DotTable };

    ghost use Rattle.dot_planes.specs.Planes.{IsTable, table_of};

    ghost view = { table_of };

    ghost invariant = { IsTable };
}

impl Planes {
    /// Planes without dots: 1 to `MOST_COLUMNS` columns, 1 to `MOST_ROWS` rows, 1 to 4 inks.
    pub fn make(alloc: Global, width: u32, rows: u32, inks: u8) -> Result<Planes, Memory>
        requires { IsSize width rows inks }
        ensures width { IfOk result (λ t. t.width ≡ width) }
        ensures rows { IfOk result (λ t. t.rows ≡ rows) }
        ensures inks { IfOk result (λ t. t.inks ≡ inks) }
        ensures blank { IfOk result (λ t. (i y x : ℕ) → dot t i y x ≡ false) }
    {
        let len = row_len(width) * rows as usize * usize::from(inks);
        let bytes = Vec::with_capacity(alloc, len)?;
        Ok(Planes {
            width,
            rows,
            inks,
            bytes,
        })
    }

    /// Columns.
    pub fn width(&self) -> u32
        ensures { result ≡ self.now.width }
    {
        self.width
    }

    /// Rows of each ink.
    pub fn rows(&self) -> u32
        ensures { result ≡ self.now.rows }
    {
        self.rows
    }

    /// The number of inks.
    pub fn inks(&self) -> u8
        ensures { result ≡ self.now.inks }
    {
        self.inks
    }

    /// A row of an ink, packed.
    pub fn row(&self, ink: u8, y: u32) -> &[u8]
        requires ink { ink < self.now.inks }
        requires y { y < self.now.rows }
        ensures { result.now ≡ packed (map (dot self.now ink y) (count_from 0 self.now.width)) }
    {
        self.bytes_of_row(ink, y)
    }

    // The same by its bytes.
    pub(crate) fn bytes_of_row(&self, ink: u8, y: u32) -> &[u8]
        requires ink { ink < self.now.inks }
        requires y { y < self.now.rows }
        ensures is { result.now ≡ packed_row self.now ink y }
        ensures spare { (x : ℕ) → self.now.width ≤ x → row_dot result.now x ≡ false }
        ensures len { length result.now ≡ row_len_of self.now.width }
        ensures most { self.now.width ≤ most_columns }
        ensures bytes { (k : ℕ) → slice_index result.now k < 256 }
    {
        let len = row_len(self.width);
        let start = row_start_across(self.inks, self.rows, len, ink, y);
        row_or_blank(&self.bytes, len, start)
    }

    /// Whether an ink has a dot in row y at column x.
    pub fn dot(&self, ink: u8, x: u32, y: u32) -> bool
        requires ink { ink < self.now.inks }
        requires x { x < self.now.width }
        requires y { y < self.now.rows }
        ensures { result ≡ dot self.now ink y x }
    {
        self.bytes_of_row(ink, y)[x as usize / 8] >> (7 - x % 8) & 1 == 1
    }

    /// Turns on the dot of an ink in row y at column x, which may be on already. All other dots are unchanged.
    pub fn turn_on(&mut self, ink: u8, x: u32, y: u32)
        requires ink { ink < self.old.inks }
        requires x { x < self.old.width }
        requires y { y < self.old.rows }
        ensures { TurnsOn self.old self.new ink y x }
    {
        let len = row_len(self.width);
        let start = row_start_across(self.inks, self.rows, len, ink, y);
        reach(&mut self.bytes, start + len);
        self.bytes[start + x as usize / 8] |= 1 << (7 - x % 8);
    }

    // Sets the dots of row r of a tile, eight bytes, in a slab that begins at row `at`, on or off. All other dots are
    // unchanged.
    pub(crate) fn put_tile_row(&mut self, ink: u8, at: u32, place: Place, r: u32, dots: &[u8])
        requires ink { ink < self.old.inks }
        requires row { at + (32 * place.j + r) < self.old.rows }
        requires column { 64 * place.c < self.old.width + 62 }
        requires r { r < 32 }
        requires dots { length dots.now ≡ 8 }
        ensures { PutsTileRow self.old self.new ink (at + (32 * place.j + r)) place.c r dots.now }
    {
        let len = row_len(self.width);
        let start = row_start_across(self.inks, self.rows, len, ink, at + (32 * place.j + r));
        reach(&mut self.bytes, start + len);
        let row = &mut self.bytes[start..start + len];
        put_dots(row, self.width as usize, place.c as usize, r as usize, dots);
    }

    /// The number of dots of an ink.
    pub fn count(&self, ink: u8) -> u64
        requires { ink < self.now.inks }
        ensures { result ≡ sum_by
            (λ y. count_by (λ x. dot self.now ink y x) (count_from 0 self.now.width)) (count_from 0 self.now.rows) }
    {
        let mut dots = 0u64;
        for y in 0..self.rows {
            dots += u64::from(count_row(self.row(ink, y)));
        }
        dots
    }
}

// The bytes of a row.
#[inline]
fn row_len(width: u32) -> usize
    requires { width ≤ most_columns }
    ensures is { result ≡ row_len_of width }
    ensures most { result ≤ most_row_bytes }
{
    (width as usize + 7) / 8
}
