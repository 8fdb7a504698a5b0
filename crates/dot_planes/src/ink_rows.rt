//! Rows of amounts.
ghost use Rattle.dot_planes.specs.Tables.{CopiesInkRow, CopiesRow, IsSize, Sets, amount};
ghost use Rattle.tile_shape.specs.Geometry.{IsShape};
ghost use Rattle.std.specs.Prelude.{IfOk, [], length, slice_index, ℕ, ◌+◌, ◌<◌, ◌∷◌, ◌≡◌, ◌≤◌};

use crate::places::{row_of, row_start};
use base_definitions::Memory;
use std::alloc::Global;
use std::marker::Model;
use tile_shape::Shape;

/// Amounts of inks, 0 to 255, ink by ink in the order of the printer's set. Contracts see a table of amounts.
#[derive(Drop)]
pub struct InkRows {
    width: u32,
    pub(crate) rows: u32,
    pub(crate) inks: u8,
    bytes: Vec<u8>,
}

impl Model for InkRows {
    ghost use Rattle.dot_planes.specs.Tables.{AmountTable};

    ghost Value = { AmountTable };

    ghost use Rattle.dot_planes.specs.InkRows.{IsTable, table_of};

    ghost view = { table_of };

    ghost invariant = { IsTable };
}

impl InkRows {
    /// Amounts of 0: 1 to `MOST_COLUMNS` columns, 1 to `MOST_ROWS` rows, 1 to 4 inks.
    pub fn make(alloc: Global, width: u32, rows: u32, inks: u8) -> Result<InkRows, Memory>
        requires { IsSize width rows inks }
        ensures width { IfOk result (λ t. t.width ≡ width) }
        ensures rows { IfOk result (λ t. t.rows ≡ rows) }
        ensures inks { IfOk result (λ t. t.inks ≡ inks) }
        ensures none { IfOk result (λ t. (i y x : ℕ) → amount t i y x ≡ 0) }
    {
        let len = width as usize * rows as usize * usize::from(inks);
        let bytes = vec![in alloc; 0; len]?;
        Ok(InkRows {
            width,
            rows,
            inks,
            bytes,
        })
    }

    /// Leaves room for fewer rows. The contract does not say which amounts the rows then have.
    pub fn shorten(&mut self, rows: u32)
        requires some { 1 ≤ rows }
        requires most { rows ≤ self.old.rows }
        ensures width { self.new.width ≡ self.old.width }
        ensures rows { self.new.rows ≡ rows }
        ensures inks { self.new.inks ≡ self.old.inks }
    {
        let len = self.width as usize * rows as usize * usize::from(self.inks);
        self.bytes.truncate(len);
        self.rows = rows;
    }

    /// Columns.
    pub fn width(&self) -> u32
        ensures { result ≡ self.now.width }
    {
        self.width
    }

    /// Rows of each ink.
    pub fn rows(&self) -> u32
        ensures { result ≡ self.now.rows }
    {
        self.rows
    }

    /// The window that the rows cover.
    pub fn shape(&self) -> Shape
        ensures is { result ≡ record { width = self.now.width; height = self.now.rows } }
        ensures sizes { IsShape result }
    {
        Shape {
            width: self.width,
            height: self.rows,
        }
    }

    /// The number of inks.
    pub fn inks(&self) -> u8
        ensures { result ≡ self.now.inks }
    {
        self.inks
    }

    /// The amounts of an ink in row y, from the left.
    pub fn row(&self, ink: u8, y: u32) -> &[u8]
        requires ink { ink < self.now.inks }
        requires y { y < self.now.rows }
        ensures len { length result.now ≡ self.now.width }
        ensures amounts { (x : ℕ) → slice_index result.now x ≡ amount self.now ink y x }
    {
        let len = self.width as usize;
        let start = row_start(self.inks, self.rows, len, ink, y);
        row_of(&self.bytes, len, start)
    }

    /// The amount of an ink in row y at column x.
    pub fn get(&self, ink: u8, x: u32, y: u32) -> u8
        requires ink { ink < self.now.inks }
        requires x { x < self.now.width }
        requires y { y < self.now.rows }
        ensures { result ≡ amount self.now ink y x }
    {
        self.row(ink, y)[x as usize]
    }

    /// Sets the amount of an ink in row y at column x. All others are unchanged.
    pub fn set(&mut self, ink: u8, x: u32, y: u32, a: u8)
        requires ink { ink < self.old.inks }
        requires x { x < self.old.width }
        requires y { y < self.old.rows }
        ensures { Sets self.old self.new ink y x (a ∷ []) }
    {
        self.put_part(ink, x, y, &[a]);
    }

    /// Sets the amounts of an ink in row y from column x on. All others are unchanged.
    #[inline]
    pub fn put_part(&mut self, ink: u8, x: u32, y: u32, part: &[u8])
        requires ink { ink < self.old.inks }
        requires y { y < self.old.rows }
        requires part { x + length part.now ≤ self.old.width }
        ensures { Sets self.old self.new ink y x part.now }
    {
        let row = row_start(self.inks, self.rows, self.width as usize, ink, y);
        let start = row + x as usize;
        self.bytes[start..start + part.len()].copy_from_slice(part);
    }

    /// Sets row y of each ink to the amounts of another row of it. All other rows are unchanged.
    pub fn copy_row(&mut self, from: u32, y: u32)
        requires from { from < self.old.rows }
        requires y { y < self.old.rows }
        ensures { CopiesRow self.old self.new from y }
    {
        for ink in 0..self.inks() {
            self.copy_ink_row(ink, from, y);
        }
    }

    // The same for one ink.
    fn copy_ink_row(&mut self, ink: u8, from: u32, y: u32)
        requires ink { ink < self.old.inks }
        requires from { from < self.old.rows }
        requires y { y < self.old.rows }
        ensures { CopiesInkRow self.old self.new ink from y }
    {
        let len = self.width as usize;
        let source = row_start(self.inks, self.rows, len, ink, from);
        let start = row_start(self.inks, self.rows, len, ink, y);
        self.bytes.copy_within(source..source + len, start);
    }
}
