//! Grids of numbers, for the slow programs.
use std::alloc::Global;
use weave_base::Memory;

/// Numbers by column and row, counted from 0. Outside the grid they are 0.
#[derive(Drop)]
pub struct Grid {
    pub width: i64,
    pub height: i64,
    cells: Vec<i16>,
}

impl Grid {
    /// A grid of zeros.
    pub fn make(alloc: Global, width: i64, height: i64) -> Result<Grid, Memory> {
        let mut cells = Vec::new(alloc);
        let count = usize::try_from(width.wrapping_mul(height)).unwrap_or(0);
        if cells.resize(count, 0).is_err() {
            return Err(Memory);
        }
        Ok(Grid {
            width,
            height,
            cells,
        })
    }

    // The index of a cell in the list, if it is on the grid.
    fn place(&self, x: i64, y: i64) -> Option<usize> {
        if x < 0 || x >= self.width || y < 0 || y >= self.height {
            return None;
        }
        usize::try_from(y.wrapping_mul(self.width).wrapping_add(x)).ok()
    }

    /// The number of a cell.
    pub fn get(&self, x: i64, y: i64) -> i64 {
        match self.place(x, y) {
            Some(place) => i64::from(self.cells.get(place).copied().unwrap_or(0)),
            None => 0,
        }
    }

    /// Writes the number of a cell, of 16 bits. Outside the grid nothing is written.
    pub fn set(&mut self, x: i64, y: i64, number: i64) {
        if let Some(place) = self.place(x, y) {
            if let Some(cell) = self.cells.get_mut(place) {
                *cell = i16::try_from(number).unwrap_or(i16::MAX);
            }
        }
    }

    /// The sum of all its numbers.
    pub fn sum(&self) -> i64 {
        let mut sum: i64 = 0;
        for cell in self.cells.iter() {
            sum = sum.wrapping_add(i64::from(*cell));
        }
        sum
    }

    /// All its numbers, row by row.
    pub fn cells(&self) -> &[i16] {
        self.cells.as_slice()
    }
}
