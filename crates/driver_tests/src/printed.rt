//! What a job printed on its sheet.
use crate::grid::Grid;
use crate::job_bytes::JobFault;
use std::alloc::Global;
use weave_base::Memory;

/// What a job printed.
#[derive(Drop)]
pub struct Printed {
    /// The dots of black, cyan, magenta and yellow over the window: 1 for a dot, else 0.
    pub dots: [Grid; 4],
    /// How many rasters were fired.
    pub rasters: u32,
    /// How long the sheet is, in 1/3600 inch.
    pub length: i64,
    /// How many sheets were ejected.
    pub sheets: u32,
}

impl Printed {
    /// An empty sheet, with a window of this many columns and rows.
    pub fn make(alloc: Global, (width, height): (i64, i64)) -> Result<Printed, Memory> {
        Ok(Printed {
            dots: [
                Grid::make(alloc, width, height)?,
                Grid::make(alloc, width, height)?,
                Grid::make(alloc, width, height)?,
                Grid::make(alloc, width, height)?,
            ],
            rasters: 0,
            length: 0,
            sheets: 0,
        })
    }

    /// Fires the dots of a byte of a row from this column on, the highest bit first.
    pub fn fire(&mut self, ink: usize, byte: u8, x: i64, y: i64) -> Result<(), JobFault> {
        let mut column = x;
        for mask in [0x80, 0x40, 0x20, 0x10, 8, 4, 2, 1] {
            if byte & mask != 0 {
                self.dot(ink, column, y)?;
            }
            column = column.wrapping_add(1);
        }
        Ok(())
    }

    fn dot(&mut self, ink: usize, x: i64, y: i64) -> Result<(), JobFault> {
        let Some(dots) = self.dots.get_mut(ink) else {
            return Err(JobFault::Number);
        };
        if x < 0 || x >= dots.width || y < 0 || y >= dots.height {
            return Err(JobFault::OffWindow);
        }
        if dots.get(x, y) != 0 {
            return Err(JobFault::FiredTwice);
        }
        dots.set(x, y, 1);
        Ok(())
    }
}
