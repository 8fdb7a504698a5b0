//! Rows of dots laid over planes.
ghost use Rattle.dot_planes.specs.Laying.{Lays, meets as meets_of};
ghost use Rattle.dot_planes.specs.Tables.{row_len as row_len_of};
ghost use Rattle.std.specs.Prelude.{length, ◌+◌, ◌<◌, ◌≡◌, ◌≤◌};

use super::{Planes, row_len};
use crate::bit_rows::{lay_row, row_meets};
use crate::places::{reach, row_start_across};

impl Planes {
    /// Whether one of the first `dots` dots of a packed row meets a dot of an ink in row y, if the packed row begins at
    /// column x. Bits past these dots are ignored.
    pub fn meets(&self, ink: u8, y: u32, x: u32, row: &[u8], dots: u32) -> bool
        requires ink { ink < self.now.inks }
        requires y { y < self.now.rows }
        requires inside { x + dots ≤ self.now.width }
        requires row { length row.now ≡ row_len_of dots }
        ensures { result ≡ meets_of self.now ink y x row.now dots }
    {
        row_meets(self.bytes_of_row(ink, y), x as usize, row, dots as usize)
    }

    /// Turns on the first `dots` dots of a packed row in row y of an ink, from column x on. Bits past these dots are
    /// ignored. All other dots are unchanged.
    pub fn lay(&mut self, ink: u8, y: u32, x: u32, row: &[u8], dots: u32)
        requires ink { ink < self.old.inks }
        requires y { y < self.old.rows }
        requires inside { x + dots ≤ self.old.width }
        requires row { length row.now ≡ row_len_of dots }
        ensures { Lays self.old self.new ink y x row.now dots }
    {
        let len = row_len(self.width);
        let start = row_start_across(self.inks, self.rows, len, ink, y);
        reach(&mut self.bytes, start + len);
        let over = &mut self.bytes[start..start + len];
        lay_row(over, x as usize, row, dots as usize);
    }
}
