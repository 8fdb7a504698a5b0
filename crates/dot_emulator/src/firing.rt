//! The dots that a raster fires.
ghost use Rattle.dot_emulator.specs.Current.{inks_of, meets_in, rows_or, width_of};
ghost use Rattle.dot_planes.specs.Laying.{has_dot as has_dot_of};
ghost use Rattle.dot_planes.specs.Tables.{HasSizeOf};
ghost use Rattle.escp2_definitions.specs.Commands.{last_column, row_bytes};
ghost use Rattle.printer_definitions.specs.Inks.{ink_place};
ghost use Rattle.base_definitions.specs.Limits.{most_rows};
ghost use Rattle.std.specs.Prelude.{drop, length, nat_le, nat_lt, take, ◌&&◌, ◌*◌, ◌+◌, ◌<◌, ◌||◌, ◌≡◌, ◌≤◌};

use crate::{EmulatorFault, RasterHead};
use dot_planes::{Planes, has_dot};
use printer_definitions::Ink;

/// A raster in columns and rows of its sheet.
#[derive(Clone, Copy)]
pub(crate) struct Raster {
    pub(crate) header: RasterHead,
    pub(crate) ink: Ink,
    /// The column of its first dots.
    pub(crate) x: u32,
    /// The row of its first dots.
    pub(crate) y: u32,
    /// The distance between two of its rows.
    pub(crate) pitch: u8,
    /// The first row of the sheet at or below the bottom margin.
    pub(crate) end: u32,
    ghost y_most: { y ≤ 2 * most_rows },
    ghost end_most: { end ≤ most_rows },
    ghost x_most: { x + header.n ≤ last_column },
}

// The place of an ink among the planes of a sheet.
fn plane_of(ink: Ink) -> u8
    ensures is { result ≡ ink_place ink }
    ensures low { result < 4 }
{
    match ink {
        Ink::Black => 0,
        Ink::Cyan => 1,
        Ink::Magenta => 2,
        Ink::Yellow => 3,
    }
}

// What was seen of the dots of a raster.
#[derive(Clone, Copy)]
struct RowsSeen {
    // There is a dot.
    some: bool,
    // One is at or below the bottom margin.
    below: bool,
    // One above the margin is in the planes already.
    over: bool,
}

impl Raster {
    ghost use Rattle.dot_emulator.specs.Firing.{Grid, HasRows, IsAbove, IsLooked, PlanesHave, Stands, fired};
    ghost use Rattle.dot_emulator.specs.Sheets.{HasPlaces, IsKeptFrom};
    ghost use Rattle.escp2_definitions.specs.Machine.{Dot};
    ghost use Rattle.std.specs.Prelude.{List, ◌++◌};

    // The bytes of its row i.
    #[inline]
    fn row<'a>(&self, rows: &'a [u8], i: u8) -> &'a [u8]
        requires rows { HasRows self.now rows.now }
        requires i { i < self.now.header.m }
        ensures is { result.now ≡ take (row_bytes self.now.header) (drop (i * row_bytes self.now.header) rows.now) }
        ensures len { length result.now ≡ row_bytes self.now.header }
    {
        let len = (usize::from(self.header.n) + 7) / 8;
        let start = usize::from(i) * len;
        &rows[start..start + len]
    }

    // The row of the sheet where its row i is.
    #[inline]
    fn row_at(&self, i: u8) -> u32
        ensures { result ≡ self.now.y + i * self.now.pitch }
    {
        self.y + u32::from(i) * u32::from(self.pitch)
    }

    // Whether a row of it has a dot.
    #[inline]
    fn has_dot(&self, row: &[u8]) -> bool
        requires { length row.now ≡ row_bytes self.now.header }
        ensures { result ≡ has_dot_of row.now self.now.header.n }
    {
        has_dot(row, usize::from(self.header.n))
    }

    // Whether one of the dots of a row of it, at row y of the sheet, is in the planes already.
    #[inline]
    fn is_over(&self, y: u32, row: &[u8], planes: &Option<Planes>) -> bool
        requires row { length row.now ≡ row_bytes self.now.header }
        requires inks { inks_of planes.now ≡ 4 }
        requires width { width_of planes.now ≡ last_column }
        requires y { y < rows_or self.now.end planes.now }
        ensures { result ≡ meets_in planes.now (ink_place self.now.ink) y self.now.x row.now self.now.header.n }
    {
        match planes {
            Some(planes) => planes.meets(
                plane_of(self.ink),
                y,
                self.x,
                row,
                u32::from(self.header.n),
            ),
            None => false,
        }
    }

    // What was seen, with the dots of one row more, at row y of the sheet.
    #[inline]
    fn see(&self, seen: RowsSeen, y: u32, row: &[u8], planes: &Option<Planes>) -> RowsSeen
        requires row { length row.now ≡ row_bytes self.now.header }
        requires inks { inks_of planes.now ≡ 4 }
        requires width { width_of planes.now ≡ last_column }
        requires height { self.now.end ≤ rows_or self.now.end planes.now }
        ensures some { result.some ≡ (seen.some || has_dot_of row.now self.now.header.n) }
        ensures below { result.below
            ≡ (seen.below || (nat_le self.now.end y && has_dot_of row.now self.now.header.n)) }
        ensures over { result.over ≡ (seen.over || (nat_lt y self.now.end
            && meets_in planes.now (ink_place self.now.ink) y self.now.x row.now self.now.header.n)) }
    {
        RowsSeen {
            some: seen.some || self.has_dot(row),
            below: seen.below || self.end <= y && self.has_dot(row),
            over: seen.over || y < self.end && self.is_over(y, row, planes),
        }
    }

    /// Looks at the raster's dots over the planes of the sheet so far. Returns whether the raster has a dot, or why its
    /// dots are refused.
    pub(crate) fn look(&self, rows: &[u8], planes: &Option<Planes>) -> Result<bool, EmulatorFault>
        requires rows { HasRows self.now rows.now }
        requires inks { inks_of planes.now ≡ 4 }
        requires width { width_of planes.now ≡ last_column }
        requires height { self.now.end ≤ rows_or self.now.end planes.now }
        ensures { (g : Grid) (dots : List Dot) → Stands g self.now → PlanesHave g dots planes.now
            → IsLooked g self.now rows.now dots result }
    {
        let mut seen = RowsSeen {
            some: false,
            below: false,
            over: false,
        };
        for i in 0..self.header.m {
            seen = self.see(seen, self.row_at(i), self.row(rows, i), planes);
        }
        if seen.below {
            return Err(EmulatorFault::OffSheet);
        }
        if seen.over {
            return Err(EmulatorFault::Overprint);
        }
        Ok(seen.some)
    }

    /// Adds the raster's dots to the planes.
    pub(crate) fn lay(&self, rows: &[u8], planes: &mut Planes)
        requires rows { HasRows self.now rows.now }
        requires inks { planes.old.inks ≡ 4 }
        requires width { planes.old.width ≡ last_column }
        requires height { self.now.end ≤ planes.old.rows }
        ensures size { HasSizeOf planes.old planes.new }
        ensures beside { IsKeptFrom (self.now.x + self.now.header.n) planes.old planes.new }
        ensures places { (g : Grid) (dots : List Dot) → Stands g self.now → IsAbove g self.now rows.now
            → HasPlaces g.column g.row dots planes.old
            → HasPlaces g.column g.row (dots ++ fired g self.now rows.now) planes.new }
    {
        let ink = plane_of(self.ink);
        let dots = u32::from(self.header.n);
        for i in 0..self.header.m {
            let y = self.row_at(i);
            if y < self.end {
                planes.lay(ink, y, self.x, self.row(rows, i), dots);
            }
        }
    }
}
