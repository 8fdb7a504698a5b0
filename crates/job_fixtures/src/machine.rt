//! A slow emulator of the printer `tiny`: it runs commands dot by dot, and is independent of the driver.
use crate::reader::{Name, Said};
use std::alloc::{AllocError, Global};

/// From column to column and from row to row, in 1/3600 inch.
const STEP: i64 = 10;

/// Rows from one nozzle to the next, and nozzles.
const PITCH: i64 = 2;

const NOZZLES: i64 = 3;

/// A dot of an ink, at a place in 1/3600 inch. Inks are 0 for black, 1 cyan, 2 magenta and 3 yellow.
#[derive(Clone, Copy, PartialEq, Eq)]
struct Dot {
    ink: i64,
    x: i64,
    y: i64,
}

/// The emulator inside a job. Lengths and places are in 1/3600 inch.
#[derive(Drop)]
pub struct Machine {
    alloc: Global,
    graphics: bool,
    unit: Option<i64>,
    page: Option<i64>,
    margins: Option<(i64, i64)>,
    ink: i64,
    down: i64,
    across: i64,
    columns: i64,
    dots: Vec<Dot>,
}

impl Machine {
    /// The emulator at the start of a job.
    pub fn start(alloc: Global) -> Machine {
        Machine {
            alloc,
            graphics: false,
            unit: None,
            page: None,
            margins: None,
            ink: 0,
            down: 0,
            across: 0,
            columns: 1,
            dots: Vec::new(alloc),
        }
    }

    // One of a command's numbers, in units.
    fn units(&self, said: &Said, i: usize) -> i64 {
        said.number(i).wrapping_mul(self.unit.unwrap_or(0))
    }

    fn from_top(&self) -> i64 {
        self.margins.unwrap_or((0, 0)).0.wrapping_add(self.down)
    }

    // The dots that a raster fires.
    fn raster_dots(&self, said: &Said) -> Result<Vec<Dot>, AllocError> {
        let mut dots = Vec::new(self.alloc);
        let width = said.number(4).wrapping_add(7).div_euclid(8);
        let mut place: i64 = 0;
        for byte in said.rows.iter() {
            let row = place.checked_div_euclid(width).unwrap_or(0);
            let column = place.checked_rem_euclid(width).unwrap_or(0).wrapping_mul(8);
            let y = self
                .from_top()
                .wrapping_add(row.wrapping_mul(said.number(1)));
            self.add_dots(said, *byte, column, y, &mut dots)?;
            place = place.wrapping_add(1);
        }
        Ok(dots)
    }

    /// How many dots a raster has.
    pub fn dot_count(alloc: Global, said: &Said) -> Result<usize, AllocError> {
        Ok(Machine::start(alloc).raster_dots(said)?.len())
    }

    // Appends the dots of a byte, the first of which is in this column of the raster.
    fn add_dots(
        &self,
        said: &Said,
        byte: u8,
        column: i64,
        y: i64,
        dots: &mut Vec<Dot>,
    ) -> Result<(), AllocError> {
        let mut column = column;
        for mask in [0x80, 0x40, 0x20, 0x10, 8, 4, 2, 1] {
            if byte & mask != 0 && column < said.number(4) {
                let x = self
                    .across
                    .wrapping_add(column.wrapping_mul(said.number(2)));
                dots.push(Dot {
                    ink: self.ink,
                    x,
                    y,
                })?;
            }
            column = column.wrapping_add(1);
        }
        Ok(())
    }

    // Whether one of these dots is at or below the bottom margin.
    fn is_below(&self, dots: &[Dot]) -> bool {
        let (_, bottom) = self.margins.unwrap_or((0, 0));
        let mut is_below = false;
        for dot in dots {
            is_below |= dot.y >= bottom;
        }
        is_below
    }

    // Whether one of these dots was fired before.
    fn is_fired(&self, dots: &[Dot]) -> bool {
        let mut is_fired = false;
        for dot in dots {
            is_fired |= self.dots.contains(dot);
        }
        is_fired
    }

    fn raster_fault(&self, said: &Said, dots: &[Dot]) -> Option<&'static str> {
        let end = self.across.div_euclid(STEP).wrapping_add(said.number(4));
        let tests = [
            (!self.graphics, "NotGraphics"),
            (self.unit.is_none(), "NoUnit"),
            (self.margins.is_none(), "NoMargins"),
            (
                said.number(2) != STEP || said.number(1) != STEP * PITCH,
                "Density",
            ),
            (said.number(3) != NOZZLES, "Rows"),
            (
                self.across.rem_euclid(STEP) != 0 || self.from_top().rem_euclid(STEP) != 0,
                "OffGrid",
            ),
            (end > 8191 || self.is_below(dots), "OffSheet"),
            (self.is_fired(dots), "Overprint"),
        ];
        first_of(&tests)
    }

    // Why the printer refuses a command; for a raster, with these dots.
    fn fault(&self, said: &Said, dots: &[Dot]) -> Option<&'static str> {
        let no_unit = (self.unit.is_none(), "NoUnit");
        let no_page = (self.page.is_none(), "NoMargins");
        let no_margins = (self.margins.is_none(), "NoMargins");
        let dotted = (!self.dots.is_empty(), "Backward");
        let page = self.page.unwrap_or(0);
        let to = self.units(said, 0);
        let top = self.margins.unwrap_or((0, 0)).0;
        match said.name {
            Name::Init => first_of(&[dotted]),
            Name::Length => first_of(&[no_unit, dotted, (to > 79_200, "OffSheet")]),
            Name::Margins => {
                let past = (self.units(said, 1) > page, "OffSheet");
                first_of(&[no_unit, no_page, dotted, past])
            }
            Name::DownTo => {
                let past = (top.wrapping_add(to) > page, "OffSheet");
                first_of(&[no_unit, no_margins, (to < self.down, "Backward"), past])
            }
            Name::DownBy => {
                let past = (self.from_top().wrapping_add(to) > page, "OffSheet");
                first_of(&[no_unit, no_margins, past])
            }
            Name::Across => first_of(&[no_unit]),
            Name::Eject => first_of(&[no_margins]),
            Name::Raster => self.raster_fault(said, dots),
            _ => None,
        }
    }

    // Runs a command that fires no dots.
    fn set(&mut self, said: &Said) {
        let to = self.units(said, 0);
        match said.name {
            Name::Graphics => self.graphics = true,
            Name::Unit => self.unit = Some(said.number(0)),
            Name::Length => {
                self.page = Some(to);
                self.margins = None;
                self.down = 0;
                self.across = 0;
            }
            Name::Margins => {
                self.margins = Some((to, self.units(said, 1)));
                self.down = 0;
                self.across = 0;
            }
            Name::DownTo => self.down = to,
            Name::DownBy => self.down = self.down.wrapping_add(to),
            Name::Across => self.across = to,
            Name::Return => self.across = 0,
            Name::Colour => {
                self.ink = match said.number(0) {
                    1 => 2,
                    2 => 1,
                    4 => 3,
                    _ => 0,
                };
            }
            _ => {}
        }
    }

    fn fire(&mut self, said: &Said, dots: &[Dot]) -> Result<(), AllocError> {
        let end = self.across.div_euclid(STEP).wrapping_add(said.number(4));
        self.columns = self.columns.max(end);
        let width = said.number(4).wrapping_mul(said.number(2));
        self.across = self.across.wrapping_add(width);
        self.dots.extend_from_slice(dots)
    }

    // Appends the images of the sheet, and begins the next one.
    fn eject(&mut self, images: &mut Vec<u8>) -> Result<(), AllocError> {
        let rows = self
            .page
            .unwrap_or(0)
            .wrapping_add(STEP - 1)
            .div_euclid(STEP);
        for ink in 0..4 {
            let header = format!(in self.alloc; "P4\n{} {}\n", self.columns, rows)?;
            images.extend_from_slice(header.as_bytes())?;
            for y in 0..rows {
                self.add_row(ink, y, images)?;
            }
        }
        self.columns = 1;
        self.dots.clear();
        self.down = 0;
        self.across = 0;
        Ok(())
    }

    // Appends a row of an image.
    fn add_row(&self, ink: i64, y: i64, images: &mut Vec<u8>) -> Result<(), AllocError> {
        let mut column: i64 = 0;
        for _ in 0..self.columns.wrapping_add(7).div_euclid(8) {
            let mut byte = 0;
            for mask in [0x80, 0x40, 0x20, 0x10, 8, 4, 2, 1] {
                let dot = Dot {
                    ink,
                    x: column.wrapping_mul(STEP),
                    y: y.wrapping_mul(STEP),
                };
                if self.dots.contains(&dot) {
                    byte |= mask;
                }
                column = column.wrapping_add(1);
            }
            images.push(byte)?;
        }
        Ok(())
    }

    /// Runs a command, appends the images of the sheet that it ejects, and gives the fault for which it is refused.
    pub fn run(
        &mut self,
        said: &Said,
        images: &mut Vec<u8>,
    ) -> Result<Option<&'static str>, AllocError> {
        let dots = self.raster_dots(said)?;
        let fault = self.fault(said, dots.as_slice());
        if fault.is_some() {
            return Ok(fault);
        }
        match said.name {
            Name::Init => *self = Machine::start(self.alloc),
            Name::Eject => self.eject(images)?,
            Name::Raster => self.fire(said, dots.as_slice())?,
            _ => self.set(said),
        }
        Ok(None)
    }
}

// The fault of the first test that holds.
fn first_of(tests: &[(bool, &'static str)]) -> Option<&'static str> {
    for (holds, fault) in tests {
        if *holds {
            return Some(*fault);
        }
    }
    None
}
