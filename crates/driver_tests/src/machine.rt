//! A slow emulator: it executes a job of one page by the command table, and marks each dot that the job fires.
use crate::any_printer::Printer;
use crate::job_bytes::{JobBytes, JobFault};
use crate::printed::Printed;
use std::alloc::Global;

// The numbers of a raster.
#[derive(Clone, Copy)]
struct Raster {
    is_coded: bool,
    row_step: u8,
    column_step: u8,
    rows: u8,
    columns: u16,
}

// The emulator inside a job. Places are in 1/3600 inch.
#[derive(Drop)]
struct Machine<'a> {
    printer: &'a Printer,
    bytes: JobBytes<'a>,
    has_graphics: bool,
    unit: u8,
    top: i64,
    bottom: i64,
    down: i64,
    across: i64,
    ink: usize,
    printed: Printed,
}

impl Machine<'_> {
    // A number of two bytes, in units.
    fn place(&mut self) -> Result<i64, JobFault> {
        let number = self.bytes.wide()?;
        if number > 32_767 {
            return Err(JobFault::Number);
        }
        if self.unit == 0 {
            return Err(JobFault::NoSheet);
        }
        Ok(i64::from(number) * i64::from(self.unit))
    }

    fn command(&mut self, alloc: Global) -> Result<(), JobFault> {
        match self.bytes.byte()? {
            0x1B => self.escape(alloc)?,
            0x0D => self.across = 0,
            0x0C => self.printed.sheets = self.printed.sheets.wrapping_add(1),
            _ => return Err(JobFault::Unknown),
        }
        Ok(())
    }

    fn escape(&mut self, alloc: Global) -> Result<(), JobFault> {
        match self.bytes.byte()? {
            0x40 => {
                self.has_graphics = false;
                self.unit = 0;
                self.bottom = 0;
            }
            0x28 => self.long_command()?,
            0x55 => {
                self.bytes.one_of(&[0, 1])?;
            }
            0x24 => self.across = self.place()?,
            0x72 => self.colour()?,
            0x2E => self.raster(alloc)?,
            _ => return Err(JobFault::Unknown),
        }
        Ok(())
    }

    fn long_command(&mut self) -> Result<(), JobFault> {
        let name = self.bytes.byte()?;
        match (name, self.bytes.wide()?) {
            (0x47, 1) => self.has_graphics = self.bytes.one_of(&[1])? == 1,
            (0x55, 1) => self.unit = self.bytes.byte()?,
            (0x69, 1) => {
                self.bytes.one_of(&[0])?;
            }
            (0x43, 2) => self.printed.length = self.place()?,
            (0x63, 4) => self.margins()?,
            (0x56, 2) => self.down = self.place()?,
            (0x76, 2) => self.down = self.down.wrapping_add(self.place()?),
            _ => return Err(JobFault::Unknown),
        }
        Ok(())
    }

    fn margins(&mut self) -> Result<(), JobFault> {
        self.top = self.place()?;
        self.bottom = self.place()?;
        self.down = 0;
        if self.top < self.bottom && self.bottom <= self.printed.length {
            Ok(())
        } else {
            Err(JobFault::Number)
        }
    }

    fn colour(&mut self) -> Result<(), JobFault> {
        self.ink = match self.bytes.byte()? {
            0 => 0,
            2 => 1,
            1 => 2,
            4 => 3,
            _ => return Err(JobFault::Number),
        };
        Ok(())
    }

    fn raster(&mut self, alloc: Global) -> Result<(), JobFault> {
        let raster = Raster {
            is_coded: self.bytes.one_of(&[0, 1])? == 1,
            row_step: self.bytes.byte()?,
            column_step: self.bytes.byte()?,
            rows: self.bytes.byte()?,
            columns: self.bytes.wide()?,
        };
        if raster.columns == 0 || raster.columns > 8191 {
            return Err(JobFault::Number);
        }
        let (x, y) = self.corner(raster)?;
        self.printed.rasters = self.printed.rasters.wrapping_add(1);
        for nozzle in 0..raster.rows {
            let below = i64::from(nozzle) * i64::from(self.printer.pitch);
            self.row(alloc, raster, x, y.wrapping_add(below))?;
        }
        let width = i64::from(raster.columns) * i64::from(raster.column_step);
        self.across = self.across.wrapping_add(width);
        Ok(())
    }

    // From one of the printer's rows to the next.
    fn row_step(&self) -> i64 {
        i64::from(3600u16.checked_div(self.printer.vdpi).unwrap_or(0))
    }

    // The column and the row of the window where a raster begins; a row above the window is negative.
    fn corner(&self, raster: Raster) -> Result<(i64, i64), JobFault> {
        if !self.has_graphics || self.unit == 0 || self.bottom == 0 || self.printed.sheets > 0 {
            return Err(JobFault::NoSheet);
        }
        let row_step = self.row_step();
        let is_printers = u16::from(raster.column_step).checked_mul(self.printer.hdpi) == Some(3600)
            && i64::from(raster.row_step) == row_step.wrapping_mul(i64::from(self.printer.pitch))
            && raster.rows == self.printer.nozzles;
        let column_step = i64::from(raster.column_step);
        let from_top = self.top.wrapping_add(self.down);
        let is_on_grid = self.across.checked_rem(column_step) == Some(0)
            && from_top.checked_rem(row_step) == Some(0);
        if !is_printers || !is_on_grid {
            return Err(JobFault::OffGrid);
        }
        let column = self.across.checked_div(column_step).unwrap_or(0);
        let row = from_top.checked_div(row_step).unwrap_or(0);
        Ok((column, row.wrapping_sub(i64::from(self.printer.top))))
    }

    // One row of a raster, from this column and row of the window on.
    fn row(&mut self, alloc: Global, raster: Raster, x: i64, y: i64) -> Result<(), JobFault> {
        let width = (usize::from(raster.columns) + 7) / 8;
        let bytes = if raster.is_coded {
            self.bytes.coded_row(alloc, width)?
        } else {
            self.bytes.plain_row(alloc, width)?
        };
        let from_top = y
            .wrapping_add(i64::from(self.printer.top))
            .wrapping_mul(self.row_step());
        let mut column = x;
        for byte in bytes.iter() {
            if from_top >= self.bottom && *byte != 0 {
                return Err(JobFault::OffWindow);
            }
            self.printed.fire(self.ink, *byte, column, y)?;
            column = column.wrapping_add(8);
        }
        Ok(())
    }
}

/// What a job of one page prints over a window of this many columns and rows.
pub fn execute(
    alloc: Global,
    printer: &Printer,
    window: (i64, i64),
    job: &[u8],
) -> Result<Printed, JobFault> {
    let mut machine = Machine {
        printer,
        bytes: JobBytes { rest: job },
        has_graphics: false,
        unit: 0,
        top: 0,
        bottom: 0,
        down: 0,
        across: 0,
        ink: 0,
        printed: Printed::make(alloc, window)?,
    };
    for _ in 0..job.len() {
        if !machine.bytes.rest.is_empty() {
            machine.command(alloc)?;
        }
    }
    Ok(machine.printed)
}
