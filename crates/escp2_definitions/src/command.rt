//! The commands of a print job.

use printer_definitions::Ink;

/// The numbers of a raster, before its rows (ESC/P Reference Manual, `ESC .`).
#[derive(Clone, Copy, Debug, PartialEq, Eq)]
pub struct RasterHead {
    /// How the rows are written: 0 plain, 1 coded.
    pub c: u8,
    /// The step from one row to the next, in 1/3600 inch.
    pub v: u8,
    /// The step from one column to the next, in 1/3600 inch.
    pub h: u8,
    /// The number of rows, one for each nozzle.
    pub m: u8,
    /// The number of columns.
    pub n: u16,
}

/// A command (ESC/P Reference Manual, graphics commands). The rows of a raster are kept apart from its command.
#[derive(Clone, Copy, Debug, PartialEq, Eq)]
pub enum Command {
    /// `ESC @`: reset.
    Init,
    /// `ESC ( G`: graphics mode.
    Graphics,
    /// `ESC ( U`: the unit of lengths and positions, in 1/3600 inch.
    Unit { m: u8 },
    /// `ESC ( i`: MicroWeave, off.
    MicroWeave { n: u8 },
    /// `ESC U`: print in one direction of the head only (1), or in both (0).
    OneWay { n: u8 },
    /// `ESC ( C`: the length of the sheet, in units.
    Length { n: u16 },
    /// `ESC ( c`: the top and bottom margins from the paper's top, in units.
    Margins { top: u16, bottom: u16 },
    /// `ESC ( V`: the position down, from the top margin, in units.
    DownTo { n: u16 },
    /// `ESC ( v`: move down by this many units.
    DownBy { n: u16 },
    /// `ESC $`: the position across, from the left margin, in units.
    Across { n: u16 },
    /// Carriage return: back to the left margin.
    Return,
    /// Form feed: eject the sheet.
    Eject,
    /// `ESC r`: the ink that rasters fire.
    Colour { ink: Ink },
    /// `ESC .`: fire rows of dots.
    Raster { head: RasterHead },
}
