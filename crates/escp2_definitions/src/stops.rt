//! Why a print job stops.
use thiserror::Error;

/// Why bytes are not a command.
#[derive(Clone, Copy, Debug, PartialEq, Eq)]
pub enum JobCause {
    /// No command of the table has this byte here.
    Unknown,
    /// A length that is not the command's.
    BadLength,
    /// A number out of its range.
    BadValue,
    /// A control byte of a coded row that is refused, or whose count passes the end of its row.
    RunCode,
}

/// Why the machine refuses a command.
#[derive(Clone, Copy, Debug, PartialEq, Eq, Error)]
pub enum EmulatorFault {
    /// A raster outside graphics mode.
    #[error("a raster outside graphics mode")]
    NotGraphics,
    /// A length or a position before any unit was set.
    #[error("a length or a position without a unit")]
    NoUnit,
    /// A command that comes before the margins or the length of the sheet that it needs.
    #[error("the length of the sheet or its margins are missing")]
    NoMargins,
    /// A raster whose steps are not the printer's.
    #[error("steps that are not the printer's")]
    Density,
    /// A raster whose number of rows is not the printer's number of nozzles.
    #[error("not one row for each nozzle")]
    Rows,
    /// A move up the sheet, or a reset, a length or margins while the sheet has dots.
    #[error("a move back up the sheet")]
    Backward,
    /// A raster whose position is between the printer's columns or rows.
    #[error("a position between the printer's columns or rows")]
    OffGrid,
    /// A place that is not on the sheet.
    #[error("a place that is not on the sheet")]
    OffSheet,
    /// A dot at a place that has a dot of the same ink already.
    #[error("a dot of the same ink is there already")]
    Overprint,
}

/// Why a job ends before its last byte.
#[derive(Clone, Copy, Debug, PartialEq, Eq)]
pub enum JobStop {
    /// The bytes are not a command.
    Reader(JobCause),
    /// The bytes end inside a command.
    Cut,
    /// The machine refuses a command.
    Machine(EmulatorFault),
    /// The job is longer than the greatest accepted length.
    TooLong,
}
