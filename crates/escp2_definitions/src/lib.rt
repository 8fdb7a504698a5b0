//! What a print job means: its commands and their spellings, the code of raster rows, and the machine that runs the
//! commands and gives sheets of dots.
//!
//! The command table and the machine are this project's own profile after Epson's ESC/P Reference Manual.
//! `specs/Commands.antt` defines the table, the spellings and the reading of bytes; `RowCode.antt` the code of rows;
//! `Least.antt` the shortest code of a row; `Written.antt` the bytes that a writer makes of a command; `Machine.antt`
//! the machine; `JobEnds.antt` how a job ends. The types are declared here because the definitions mention them. The
//! crates that return them re-export them.
//!
//! `in_table` tests exactly the ranges of the command table. `colour_code` returns the code of an ink. Neither
//! allocates memory.
#![tactic(auto)]

mod command;
mod stops;
mod table;

pub use command::{Command, RasterHead};
pub use stops::{EmulatorFault, JobCause, JobStop};
pub use table::{MOST_UNITS, RASTER_COLUMNS, colour_code, in_table};
