//! Emulates a printer: the sheets that print jobs make, dot by dot.
//!
//! An `Emulator` stands for a machine of the definitions (`Emulates`), with the dots on its sheet. `run` does exactly
//! what the machine does (`Runs`): it takes the machine's next state and returns the sheet that the command ejects, or
//! it returns the machine's first refusal, or `Memory`. After a refusal and after `Memory` the emulator is unchanged.
//! The planes of a sheet are made for its first dot, or at its eject if the sheet is blank. A blank sheet can be handed
//! back (`keep`); a later sheet of as many rows then gets its planes.
//!
//! A `Sheet` has exactly the dots that the machine printed, in planes of black, cyan, magenta and yellow, each of
//! `MOST_COLUMNS` columns.
#![tactic(auto)]

mod emulator;
mod firing;
mod raster;
mod sheet;
mod state;
mod steps;

pub use emulator::{Emulator, EmulatorStop};
pub use escp2_definitions::{Command, EmulatorFault, RasterHead};
pub use sheet::Sheet;
