//! The ranges of the command table, and the codes of inks.
ghost use Rattle.escp2_definitions.specs.Commands.{colour_code as colour_code_of, in_table as in_table_of};
ghost use Rattle.std.specs.Prelude.{◌≡◌};

use crate::Command;
use base_definitions::MOST_COLUMNS;
use printer_definitions::Ink;

/// The most columns of a raster: as many as a page may have.
pub const RASTER_COLUMNS: u16 = MOST_COLUMNS as u16;

/// The most units of a length or a position of a sheet: a number of 15 bits.
pub const MOST_UNITS: u16 = 32_767;

/// Whether the command's numbers are in the ranges of the command table (ESC/P Reference Manual, graphics commands; the
/// ranges are this project's own). A command without numbers always passes. The rows of a raster are not tested.
pub fn in_table(command: &Command) -> bool
    ensures { result ≡ in_table_of command.now }
{
    match *command {
        Command::Init | Command::Graphics | Command::Return | Command::Eject => true,
        Command::Colour { .. } => true,
        Command::Unit { m } => m >= 1,
        Command::MicroWeave { n } => n == 0,
        Command::OneWay { n } => n <= 1,
        Command::Length { n } => 1 <= n && n <= MOST_UNITS,
        Command::Margins { top, bottom } => top < bottom && bottom <= MOST_UNITS,
        Command::DownTo { n } | Command::DownBy { n } | Command::Across { n } => n <= MOST_UNITS,
        Command::Raster { head: header } => {
            let is_stepped = header.v >= 1 && header.h >= 1;
            let is_sized = header.m >= 1 && 1 <= header.n && header.n <= RASTER_COLUMNS;
            header.c <= 1 && is_stepped && is_sized
        }
    }
}

/// The code of an ink in `ESC r` (ESC/P Reference Manual, graphics commands).
pub fn colour_code(ink: Ink) -> u8
    ensures { result ≡ colour_code_of ink }
{
    match ink {
        Ink::Black => 0,
        Ink::Magenta => 1,
        Ink::Cyan => 2,
        Ink::Yellow => 4,
    }
}
