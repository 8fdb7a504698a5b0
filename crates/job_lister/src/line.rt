//! The line of a command.
ghost use Rattle.arrayvec.specs.ArrayString.{array_string_len};
ghost use Rattle.escp2_definitions.specs.Commands.{in_table, rows_len};
ghost use Rattle.escp2_definitions.specs.declared.command.Command.TheVariants as escp2_command;
ghost use Rattle.job_lister.specs.Listing.{line_of, name_of as name_in, numbers, numbers_of};
ghost use Rattle.std.specs.Prelude.{[], length, true, ◌+◌, ◌++◌, ◌≡◌, ◌≤◌};

use crate::dots::raster_dots;
use crate::numbers::{push_numbers, push_place};
use arrayvec::ArrayString;
use escp2_definitions::{Command, RasterHead, colour_code};

/// A line of the listing, with its line feed.
pub type Line = ArrayString<128>;

fn name_of(command: &Command) -> &'static str
    ensures name { result.now ≡ name_in command.now }
    ensures len { length result.now ≤ 10 }
{
    match command {
        Command::Init => "INIT",
        Command::Graphics => "GRAPHICS",
        Command::Unit { .. } => "UNIT",
        Command::MicroWeave { .. } => "MICROWEAVE",
        Command::OneWay { .. } => "ONEWAY",
        Command::Length { .. } => "LENGTH",
        Command::Margins { .. } => "MARGINS",
        Command::DownTo { .. } => "DOWNTO",
        Command::DownBy { .. } => "DOWNBY",
        Command::Across { .. } => "ACROSS",
        Command::Return => "RETURN",
        Command::Eject => "EJECT",
        Command::Colour { .. } => "COLOUR",
        Command::Raster { .. } => "RASTER",
    }
}

// The numbers of a raster, and how many dots its rows have.
fn raster_numbers(header: &RasterHead, rows: &[u8]) -> [u32; 6]
    requires in_range { in_table (escp2_command.Raster header.now) ≡ true }
    requires rows_fit { length rows.now ≡ rows_len (escp2_command.Raster header.now) }
    ensures { result ≡ numbers_of (escp2_command.Raster header.now) rows.now }
{
    [
        u32::from(header.c),
        u32::from(header.v),
        u32::from(header.h),
        u32::from(header.m),
        u32::from(header.n),
        raster_dots(header, rows),
    ]
}

// Appends a command's numbers.
fn push_numbers_of(command: &Command, rows: &[u8], out: &mut Line)
    requires in_range { in_table command.now ≡ true }
    requires rows_fit { length rows.now ≡ rows_len command.now }
    requires room { array_string_len out.old + 66 ≤ 128 }
    ensures bytes { out.new.bytes ≡ out.old.bytes ++ numbers (numbers_of command.now rows.now) }
    ensures len { array_string_len out.new ≤ array_string_len out.old + 66 }
{
    match command {
        Command::Unit { m } => push_numbers(&[u32::from(*m)], out),
        Command::MicroWeave { n } | Command::OneWay { n } => push_numbers(&[u32::from(*n)], out),
        Command::Length { n }
        | Command::DownTo { n }
        | Command::DownBy { n }
        | Command::Across { n } => push_numbers(&[u32::from(*n)], out),
        Command::Margins { top, bottom } => {
            push_numbers(&[u32::from(*top), u32::from(*bottom)], out);
        }
        Command::Colour { ink } => push_numbers(&[u32::from(colour_code(*ink))], out),
        Command::Raster { head: header } => push_numbers(&raster_numbers(header, rows), out),
        Command::Init | Command::Graphics | Command::Return | Command::Eject => {}
    }
}

/// Writes the line of a command, whose first byte is at offset `place` of its job, into an empty text.
pub fn push_line(place: u64, command: &Command, rows: &[u8], out: &mut Line)
    requires in_range { in_table command.now ≡ true }
    requires rows_fit { length rows.now ≡ rows_len command.now }
    requires empty { out.old.bytes ≡ [] }
    ensures { out.new.bytes ≡ line_of place command.now rows.now }
{
    push_place(place, out);
    out.push_str(" ");
    out.push_str(name_of(command));
    push_numbers_of(command, rows, out);
    out.push_str("\n");
}
