//! Worked jobs: each function does nothing, and the checker computes its contract. The contracts compare the
//! definitions with results worked by hand.
#![tactic(auto, unfolding(escp2_definitions::specs::Least::cost_from, escp2_definitions::specs::Least::costs, escp2_definitions::specs::Least::equal_at, escp2_definitions::specs::Least::least, escp2_definitions::specs::Least::least_packet, escp2_definitions::specs::Least::least_row, escp2_definitions::specs::Least::literals, escp2_definitions::specs::Least::packets_at, escp2_definitions::specs::Least::packets_from, escp2_definitions::specs::Least::runs, escp2_definitions::specs::Commands::command_at, escp2_definitions::specs::Commands::commands_from, escp2_definitions::specs::Machine::execute_from, escp2_definitions::specs::Machine::rows_dots, escp2_definitions::specs::RowCode::row_at, escp2_definitions::specs::RowCode::rows_at))]

ghost use Rattle.escp2_definitions.specs.Commands.Heard.{One, Wrong};
ghost use Rattle.escp2_definitions.specs.Commands.ListEnd.{Cut, Fault, Whole};
ghost use Rattle.base_definitions.specs.Limits.{most_row_bytes};
ghost use Rattle.escp2_definitions.specs.Commands.{command_at, commands, last_column};
ghost use Rattle.escp2_definitions.specs.JobEnds.{job_end};
ghost use Rattle.escp2_definitions.specs.Least.{costs, least_row};
ghost use Rattle.escp2_definitions.specs.Machine.{execute};
ghost use Rattle.escp2_definitions.specs.declared.command.Command.TheVariants as c;
ghost use Rattle.escp2_definitions.specs.declared.stops.EmulatorFault.TheVariants.{Backward, Density, NoMargins, NoUnit};
ghost use Rattle.escp2_definitions.specs.declared.stops.EmulatorFault.TheVariants.{NotGraphics, OffGrid, OffSheet};
ghost use Rattle.escp2_definitions.specs.declared.stops.EmulatorFault.TheVariants.{Overprint, Rows};
ghost use Rattle.escp2_definitions.specs.declared.stops.JobCause.TheVariants.{BadLength, BadValue, RunCode, Unknown};
ghost use Rattle.escp2_definitions.specs.declared.stops.JobStop.TheVariants.{TooLong};
ghost use Rattle.escp2_laws.specs.Examples.{black_row, blank_row, down_to_12, eight_dots, end_of, graphics, length_12};
ghost use Rattle.escp2_laws.specs.Examples.{listing, listing_overprinted, margins_12, one_dot, refusal, refused, said};
ghost use Rattle.escp2_laws.specs.Examples.{sheet_refusal, three_nozzles, unit_1, unit_10, unit_5};
ghost use Rattle.printer_definitions.specs.declared.inks.Ink.TheVariants.{Black};
ghost use Rattle.std.specs.Prelude.{None, Some, [], length, replicate, take, ◌%◌, ◌+◌, ◌++◌, ◌-◌, ◌/◌, ◌∷◌, ◌≡◌};

/// The bytes of a job with coded rows, and its commands with the places of their first bytes.
pub fn listing_is_read()
    ensures len { length listing ≡ 92 }
    ensures entries { (commands listing).entries ≡
        said 0 c.Init ∷ said 2 c.Graphics ∷ said 8 (c.Unit 5) ∷ said 14 (c.MicroWeave 0) ∷ said 20 (c.OneWay 1)
        ∷ said 23 (c.Length 12) ∷ said 30 (c.Margins 0 12) ∷ said 39 (c.DownTo 0)
        ∷ said 46 (c.Colour Black) ∷ said 49 c.Return
        ∷ record {
          at = 50;
          command = c.Raster (record { c = 1; v = 20; h = 10; m = 3; n = 8 });
          rows = 0x00 ∷ 0x00 ∷ 0xFF ∷ [];
        }
        ∷ said 64 (c.DownBy 6) ∷ said 71 (c.Colour Black) ∷ said 74 c.Return
        ∷ record {
          at = 75;
          command = c.Raster (record { c = 1; v = 20; h = 10; m = 3; n = 8 });
          rows = 0x00 ∷ 0xFF ∷ 0x00 ∷ [];
        }
        ∷ said 89 c.Eject ∷ said 90 c.Init ∷ [] }
    ensures end { (commands listing).end ≡ Whole }
{}

/// The printer makes one sheet of the same job, with a row of dots from each pass.
pub fn listing_is_printed()
    ensures { execute three_nozzles (commands listing).entries ≡ record {
      sheets = record { rows = 6; columns = 8; dots = eight_dots 40 ++ eight_dots 50 } ∷ [];
      refused = None;
    } }
{}

/// The same job with its first pass twice is refused where it would fire the same dots again. A printer with one nozzle
/// refuses the job itself.
pub fn listing_is_refused()
    ensures overprint { (execute three_nozzles (commands listing_overprinted).entries).refused ≡
        refused 65 Overprint }
    ensures density { refusal listing ≡ refused 50 Density }
{}

/// Bytes that are not a job, and the place of the fault.
pub fn faults_are_told()
    ensures cut { end_of (take 10 listing) ≡ Cut 8 }
    ensures unknown { end_of (0x1B ∷ 0x41 ∷ []) ≡ Fault 1 Unknown }
    ensures low_length { end_of (0x1B ∷ 0x28 ∷ 0x47 ∷ 0x02 ∷ 0x00 ∷ []) ≡ Fault 3 BadLength }
    ensures high_length { end_of (0x1B ∷ 0x28 ∷ 0x47 ∷ 0x01 ∷ 0x01 ∷ []) ≡ Fault 4 BadLength }
    ensures colour { end_of (0x1B ∷ 0x72 ∷ 0x03 ∷ []) ≡ Fault 2 BadValue }
    ensures code { end_of (0x1B ∷ 0x2E ∷ 0x02 ∷ []) ≡ Fault 2 BadValue }
    ensures control { end_of (0x1B ∷ 0x2E ∷ 0x01 ∷ 0x14 ∷ 0x0A ∷ 0x03 ∷ 0x08 ∷ 0x00 ∷ 0x80 ∷ []) ≡
        Fault 8 RunCode }
    // two bytes in a row of one
    ensures past_row { end_of (0x1B ∷ 0x2E ∷ 0x01 ∷ 0x14 ∷ 0x0A ∷ 0x01 ∷ 0x08 ∷ 0x00
        ∷ 0x01 ∷ 0x00 ∷ 0x00 ∷ []) ≡ Fault 8 RunCode }
    // 11 bytes, if a job may have at most 10
    ensures too_long { job_end (take 11 listing) 10 None ≡ Some (record { at = 10; why = TooLong }) }
{}

/// Rasters before the commands that they need.
pub fn early_rasters_are_refused()
    ensures not_graphics { refusal black_row ≡ refused 0 NotGraphics }
    ensures no_unit { refusal (graphics ++ black_row) ≡ refused 6 NoUnit }
    ensures no_margins { refusal (graphics ++ unit_5 ++ black_row) ≡ refused 12 NoMargins }
{}

/// Commands that are refused on a sheet of six rows.
pub fn commands_are_refused()
    // two rows for a printer with one nozzle
    ensures rows { sheet_refusal (0x1B ∷ 0x2E ∷ 0x00 ∷ 0x0A ∷ 0x0A ∷ 0x02 ∷ 0x08 ∷ 0x00
        ∷ 0xFF ∷ 0xFF ∷ []) ≡ refused 46 Rows }
    // down to 4 units, and then up to 2
    ensures up { sheet_refusal (0x1B ∷ 0x28 ∷ 0x56 ∷ 0x02 ∷ 0x00 ∷ 0x04 ∷ 0x00
        ∷ 0x1B ∷ 0x28 ∷ 0x56 ∷ 0x02 ∷ 0x00 ∷ 0x02 ∷ 0x00 ∷ []) ≡ refused 53 Backward }
    // a reset while the sheet has dots
    ensures again { sheet_refusal (black_row ++ 0x1B ∷ 0x40 ∷ []) ≡ refused 55 Backward }
    // half a column across
    ensures off_grid { sheet_refusal (0x1B ∷ 0x24 ∷ 0x01 ∷ 0x00 ∷ black_row) ≡ refused 50 OffGrid }
    // down by 13 units on a sheet of 12
    ensures below_page { sheet_refusal (0x1B ∷ 0x28 ∷ 0x76 ∷ 0x02 ∷ 0x00 ∷ 0x0D ∷ 0x00 ∷ []) ≡
        refused 46 OffSheet }
    // dots at the bottom margin, and a row without dots there
    ensures below_margin { sheet_refusal (down_to_12 ++ black_row) ≡ refused 53 OffSheet }
    ensures blank_row { sheet_refusal (down_to_12 ++ blank_row) ≡ None }
    // the same dots again
    ensures overprint { sheet_refusal (black_row ++ 0x0D ∷ black_row) ≡ refused 56 Overprint }
{}

/// A sheet is at most 22 inches long, and its bottom margin is on the sheet.
pub fn pages_are_limited()
    // the most lines of a page in units of 5/3600 inch, and one unit more
    ensures longest { refusal (unit_5 ++ 0x1B ∷ 0x28 ∷ 0x43 ∷ 0x02 ∷ 0x00 ∷ 0xE0 ∷ 0x3D ∷ []) ≡ None }
    ensures too_long { refusal (unit_5 ++ 0x1B ∷ 0x28 ∷ 0x43 ∷ 0x02 ∷ 0x00 ∷ 0xE1 ∷ 0x3D ∷ []) ≡
        refused 6 OffSheet }
    // 32,767 units of 1/3600 inch
    ensures most_units { refusal (unit_1 ++ 0x1B ∷ 0x28 ∷ 0x43 ∷ 0x02 ∷ 0x00 ∷ 0xFF ∷ 0x7F ∷ []) ≡ None }
    // a bottom margin at the end of the sheet, and one unit below it
    ensures lowest { refusal (unit_5 ++ length_12 ++ margins_12) ≡ None }
    ensures too_low { refusal (unit_5 ++ length_12
        ++ 0x1B ∷ 0x28 ∷ 0x63 ∷ 0x04 ∷ 0x00 ∷ 0x00 ∷ 0x00 ∷ 0x0D ∷ 0x00 ∷ []) ≡ refused 13 OffSheet }
{}

/// A row has at most as many columns as a page: a dot in the last column is accepted, and a dot to its right is
/// refused.
pub fn columns_are_limited()
    ensures last { refusal (graphics ++ unit_10 ++ length_12 ++ margins_12
        ++ 0x1B ∷ 0x24 ∷ (last_column - 1) % 256 ∷ (last_column - 1) / 256 ∷ one_dot) ≡ None }
    ensures past { refusal (graphics ++ unit_10 ++ length_12 ++ margins_12
        ++ 0x1B ∷ 0x24 ∷ last_column % 256 ∷ last_column / 256 ∷ one_dot) ≡ refused 32 OffSheet }
{}

/// The greatest numbers that are read, and those one greater.
pub fn numbers_are_limited()
    ensures bottom { command_at (0x1B ∷ 0x28 ∷ 0x63 ∷ 0x04 ∷ 0x00 ∷ 0x00 ∷ 0x00 ∷ 0xFF ∷ 0x7F ∷ []) ≡
        One (c.Margins 0 32767) [] 9 }
    ensures bottom_past { command_at (0x1B ∷ 0x28 ∷ 0x63 ∷ 0x04 ∷ 0x00 ∷ 0x00 ∷ 0x00 ∷ 0x00 ∷ 0x80 ∷ []) ≡
        Wrong 7 BadValue }
    ensures bottom_at_top { command_at (0x1B ∷ 0x28 ∷ 0x63 ∷ 0x04 ∷ 0x00 ∷ 0x05 ∷ 0x00 ∷ 0x05 ∷ 0x00 ∷ []) ≡
        Wrong 7 BadValue }
    ensures down { command_at (0x1B ∷ 0x28 ∷ 0x56 ∷ 0x02 ∷ 0x00 ∷ 0xFF ∷ 0x7F ∷ []) ≡
        One (c.DownTo 32767) [] 7 }
    ensures down_past { command_at (0x1B ∷ 0x28 ∷ 0x56 ∷ 0x02 ∷ 0x00 ∷ 0x00 ∷ 0x80 ∷ []) ≡ Wrong 5 BadValue }
    ensures across { command_at (0x1B ∷ 0x24 ∷ 0xFF ∷ 0x7F ∷ []) ≡ One (c.Across 32767) [] 4 }
    ensures across_past { command_at (0x1B ∷ 0x24 ∷ 0x00 ∷ 0x80 ∷ []) ≡ Wrong 2 BadValue }
    ensures columns_past { command_at (0x1B ∷ 0x2E ∷ 0x00 ∷ 0x0A ∷ 0x0A ∷ 0x01 ∷ (last_column + 1) % 256 ∷ (last_column + 1) / 256 ∷ []) ≡
        Wrong 6 BadValue }
{}

/// The widest row is read.
pub fn widest_row_is_read()
    ensures { command_at (0x1B ∷ 0x2E ∷ 0x00 ∷ 0x0A ∷ 0x0A ∷ 0x01 ∷ last_column % 256 ∷ last_column / 256 ∷ replicate most_row_bytes 0) ≡
        One (c.Raster (record { c = 0; v = 10; h = 10; m = 1; n = last_column })) (replicate most_row_bytes 0) (8 + most_row_bytes) }
{}

/// A row of two runs with a byte between them. The second run costs no less than a literal, so the least code is a
/// repeated byte, and then a literal over the second run.
pub fn least_row_is_worked()
    ensures costs { costs (0 ∷ 0 ∷ 1 ∷ 0 ∷ 0 ∷ []) ≡ 6 ∷ 5 ∷ 4 ∷ 2 ∷ 2 ∷ 0 ∷ [] }
    ensures code { least_row (0 ∷ 0 ∷ 1 ∷ 0 ∷ 0 ∷ []) ≡ 0xFF ∷ 0x00 ∷ 0x02 ∷ 0x01 ∷ 0x00 ∷ 0x00 ∷ [] }
{}
