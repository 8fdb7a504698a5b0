//! Worked states of the machine: each function does nothing, and the checker computes its contract.
#![tactic(auto, unfolding(escp2_definitions::specs::Commands::command_at, escp2_definitions::specs::Machine::execute_from, escp2_definitions::specs::Machine::rows_dots, escp2_definitions::specs::RowCode::row_at, escp2_definitions::specs::RowCode::rows_at))]

ghost use Rattle.escp2_definitions.specs.Commands.Heard.{One, Wrong};
ghost use Rattle.escp2_definitions.specs.Commands.{command_at};
ghost use Rattle.escp2_definitions.specs.Machine.{start};
ghost use Rattle.escp2_definitions.specs.declared.command.Command.TheVariants as c;
ghost use Rattle.escp2_definitions.specs.declared.stops.EmulatorFault.TheVariants.{Backward, Density, NoMargins, NoUnit};
ghost use Rattle.escp2_definitions.specs.declared.stops.EmulatorFault.TheVariants.{NotGraphics, OffGrid, OffSheet, Rows};
ghost use Rattle.escp2_definitions.specs.declared.stops.JobCause.TheVariants.{RunCode};
ghost use Rattle.escp2_laws.specs.Examples.{said};
ghost use Rattle.escp2_laws.specs.Machines.{fault_of, in_graphics, last_place, off_column, on_sheet, printed_by, raster};
ghost use Rattle.escp2_laws.specs.Machines.{row_entry, sheet_begins, with_dot, with_unit};
ghost use Rattle.printer_definitions.specs.declared.inks.Ink.TheVariants.{Black, Cyan, Magenta, Yellow};
ghost use Rattle.std.specs.Prelude.{None, Some, [], ◌+◌, ◌++◌, ◌∷◌, ◌≡◌};

/// Dots are set at the head's position. Spare bits of a row are not dots. A blank row widens its sheet too.
pub fn rows_are_printed()
    // two columns to the right, the first and the third of three columns; bits of five more columns
    ensures across { printed_by (said 4 (c.Across 4) ∷ row_entry 3 (0xBF ∷ []) ∷ said 5 c.Eject ∷ []) ≡ record {
      sheets = record {
        rows = 6;
        columns = 5;
        dots = record { ink = Black; x = 20; y = 0 } ∷ record { ink = Black; x = 40; y = 0 } ∷ [];
      } ∷ [];
      refused = None;
    } }
    ensures blank { printed_by (row_entry 16 (0x00 ∷ 0x00 ∷ []) ∷ said 5 c.Eject ∷ []) ≡ record {
      sheets = record { rows = 6; columns = 16; dots = [] } ∷ [];
      refused = None;
    } }
{}

/// A sheet begins with one column: after the sheet before it, and after a reset.
pub fn sheets_begin_narrow()
    ensures eject { (printed_by (row_entry 8 (0x00 ∷ []) ∷ said 5 c.Eject ∷ said 6 c.Eject ∷ [])).sheets ≡
        record { rows = 6; columns = 8; dots = [] } ∷ record { rows = 6; columns = 1; dots = [] } ∷ [] }
    ensures init { (printed_by (row_entry 8 (0x00 ∷ []) ∷ said 5 c.Init ∷ (sheet_begins ++ said 6 c.Eject ∷ []))).sheets ≡
        record { rows = 6; columns = 1; dots = [] } ∷ [] }
{}

/// If several refusals hold at once, the earliest is returned.
pub fn the_earlier_refusal_is_told()
    ensures length { fault_of with_dot (c.Length 16000) [] ≡ Some Backward }
    ensures margins { fault_of start (c.Margins 0 12) [] ≡ Some NoUnit }
    ensures margins_late { fault_of with_dot (c.Margins 0 13) [] ≡ Some Backward }
    ensures down_to { fault_of start (c.DownTo 1) [] ≡ Some NoUnit }
    ensures down_by { fault_of start (c.DownBy 1) [] ≡ Some NoUnit }
    ensures graphics { fault_of start (raster 10 10 1 8) (0xFF ∷ []) ≡ Some NotGraphics }
    ensures unit { fault_of in_graphics (raster 10 10 1 8) (0xFF ∷ []) ≡ Some NoUnit }
    ensures no_margins { fault_of with_unit (raster 20 10 1 8) (0xFF ∷ []) ≡ Some NoMargins }
    ensures density { fault_of on_sheet (raster 20 10 2 8) (0xFF ∷ 0xFF ∷ []) ≡ Some Density }
    ensures rows { fault_of off_column (raster 10 10 2 8) (0xFF ∷ 0xFF ∷ []) ≡ Some Rows }
    ensures off_grid { fault_of (record with_dot { across = last_place + 5 }) (raster 10 10 1 8) (0xFF ∷ [])
        ≡ Some OffGrid }
    ensures off_sheet { fault_of with_dot (raster 10 10 1 2) (0x80 ∷ []) ≡ Some OffSheet }
{}

/// Commands that are refused for one reason alone.
pub fn single_refusals_are_told()
    ensures length { fault_of start (c.Length 12) [] ≡ Some NoUnit }
    ensures margins { fault_of with_unit (c.Margins 0 12) [] ≡ Some NoMargins }
    ensures down_to { fault_of with_unit (c.DownTo 1) [] ≡ Some NoMargins }
    ensures down_by { fault_of with_unit (c.DownBy 1) [] ≡ Some NoMargins }
    ensures across { fault_of start (c.Across 1) [] ≡ Some NoUnit }
    ensures eject { fault_of with_unit c.Eject [] ≡ Some NoMargins }
    ensures init { fault_of with_dot c.Init [] ≡ Some Backward }
{}

/// The other colours; and a control byte that is refused in the second row of a raster.
pub fn colours_and_second_rows_are_read()
    ensures magenta { command_at (0x1B ∷ 0x72 ∷ 0x01 ∷ []) ≡ One (c.Colour Magenta) [] 3 }
    ensures cyan { command_at (0x1B ∷ 0x72 ∷ 0x02 ∷ []) ≡ One (c.Colour Cyan) [] 3 }
    ensures yellow { command_at (0x1B ∷ 0x72 ∷ 0x04 ∷ []) ≡ One (c.Colour Yellow) [] 3 }
    // a row of two equal bytes, and a byte less than the second row has
    ensures second_row { command_at (0x1B ∷ 0x2E ∷ 0x01 ∷ 0x14 ∷ 0x0A ∷ 0x02 ∷ 0x10 ∷ 0x00
        ∷ 0xFF ∷ 0x07 ∷ 0x00 ∷ 0x07 ∷ 0x80 ∷ []) ≡ Wrong 12 RunCode }
{}
