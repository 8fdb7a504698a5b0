//! The lines of a job's pages, and the sheets of a printer. Each function does nothing; its contract is a law.
ghost use Rattle.escp2_definitions.specs.Commands.{Entry};
ghost use Rattle.escp2_definitions.specs.Machine.{execute, start};
ghost use Rattle.finish_definitions.specs.Finished.{page_from};
ghost use Rattle.finish_definitions.specs.declared.state.PageState.TheVariants.{Between, Open};
ghost use Rattle.page_definitions.specs.Printing.{state_after};
ghost use Rattle.page_tally.specs.Lines.{cut_lines, lines_from};
ghost use Rattle.page_tally.specs.Sheets.{cut_sheet_lines, dot_counts, pages_alone, sheet_lines};
ghost use Rattle.page_tally.specs.Tallies.{no_tally, number_up_to, tally_from};
ghost use Rattle.printer_definitions.specs.Printer.{Printer};
ghost use Rattle.std.specs.Prelude.{List, None, length, ◌≡◌};

/// If a printer takes all commands of a job, the lines of pages are those of the printer's sheets, in order, with the
/// dots of each ink.
pub fn the_lines_are_of_the_sheets()
    ensures { (p : Printer) (entries : List Entry) → (execute p entries).refused ≡ None
        → lines_from pages_alone no_tally entries ≡ sheet_lines 0 (execute p entries).sheets }
{}

/// If a printer takes some commands, the tally has the number of the sheets that they eject, and the dots of each ink
/// on the sheet in hand. If the page is cut behind them, its line tells both.
pub fn the_number_of_dots()
    ensures state { (entries : List Entry) → (tally_from no_tally entries).state ≡ page_from Between entries }
    ensures sheets { (p : Printer) (entries : List Entry) → (execute p entries).refused ≡ None
        → (tally_from no_tally entries).sheets ≡ number_up_to (length (execute p entries).sheets) }
    ensures counts { (p : Printer) (entries : List Entry) → (execute p entries).refused ≡ None
        → (tally_from no_tally entries).counts ≡ dot_counts (state_after p start entries).dots }
    ensures cut { (p : Printer) (entries : List Entry) → (execute p entries).refused ≡ None
        → cut_lines pages_alone (tally_from no_tally entries) Open
        ≡ cut_sheet_lines (length (execute p entries).sheets) p (state_after p start entries) }
{}
