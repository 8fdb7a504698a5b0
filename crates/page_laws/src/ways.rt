//! The laws of the ways over a page. Each function does nothing; its contract is a law.
#![tactic(auto)]

ghost use Rattle.page_definitions.specs.Dots.{Screening};
ghost use Rattle.page_definitions.specs.Printing.{Prints};
ghost use Rattle.page_definitions.specs.Ways.{CanGo, KeepTo, page_bytes_by};
ghost use Rattle.page_definitions.specs.declared.way.Way.{Way};
ghost use Rattle.printer_definitions.specs.Printer.{Printer};
ghost use Rattle.pwg_definitions.specs.Stream.{Page};
ghost use Rattle.separation_definitions.specs.CanPrint.{ArePages, CanPrint};
ghost use Rattle.std.specs.List.{flat_map};
ghost use Rattle.std.specs.Prelude.{List};

/// If the head is capable of a way, the bytes of pages printed in this way, one after another, print the pages.
pub fn pages_are_printed_by_ways()
    ensures { (way : Way) (p : Printer) (s : Screening) (pages : List Page) → CanPrint p → CanGo way p → ArePages p pages
        → Prints p s pages (flat_map (λ page. page_bytes_by way page p s) pages) }
{}

/// The jobs of pages keep to their way: they have no more rasters of an ink than the way takes, and only rows that the
/// way allows.
pub fn pages_keep_to_their_way()
    ensures { (way : Way) (p : Printer) (s : Screening) (pages : List Page) → CanPrint p → CanGo way p → ArePages p pages
        → KeepTo way p s pages }
{}
