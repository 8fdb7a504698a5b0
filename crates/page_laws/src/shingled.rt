//! The laws of shingled passes. Each function does nothing; its contract is a law.
#![tactic(auto)]

ghost use Rattle.escp2_definitions.specs.Commands.{commands};
ghost use Rattle.escp2_definitions.specs.Rasters.{ink_rasters};
ghost use Rattle.escp2_laws.specs.Examples.{three_nozzles};
ghost use Rattle.page_definitions.specs.Dots.{Halftone};
ghost use Rattle.page_definitions.specs.RasterRows.{FiresHalf, RasterRows};
ghost use Rattle.page_definitions.specs.Shingled.{shingled, shingled_bytes};
ghost use Rattle.page_definitions.specs.Strokes.{Fires};
ghost use Rattle.page_laws.specs.Shingles.{fired_twice, two_black_rows};
ghost use Rattle.page_laws.specs.Sized.{Sized};
ghost use Rattle.printer_definitions.specs.Printer.{Printer, row_units};
ghost use Rattle.printer_definitions.specs.declared.inks.Ink.{Ink};
ghost use Rattle.separation_definitions.specs.CanPrint.{CanPrint};
ghost use Rattle.shingle_plan.specs.Fits.{Shingles};
ghost use Rattle.shingle_plan.specs.Shingles.{shingle_count};
ghost use Rattle.std.specs.Prelude.{ℕ, ◌*◌, ◌≡◌, ◌≤◌};

/// The shingled passes over a window are strokes that print its halftone, if the head can shingle.
pub fn shingles_fire()
    ensures { (p : Printer) (h : Halftone) → CanPrint p → Shingles p.nozzles p.pitch → Fires p h (shingled p h) }
{}

/// No row of a raster of shingled passes has dots both at even and at odd columns.
pub fn shingled_rows_are_halves()
    ensures { (p : Printer) (h : Halftone) (tall : ℕ) → CanPrint p → Shingles p.nozzles p.pitch → Sized p h tall
        → RasterRows FiresHalf (commands (shingled_bytes p h (tall * row_units p))).entries }
{}

/// Shingled passes take no more rasters of an ink than there are passes.
pub fn shingles_have_passes()
    ensures { (p : Printer) (h : Halftone) (tall : ℕ) → CanPrint p → Shingles p.nozzles p.pitch → Sized p h tall
        → (ink : Ink)
        → ink_rasters ink (commands (shingled_bytes p h (tall * row_units p))).entries
        ≤ shingle_count p.nozzles p.pitch h.height }
{}

/// The shingled passes of three nozzles two rows apart over two black rows are the worked strokes.
pub fn worked_shingles_are_shingled()
    ensures { shingled three_nozzles two_black_rows ≡ fired_twice }
{}
