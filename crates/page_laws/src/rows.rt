//! The law of the rows of rasters. The function does nothing; its contract is the law.
ghost use Rattle.escp2_definitions.specs.Commands.{commands};
ghost use Rattle.escp2_definitions.specs.Written.{Coding, IsCoding};
ghost use Rattle.page_definitions.specs.Dots.{Halftone};
ghost use Rattle.page_definitions.specs.RasterRows.{EachTwo, RasterRows, StrokeRows};
ghost use Rattle.page_definitions.specs.Strokes.{Fires, Strokes, strokes_bytes};
ghost use Rattle.page_laws.specs.Sized.{Sized};
ghost use Rattle.printer_definitions.specs.Printer.{Printer, row_units};
ghost use Rattle.separation_definitions.specs.CanPrint.{CanPrint};
ghost use Rattle.std.specs.List.{AllByRecursion};
ghost use Rattle.std.specs.Prelude.{Bool, ℕ, ◌*◌};

/// A test takes a nozzle and two columns. If any two dots of each row that strokes fire pass the test, so do any two
/// dots of each row of the rasters of their bytes.
pub fn rasters_have_rows()
    ensures { (p : Printer) (h : Halftone) (coding : Coding) (strokes : Strokes) (tall : ℕ) (test : ℕ → ℕ → ℕ → Bool)
        → CanPrint p → IsCoding coding → Sized p h tall → Fires p h strokes
        → AllByRecursion (StrokeRows (EachTwo test) p.nozzles) strokes.list
        → RasterRows (EachTwo test)
        (commands (strokes_bytes coding p h.width h.height (tall * row_units p) strokes)).entries }
{}
