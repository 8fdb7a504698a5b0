//! The laws of a head with dead nozzles. Each function does nothing; its contract is a law.
#![tactic(auto)]

ghost use Rattle.dead_nozzles.specs.Dead.{checked};
ghost use Rattle.escp2_definitions.specs.Commands.{commands};
ghost use Rattle.escp2_definitions.specs.Rasters.{ink_rasters};
ghost use Rattle.escp2_laws.specs.Examples.{three_nozzles};
ghost use Rattle.page_definitions.specs.Dots.{Halftone};
ghost use Rattle.page_definitions.specs.Healed.{IsSpared, healed, healed_bytes, healed_passes};
ghost use Rattle.page_definitions.specs.RasterRows.{RasterRows};
ghost use Rattle.page_definitions.specs.Strokes.{Fires};
ghost use Rattle.page_laws.specs.Shingles.{made_up, two_black_rows};
ghost use Rattle.page_laws.specs.Sized.{Sized};
ghost use Rattle.printer_definitions.specs.Printer.{Printer, row_units};
ghost use Rattle.printer_definitions.specs.declared.inks.Ink.{Ink};
ghost use Rattle.separation_definitions.specs.CanPrint.{CanPrint};
ghost use Rattle.std.specs.Prelude.{List, Ok, [], ℕ, ◌*◌, ◌∷◌, ◌≡◌, ◌≤◌};

/// The strokes of a head with dead nozzles print the halftone of their window, if a nozzle is live.
pub fn healed_fires()
    ensures { (dead : List ℕ) (p : Printer) (h : Halftone) → CanPrint p → checked p.nozzles dead ≡ Ok tt
        → Fires p h (healed dead p h) }
{}

/// No row of a raster of these strokes has a dot if its nozzle is dead.
pub fn dead_rows_are_blank()
    ensures { (dead : List ℕ) (p : Printer) (h : Halftone) (tall : ℕ) → CanPrint p → checked p.nozzles dead ≡ Ok tt
        → Sized p h tall
        → RasterRows (IsSpared dead) (commands (healed_bytes dead p h (tall * row_units p))).entries }
{}

/// These strokes take no more rasters of an ink than there are passes of the weave and missing rows together.
pub fn healed_have_passes()
    ensures { (dead : List ℕ) (p : Printer) (h : Halftone) (tall : ℕ) → CanPrint p → checked p.nozzles dead ≡ Ok tt
        → Sized p h tall → (ink : Ink)
        → ink_rasters ink (commands (healed_bytes dead p h (tall * row_units p))).entries
        ≤ healed_passes dead p h.height }
{}

/// The strokes of three nozzles two rows apart over two black rows are the worked strokes, if the last nozzle is dead.
pub fn worked_rows_are_healed()
    ensures { healed (2 ∷ []) three_nozzles two_black_rows ≡ made_up }
{}
