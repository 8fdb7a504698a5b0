//! The laws. Each function does nothing; its contract is a law.
ghost use Rattle.escp2_definitions.specs.Commands.{commands};
ghost use Rattle.escp2_definitions.specs.Machine.{Dot, is_at};
ghost use Rattle.escp2_definitions.specs.Rasters.{ink_rasters};
ghost use Rattle.escp2_definitions.specs.Written.{Coding, IsCoding, plain};
ghost use Rattle.page_definitions.specs.Dots.{Halftone, HasDots, Screening, dots_wanted, wanted};
ghost use Rattle.page_definitions.specs.PageBytes.{halftone_bytes, page_bytes, page_coding, weave};
ghost use Rattle.page_definitions.specs.Printing.{GivesSheet, Prints};
ghost use Rattle.page_definitions.specs.Strokes.{Fires, Strokes, has_dot, strokes_bytes};
ghost use Rattle.page_laws.specs.Sized.{Sized};
ghost use Rattle.page_laws.specs.Stroked.{FirePages, stroked_bytes};
ghost use Rattle.printer_definitions.specs.Inks.{inks_of, same_ink};
ghost use Rattle.printer_definitions.specs.Printer.{Printer, row_units};
ghost use Rattle.printer_definitions.specs.declared.inks.Ink.{Ink};
ghost use Rattle.pwg_definitions.specs.Stream.{Page};
ghost use Rattle.separation_definitions.specs.CanPrint.{ArePages, CanPrint};
ghost use Rattle.std.specs.List.{flat_map, list_any, sum_by};
ghost use Rattle.std.specs.Prelude.{Bool, List, Some, count_by, false, length, slice_get, ℕ, ◌*◌, ◌+◌, ◌/◌, ◌≡◌, ◌≤◌};
ghost use Rattle.base_definitions.specs.Counting.{count_from};
ghost use Rattle.weave_definitions.specs.Weave.{pass_count};

/// The dots that a page asks for are distinct.
pub fn wanted_are_distinct()
    ensures { (page : Page) (p : Printer) (k : Screening)
        → CanPrint p → (d : Dot) → count_by (is_at d) (wanted page p k) ≤ 1 }
{}

/// Strokes that print a halftone put it on one sheet. Their bytes are whole commands, which the printer takes from any
/// state without a dot on the sheet. The sheet has each dot of the halftone once and no other, and the next sheet has
/// none yet. The rows of the rasters are plain or coded (`IsCoding`).
pub fn strokes_are_printed()
    ensures { (p : Printer) (h : Halftone) (coding : Coding) (strokes : Strokes) (tall : ℕ)
        → CanPrint p → IsCoding coding → Sized p h tall → Fires p h strokes
        → GivesSheet p (strokes_bytes coding p h.width h.height (tall * row_units p) strokes) (dots_wanted p h) }
{}

/// The interleaved passes of a head over a window print its halftone.
pub fn weave_fires()
    ensures { (p : Printer) (h : Halftone) → CanPrint p → Fires p h (weave p h) }
{}

/// Rows may be plain or coded, as those of pages are.
pub fn rows_are_coded()
    ensures plain_rows { IsCoding plain }
    ensures page_rows { IsCoding page_coding }
{}

/// The bytes of pages, one after another, are a job that prints them: a sheet for each page, with each dot that the
/// page asks for once and no other.
pub fn pages_are_printed()
    ensures { (p : Printer) (k : Screening) (pages : List Page) → CanPrint p → ArePages p pages
        → Prints p k pages (flat_map (λ page. page_bytes page p k) pages) }
{}

/// The bytes of pages also print them by other strokes and another code of rows. The strokes are chosen for each
/// halftone, and must print the halftone of each page that the printer accepts.
pub fn stroked_pages_are_printed()
    ensures { (coding : Coding) (strokes : Halftone → Strokes) (p : Printer) (k : Screening) (pages : List Page)
        → CanPrint p → IsCoding coding → FirePages p k strokes → ArePages p pages
        → Prints p k pages (flat_map (λ page. stroked_bytes coding strokes page p k) pages) }
{}

/// Strokes that print a halftone take no more rasters of an ink than there are strokes with a dot of it.
pub fn strokes_have_rasters()
    ensures { (p : Printer) (h : Halftone) (coding : Coding) (strokes : Strokes) (tall : ℕ)
        → CanPrint p → IsCoding coding → Sized p h tall → Fires p h strokes → (ink : Ink)
        → ink_rasters ink (commands (strokes_bytes coding p h.width h.height (tall * row_units p) strokes)).entries
        ≤ count_by (λ stroke. has_dot (stroke.rows ink)) strokes.list }
{}

/// A halftone has as many dots of an ink as a table of its dots has in the ink's plane, and none of an ink outside
/// the printer's set.
pub fn counts_of_planes()
    ensures in_the_set { (p : Printer) (h : Halftone) (width rows inks : ℕ) (dot : ℕ → ℕ → ℕ → Bool) (i : ℕ) (ink : Ink)
        → HasDots p h width rows inks dot → slice_get (inks_of p.inks) i ≡ Some ink
        → count_by (λ d. same_ink ink d.ink) (dots_wanted p h)
        ≡ sum_by (λ y. count_by (λ x. dot i y x) (count_from 0 width)) (count_from 0 rows) }
    ensures other_inks { (p : Printer) (h : Halftone) (ink : Ink) → list_any (same_ink ink) (inks_of p.inks) ≡ false
        → count_by (λ d. same_ink ink d.ink) (dots_wanted p h) ≡ 0 }
{}

/// The job of a page has at most 49 bytes, 7 for each pass, and for each ink of a pass 12 bytes and twice the bytes
/// of its rows.
pub fn page_is_short()
    ensures { (p : Printer) (h : Halftone) (len : ℕ)
        → length (halftone_bytes p h len)
        ≤ 49 + pass_count p.nozzles p.pitch h.height
        * (7 + length (inks_of p.inks) * (12 + 2 * p.nozzles * ((h.width + 7) / 8))) }
{}
