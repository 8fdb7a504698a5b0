//! Worked lines: each function does nothing, and the checker computes its contract.
ghost use Rattle.escp2_laws.specs.Examples.{black_row, graphics, listing, listing_prefix, unit_5};
ghost use Rattle.page_tally.specs.Examples.{all_told, cut_told, lines_told, progress_alone};
ghost use Rattle.page_tally.specs.Sheets.{pages_alone};
ghost use Rattle.std.specs.Prelude.{[], codes, take, ◌++◌, ◌∷◌, ◌≡◌};

/// A job of 92 bytes and one page of 60/3600 inch, with two rows of eight black dots. The head goes down by 30/3600
/// inch.
pub fn a_listing_is_told()
    ensures pages { lines_told pages_alone listing ≡ codes "page 1: k 16, c 0, m 0, y 0\n" }
    ensures progress { lines_told progress_alone listing
        ≡ codes "page 1 at 10\npage 1 at 20\npage 1 at 30\npage 1 at 40\npage 1 at 50\n" }
    ensures both { lines_told all_told listing
        ≡ codes "page 1 at 10\npage 1 at 20\npage 1 at 30\npage 1 at 40\npage 1 at 50\npage 1: k 16, c 0, m 0, y 0\n" }
{}

/// The job is cut behind its first raster. It has no whole page, and the line of its open page has the dots so far. A
/// job that is cut before its margins or behind its form feed has no such line.
pub fn a_cut_page_is_told()
    ensures whole { lines_told all_told (take 64 listing) ≡ [] }
    ensures cut { cut_told all_told (take 64 listing) ≡ codes "cut page 1: k 8, c 0, m 0, y 0\n" }
    ensures untold { cut_told progress_alone (take 64 listing) ≡ [] }
    ensures begun { cut_told all_told (take 30 listing) ≡ [] }
    ensures ejected { cut_told all_told (take 90 listing) ≡ [] }
    ensures all { cut_told all_told listing ≡ [] }
{}

/// A job that sets no length has no lines of progress.
pub fn a_page_without_a_length_has_no_progress()
    ensures { lines_told all_told (graphics ++ unit_5 ++ black_row ++ 0x1B ∷ 0x28 ∷ 0x76 ∷ 0x02 ∷ 0x00 ∷ 0x06 ∷ 0x00 ∷ 0x0C ∷ [])
        ≡ codes "page 1: k 8, c 0, m 0, y 0\n" }
{}

/// Pages are numbered through a job, and each has its own dots.
pub fn pages_have_numbers()
    ensures jobs { lines_told pages_alone (listing ++ listing)
        ≡ codes "page 1: k 16, c 0, m 0, y 0\npage 2: k 16, c 0, m 0, y 0\n" }
    // a second sheet of the same page, with a row of yellow
    ensures inks { lines_told pages_alone (listing_prefix ++ black_row ++ 0x0C ∷ 0x1B ∷ 0x72 ∷ 0x04 ∷ (black_row ++ 0x0C ∷ []))
        ≡ codes "page 1: k 8, c 0, m 0, y 0\npage 2: k 0, c 0, m 0, y 8\n" }
{}
