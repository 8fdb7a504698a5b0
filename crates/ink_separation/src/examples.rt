//! Amounts worked by hand: each function does nothing, and the checker computes its contract.
ghost use Rattle.ink_separation.specs.Columns.{pixel_in};
ghost use Rattle.ink_separation.specs.Examples.{amounts_by, half_curve, light_printer, numbered};
ghost use Rattle.printer_definitions.specs.Printer.{tone_on};
ghost use Rattle.printer_definitions.specs.declared.inks.Ink.TheVariants.{Black};
ghost use Rattle.printer_definitions.specs.declared.inks.InkSet.TheVariants as inks;
ghost use Rattle.pwg_definitions.specs.declared.pages.Kind.TheVariants.{Black1, Black8, Cmyk8, Gray8, Rgb8};
ghost use Rattle.separation_definitions.specs.Amounts.{amount, pixel_at};
ghost use Rattle.std.specs.Prelude.{List, [], slice_index, ◌∷◌, ◌≡◌};

/// A curve that halves each amount, and the same curve below a limit of 224: first the curve, then the limit.
pub fn a_curve_and_a_limit()
    ensures point { tone_on half_curve 16 ≡ 8 }
    ensures between { tone_on half_curve 17 ≡ 8 }
    ensures tone { tone_on half_curve 100 ≡ 50 }
    ensures last { tone_on half_curve 255 ≡ 127 }
    ensures black { amount light_printer Black8 (100 ∷ []) Black ≡ 43 }
    ensures grey { amount light_printer Gray8 (155 ∷ []) Black ≡ 43 }
{}

/// A pixel of 10 cyan, 20 magenta, 30 yellow and 40 black, and one whose sum with black is past 255, separated into
/// each set of inks. The formula also has an amount for an ink outside of the set, which no page asks for.
pub fn four_inks()
    ensures k { slice_index (amounts_by inks.K Cmyk8 (10 ∷ 20 ∷ 30 ∷ 40 ∷ [])) 0 ≡ 59 }
    ensures cmyk { amounts_by inks.Cmyk Cmyk8 (10 ∷ 20 ∷ 30 ∷ 40 ∷ []) ≡ 40 ∷ 10 ∷ 20 ∷ 30 ∷ [] }
    ensures c { slice_index (amounts_by inks.Cmy Cmyk8 (10 ∷ 20 ∷ 30 ∷ 40 ∷ [])) 1 ≡ 50 }
    ensures m { slice_index (amounts_by inks.Cmy Cmyk8 (10 ∷ 20 ∷ 30 ∷ 40 ∷ [])) 2 ≡ 60 }
    ensures y { slice_index (amounts_by inks.Cmy Cmyk8 (10 ∷ 20 ∷ 30 ∷ 40 ∷ [])) 3 ≡ 70 }
    ensures full { slice_index (amounts_by inks.Cmy Cmyk8 (200 ∷ 0 ∷ 0 ∷ 100 ∷ [])) 1 ≡ 255 }
{}

/// Black pixels and white ones of one bit: the pixels of the byte 0xA0, and their amounts by each set of inks.
pub fn one_bit()
    ensures first { pixel_at Black1 (0xA0 ∷ []) 0 ≡ 1 ∷ [] }
    ensures second { pixel_at Black1 (0xA0 ∷ []) 1 ≡ 0 ∷ [] }
    ensures third { pixel_at Black1 (0xA0 ∷ []) 2 ≡ 1 ∷ [] }
    ensures k { slice_index (amounts_by inks.K Black1 (1 ∷ [])) 0 ≡ 255 }
    ensures c { slice_index (amounts_by inks.Cmy Black1 (1 ∷ [])) 1 ≡ 255 }
    ensures m { slice_index (amounts_by inks.Cmy Black1 (1 ∷ [])) 2 ≡ 255 }
    ensures y { slice_index (amounts_by inks.Cmy Black1 (1 ∷ [])) 3 ≡ 255 }
    ensures cmyk { amounts_by inks.Cmyk Black1 (1 ∷ []) ≡ 255 ∷ 0 ∷ 0 ∷ 0 ∷ [] }
    ensures white { amounts_by inks.Cmyk Black1 (0 ∷ []) ≡ 0 ∷ 0 ∷ 0 ∷ 0 ∷ [] }
    ensures white_of_three { amounts_by inks.Cmy Black1 (0 ∷ []) ≡ 0 ∷ 0 ∷ 0 ∷ 0 ∷ [] }
{}

/// The pixels of a tile whose bytes by columns count from 1: columns of three and of four bytes, and a byte of one bit.
pub fn columns()
    ensures grey { pixel_in Gray8 numbered 1 2 ≡ 35 ∷ [] }
    ensures colour { pixel_in Rgb8 numbered 1 2 ≡ 99 ∷ 131 ∷ 163 ∷ [] }
    ensures four { pixel_in Cmyk8 numbered 1 0 ≡ 129 ∷ 161 ∷ 193 ∷ 225 ∷ [] }
    ensures bit { pixel_in Black1 numbered 0 4 ≡ 1 ∷ [] }
    ensures white { pixel_in Black1 (0 ∷ []) 0 0 ≡ 0 ∷ [] }
{}
