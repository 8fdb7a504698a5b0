//! Planes worked out by hand. The check computes each of them.
#![tactic(auto, unfolding(crate::specs::Diffusion::errors, crate::specs::Diffusion::row_errors, crate::specs::Diffusion::value))]

ghost use Rattle.diffusion_definitions.specs.Diffusion.{error_of, floyd, is_dot, jarvis, stucki, value};
ghost use Rattle.diffusion_definitions.specs.Examples.{dots_of_row, errors_of_row, given_by_row, given_by_row2, given_by_same};
ghost use Rattle.diffusion_definitions.specs.Examples.{minus, row_of_halves, two_rows};
ghost use Rattle.std.specs.Prelude.{[], false, pos, true, ◌≡◌, ◌∷◌};

/// Four pixels of amount 128 by Floyd and Steinberg.
pub fn floyd_row_of_four_halves()
    ensures dots { dots_of_row floyd (row_of_halves 4) 0 ≡ true ∷ false ∷ true ∷ false ∷ [] }
    ensures errors { errors_of_row floyd (row_of_halves 4) 0 ≡ minus 2032 ∷ pos 1159 ∷ minus 1525 ∷ pos 1380 ∷ [] }
{}

/// Three pixels of amount 128 by Jarvis, Judice and Ninke.
pub fn jarvis_row_of_three_halves()
    ensures dots { dots_of_row jarvis (row_of_halves 3) 0 ≡ true ∷ false ∷ true ∷ [] }
    ensures errors { errors_of_row jarvis (row_of_halves 3) 0 ≡ minus 2032 ∷ pos 1751 ∷ minus 1989 ∷ [] }
{}

/// Three pixels of amount 128 by Stucki.
pub fn stucki_row_of_three_halves()
    ensures dots { dots_of_row stucki (row_of_halves 3) 0 ≡ true ∷ false ∷ true ∷ [] }
    ensures errors { errors_of_row stucki (row_of_halves 3) 0 ≡ minus 2032 ∷ pos 1660 ∷ minus 1910 ∷ [] }
{}

/// Two rows by Floyd and Steinberg: amounts 46, too small for a dot, and below them 96 96 96 92, whose dots come from
/// the errors of the first row too.
pub fn floyd_plane_of_two_rows()
    ensures dots0 { dots_of_row floyd two_rows 0 ≡ false ∷ false ∷ false ∷ false ∷ [] }
    ensures errors0 { errors_of_row floyd two_rows 0 ≡ pos 736 ∷ pos 1058 ∷ pos 1198 ∷ pos 1260 ∷ [] }
    ensures dots1 { dots_of_row floyd two_rows 1 ≡ false ∷ true ∷ false ∷ true ∷ [] }
    ensures errors1 { errors_of_row floyd two_rows 1 ≡ pos 1964 ∷ minus 1084 ∷ pos 1738 ∷ minus 1379 ∷ [] }
{}

/// A dot is set from half of the greatest amount on.
pub fn a_dot_stands_from_2040_on()
    ensures at_2040 { is_dot (pos 2040) ≡ true }
    ensures at_2039 { is_dot (pos 2039) ≡ false }
    ensures amount_127 { value floyd 127 [] [] [] ≡ pos 2032 }
    ensures amount_128 { value floyd 128 [] [] [] ≡ pos 2048 }
    ensures no_dot_at_127 { is_dot (value floyd 127 [] [] []) ≡ false }
    ensures dot_at_128 { is_dot (value floyd 128 [] [] []) ≡ true }
    ensures left_127 { error_of (pos 2032) ≡ pos 2032 }
    ensures left_128 { error_of (pos 2048) ≡ minus 2032 }
{}

/// Each share of Floyd and Steinberg's table, by the place of an error of 16. The error at x + 1 one row
/// above gives by the share for the pixel below and to the left.
pub fn each_share_of_floyd()
    ensures same { given_by_same floyd (pos 16) ≡ pos 7 ∷ pos 0 ∷ [] }
    ensures up1 { given_by_row floyd (pos 16) ≡ pos 0 ∷ pos 1 ∷ pos 5 ∷ pos 3 ∷ pos 0 ∷ [] }
    ensures up2 { given_by_row2 floyd (pos 16) ≡ pos 0 ∷ pos 0 ∷ pos 0 ∷ pos 0 ∷ pos 0 ∷ [] }
{}

/// Each share of Jarvis, Judice and Ninke's table, by the place of an error of 48.
pub fn each_share_of_jarvis()
    ensures same { given_by_same jarvis (pos 48) ≡ pos 7 ∷ pos 5 ∷ [] }
    ensures up1 { given_by_row jarvis (pos 48) ≡ pos 3 ∷ pos 5 ∷ pos 7 ∷ pos 5 ∷ pos 3 ∷ [] }
    ensures up2 { given_by_row2 jarvis (pos 48) ≡ pos 1 ∷ pos 3 ∷ pos 5 ∷ pos 3 ∷ pos 1 ∷ [] }
{}

/// Each share of Stucki's table, by the place of an error of 42.
pub fn each_share_of_stucki()
    ensures same { given_by_same stucki (pos 42) ≡ pos 8 ∷ pos 4 ∷ [] }
    ensures up1 { given_by_row stucki (pos 42) ≡ pos 2 ∷ pos 4 ∷ pos 8 ∷ pos 4 ∷ pos 2 ∷ [] }
    ensures up2 { given_by_row2 stucki (pos 42) ≡ pos 1 ∷ pos 2 ∷ pos 4 ∷ pos 2 ∷ pos 1 ∷ [] }
{}
