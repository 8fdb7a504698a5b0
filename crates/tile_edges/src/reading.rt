//! The errors that a pixel reads. Its tile has each of them at hand.
ghost use Rattle.std.specs.Prelude.{List, length, ℕ, ℤ, ◌+◌, ◌≡◌, ◌≤◌, ◌↔◌};
ghost use Rattle.diffusion_definitions.specs.Diffusion.{Errors, Plane, Table, value_at};
ghost use Rattle.tile_edges.specs.Edges.{IsAbove, IsCorner, IsLeft};
ghost use Rattle.tile_edges.specs.Reads.{GivesTo, HasAllShares, IsAtHand, ReadsAt};
ghost use Rattle.tile_shape.specs.Geometry.{IsAt, Reads};
ghost use Rattle.tile_shape.specs.declared.tiles.Place.{Place};

/// `Reads` of the geometry lists the same errors, of pixels.
pub fn pixels_are_read_at_their_places()
    ensures { (x y a b : ℕ) → (Reads x y a b ↔ ReadsAt x y (b + 2) (a + 4)) }
{}

/// If the rows of a table are no longer than those of a printed one, each share above 0 gives an error at a place that
/// is read. A table with all twelve shares above 0 has a share for each such place.
pub fn each_share_gives_an_error_that_is_read()
    ensures read { (k : Table) (x y m n : ℕ) → length k.right ≤ 2 → length k.below ≤ 5 → length k.below2 ≤ 5
        → GivesTo k x y m n → ReadsAt x y m n }
    ensures given { (k : Table) (x y m n : ℕ) → HasAllShares k → ReadsAt x y m n → GivesTo k x y m n }
{}

/// The value of a pixel depends only on errors that give to the pixel by a share above 0.
pub fn no_other_error_counts()
    ensures { (k : Table) (p : Plane) (e f : Errors) (x y : ℕ)
        → length k.right ≤ 2 → length k.below ≤ 5 → length k.below2 ≤ 5
        → ((m n : ℕ) → GivesTo k x y m n → e m n ≡ f m n) → value_at k p e y x ≡ value_at k p f y x }
{}

/// Each error that a pixel reads is one that its tile already has, or is in one of the three edges that the tile
/// was handed, whatever band it is in.
pub fn each_error_is_in_the_tile_or_its_edges()
    ensures { (e : Errors) (p : Place) (row offset x y m n : ℕ) (left above corner : List ℤ)
        → IsAt p row offset x y → ReadsAt x y m n → IsLeft e p left → IsAbove e p above → IsCorner e p corner
        → IsAtHand e p row offset left above corner (e m n) }
{}
