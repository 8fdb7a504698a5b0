//! The errors above a board of tiles: zeros at the top of a page, or the bottom edges of the band above.
ghost use Rattle.std.specs.Prelude.{List, [], pos, replicate, slice_index_or, ℕ, ℤ, ◌*◌, ◌+◌, ◌≡◌};
ghost use Rattle.diffusion_definitions.specs.Diffusion.{Errors, Plane, Solves, Table, errors, on, rest};
ghost use Rattle.tile_edges.specs.Edges.{IsAbove, IsCorner, IsPlaneOf};
ghost use Rattle.tile_edges.specs.Tops.{AreBottoms, IsBelow, IsCut, top_of};
ghost use Rattle.tile_shape.specs.declared.tiles.Shape.{Shape};

/// The edges of the first band come from the top: above tile c is edge c + 1 of the top, and at the corner the end of
/// edge c of the top.
pub fn the_first_band_has_the_edges_of_the_top()
    ensures above { (e : Errors) (edges : List (List ℤ)) (c : ℕ) → IsBelow edges e
        → IsAbove e (record { c = c; j = 0 }) (slice_index_or edges (c + 1) []) }
    ensures corner { (e : Errors) (edges : List (List ℤ)) (c : ℕ) (xs : List ℤ) → IsBelow edges e
        → IsCut (slice_index_or edges c []) xs → IsCorner e (record { c = c; j = 0 }) xs }
{}

/// If the top has no edge, the first band is handed zeros.
pub fn an_edge_that_the_top_has_not_is_zero()
    ensures above { (e : Errors) (edges : List (List ℤ)) (c : ℕ) → IsBelow edges e
        → slice_index_or edges (c + 1) [] ≡ []
        → IsAbove e (record { c = c; j = 0 }) (replicate 128 (pos 0)) }
    ensures corner { (e : Errors) (edges : List (List ℤ)) (c : ℕ) → IsBelow edges e → slice_index_or edges c [] ≡ []
        → IsCorner e (record { c = c; j = 0 }) (replicate 12 (pos 0)) }
{}

/// The errors above a page are 0.
pub fn a_page_has_no_edges_above()
    ensures { (t n : ℕ) → top_of [] t n ≡ pos 0 }
{}

/// The top of the rows below a band is the bottom edges of that band.
pub fn the_bottom_edges_are_the_top_of_the_rest()
    ensures { (k : Table) (p : Plane) (e : Errors) (s : Shape) (edges : List (List ℤ)) (j : ℕ)
        → Solves k p e → IsPlaneOf s p → AreBottoms s e j edges → IsBelow edges (λ t. e (32 * (j + 1) + t)) }
{}

/// So the rows below a band are diffused as a plane of their own, below the bottom edges of the band. The errors and
/// dots of this plane are those of the whole plane.
pub fn a_slab_is_diffused_below_bottom_edges()
    ensures errors { (k : Table) (p : Plane) (top : Errors) (s : Shape) (edges : List (List ℤ)) (j : ℕ)
        → IsPlaneOf s p → AreBottoms s (errors k p top) j edges
        → (y n : ℕ) → errors k (rest (32 * (j + 1)) p) (top_of edges) y n ≡ errors k p top (32 * (j + 1) + y) n }
    ensures dots { (k : Table) (p : Plane) (top : Errors) (s : Shape) (edges : List (List ℤ)) (j : ℕ)
        → IsPlaneOf s p → AreBottoms s (errors k p top) j edges
        → (y x : ℕ) → let below = rest (32 * (j + 1)) p in
        on k below (errors k below (top_of edges)) y x ≡ on k p (errors k p top) (32 * (j + 1) + y) x }
{}
