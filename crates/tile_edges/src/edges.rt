//! The errors at a tile's places, and the edges that one tile hands to another.
ghost use Rattle.std.specs.Prelude.{List, pos, replicate, slice_index_or, ℕ, ℤ, ◌*◌, ◌+◌, ◌-◌, ◌<◌, ◌≡◌, ◌≤◌, ◌↔◌};
ghost use Rattle.diffusion_definitions.specs.Diffusion.{Errors, Plane, Solves, Table};
ghost use Rattle.tile_edges.specs.Edges.{IsGiven, IsOnBoard, IsPlaneOf, IsTaken, edge_length, skewed};
ghost use Rattle.tile_shape.specs.Geometry.{IsAt, IsNeeded, IsPixel, IsReceiver, IsTile, first_offset, first_row};
ghost use Rattle.tile_shape.specs.declared.tiles.Dir.{Dir};
ghost use Rattle.tile_shape.specs.declared.tiles.Place.{Place};
ghost use Rattle.tile_shape.specs.declared.tiles.Shape.{Shape};

/// The error of a pixel is at the pixel's row and offset in its tile. A place without a pixel has the error 0.
pub fn each_place_has_its_error()
    ensures pixel { (e : Errors) (p : Place) (row offset x y : ℕ) → IsAt p row offset x y
        → skewed e p.j (row + 2) (64 * p.c + offset + 6) ≡ e (y + 2) (x + 4) }
    ensures none { (k : Table) (plane : Plane) (e : Errors) (s : Shape) (p : Place) (row offset : ℕ)
        → Solves k plane e → IsPlaneOf s plane → row < 32 → offset < 64
        → ((x y : ℕ) → IsAt p row offset x y → ¬ IsPixel s x y)
        → skewed e p.j (row + 2) (64 * p.c + offset + 6) ≡ pos 0 }
{}

/// An edge has the errors of its tile, row by row, from the edge's first row and first offset on.
pub fn an_edge_has_its_rows_and_offsets()
    ensures { (e : Errors) (d : Dir) (p : Place) (xs : List ℤ) → (IsGiven e d p xs ↔ ((row offset : ℕ)
        → first_row d ≤ row → row < 32 → first_offset d ≤ offset → offset < 64
        → slice_index_or xs ((64 - first_offset d) * (row - first_row d) + (offset - first_offset d)) (pos 0)
        ≡ skewed e p.j (row + 2) (64 * p.c + offset + 6))) }
{}

/// The edge that a tile hands on is the edge that the receiver is handed.
pub fn an_edge_given_is_an_edge_taken()
    ensures { (e : Errors) (d : Dir) (from to : Place) (xs : List ℤ) → IsReceiver d from to
        → (IsGiven e d from xs ↔ IsTaken e d to xs) }
{}

/// An edge that a tile of a board does not need is all 0.
pub fn an_edge_that_does_not_exist_is_zero()
    ensures { (k : Table) (plane : Plane) (e : Errors) (s : Shape) (d : Dir) (to : Place)
        → Solves k plane e → IsPlaneOf s plane → IsTile s to → IsOnBoard d to → ¬ IsNeeded s d to
        → IsTaken e d to (replicate (edge_length d) (pos 0)) }
{}
