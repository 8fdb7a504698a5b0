//! The laws of the geometry, each the contract of an empty function.
ghost use Rattle.std.specs.Prelude.{◌*◌, ◌+◌, ◌-◌, ◌<◌, ◌≡◌, ◌≤◌, ◌⊎◌, ◌↔◌, ℕ};
ghost use Rattle.tile_shape.specs.Geometry.{ComesBy, IsIn, IsNeeded, IsPixel, IsReceiver, IsShape, IsTile, Reads};
ghost use Rattle.tile_shape.specs.Geometry.{bands_of, columns_of};
ghost use Rattle.tile_shape.specs.declared.tiles.Dir.{Dir};
ghost use Rattle.tile_shape.specs.declared.tiles.Place.{Place};
ghost use Rattle.tile_shape.specs.declared.tiles.Shape.{Shape};

/// Each error that diffusion reads for a pixel of a tile is one of the same tile, or comes by an edge that the tile
/// needs.
pub fn each_error_is_at_hand()
    ensures { (s : Shape) (p : Place) (x y a b : ℕ)
        → IsIn s p x y → Reads x y a b → IsPixel s a b
        → IsIn s p a b ⊎ ((d : Dir) × ComesBy s d p a b) }
{}

/// A tile needs an edge exactly if the window has the tile that the edge comes from.
pub fn an_edge_is_needed_where_it_is_given()
    ensures { (s : Shape) (d : Dir) (p : Place) → IsTile s p
        → (IsNeeded s d p ↔ ((from : Place) × (IsTile s from × IsReceiver d from p))) }
{}

/// An edge goes to one tile at most, and a tile gets each kind of edge from one tile at most.
pub fn an_edge_joins_two_tiles()
    ensures to { (d : Dir) (p a b : Place) → IsReceiver d p a → IsReceiver d p b → a ≡ b }
    ensures from { (d : Dir) (p a b : Place) → IsReceiver d a p → IsReceiver d b p → a ≡ b }
{}

/// Each edge goes to a tile with a greater c + 2 j, so no tile waits for itself.
pub fn an_edge_goes_on()
    ensures { (d : Dir) (from to : Place) → IsReceiver d from to → from.c + 2 * from.j < to.c + 2 * to.j }
{}

/// The last band of a window has a pixel, and so has the last column if the first band is whole.
pub fn no_column_or_band_is_spare()
    ensures band { (s : Shape) → IsShape s
        → IsIn s (record { c = 0; j = bands_of s - 1 }) 0 (s.height - 1) }
    ensures column { (s : Shape) → IsShape s → 32 ≤ s.height
        → IsIn s (record { c = columns_of s - 1; j = 0 }) (s.width - 1) 31 }
{}
