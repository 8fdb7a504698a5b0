//! The geometry of tiles. A window is cut into bands of 32 rows, and each band into tiles of 64 columns, each row 2
//! further left than the one above. So a tile needs errors from only three others.
//!
//! `columns` and `bands` are exactly the counts. `tile_of` returns the one tile that has a pixel, `needs` exactly the
//! edges that a tile needs, and `next` exactly the tile that an edge goes to. `laws`: each error that diffusion reads
//! for a pixel of a tile is one of the same tile or comes by an edge that it needs (`each_error_is_at_hand`); a tile
//! needs an edge exactly if another gives it (`an_edge_is_needed_where_it_is_given`); and no tile waits for itself
//! (`an_edge_goes_on`). `specs/Geometry.antt` has the definitions. Nothing here allocates memory.
#![tactic(auto)]

pub mod laws;
mod tiles;

pub use tiles::{Dir, Needs, Place, Shape};
