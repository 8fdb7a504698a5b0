//! The edges of tiles: the errors that a tile hands to others, and those that it is handed. `specs/` has the
//! definitions. Each function is a law, the contract of an empty function.
//!
//! Each error that diffusion reads for a pixel is one of the same tile, or is in an edge that the tile was handed
//! (`each_error_is_in_the_tile_or_its_edges`). The edge that one tile hands on is the edge that the other is handed
//! (`an_edge_given_is_an_edge_taken`). An edge that does not exist is zero (`an_edge_that_does_not_exist_is_zero`).
//! Below the bottom edges of a band the rows of a plane have the errors and dots that they have in the whole plane
//! (`a_slab_is_diffused_below_bottom_edges`).
#![tactic(auto)]

pub mod edges;
pub mod handed;
pub mod reading;
pub mod tops;
