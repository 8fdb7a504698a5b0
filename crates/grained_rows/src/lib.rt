//! Rows of amounts with grain applied.
//!
//! `GrainedRows` are `TileRows`: a tile has the amounts that it has in other rows, with the grain of their places
//! applied, and no amounts where the other rows have none. The other rows keep their amounts, so a repeated line is
//! still kept once. The thread that works a tile applies the tile's grain.
#![tactic(auto)]

mod grain;
mod moving;
mod rows;

pub use grain::InkGrain;
pub use rows::GrainedRows;
