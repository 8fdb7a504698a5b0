//! Error diffusion of one ink of one tile, from the edges that the tile is handed to those that it hands on. No call
//! allocates memory.
//!
//! `diffuse_tile`: take any plane that has the tile's amounts, and any errors that solve the kernel's rule for this
//! plane. If the three edges handed in hold these errors, so do the three handed on, and each dot is the rule's. There
//! is no dot left of the window, right of it or below it (`done`). The errors handed on are from -2040 to 2039
//! (`side_fits`, `bottom_fits`, `corner_fits`). The contract fixes no order of pixels. `diffuse_blank` is the same for
//! a tile without an amount, and is given none. If a tile has no amount and all errors handed in are 0, neither visits
//! a pixel.
#![tactic(auto)]

mod blank;
mod field;
mod lanes;
mod tile;

pub use field::Field;
pub use tile::{diffuse_blank, diffuse_tile};
