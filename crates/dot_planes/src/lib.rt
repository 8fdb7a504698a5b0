//! Tables over the window of a page: the dots of each ink in packed planes, and the amounts of each ink.
//!
//! `InkRows` holds amounts, ink by ink and row by row. `Planes` holds dots, row by row and ink by ink. Contracts see
//! tables (`AmountTable`, `DotTable`) with the values `amount` and `dot`. A row of dots is packed: eight dots a byte,
//! the first in the highest bit, and spare bits of 0.
//!
//! Each `make` returns a table without dots or of amounts 0, or `Memory`; no other call allocates memory. The contract
//! of each call that sets dots or amounts says what the call sets, and that everything else is unchanged: `turn_on` one
//! dot, `lay` the first dots of a row from any column on, `put_tile` the pixels of a tile in a slab, `put_band` all
//! dots of a band of its tiles at once, `put_part` a part of a row of amounts, `copy_row` a row of amounts in all inks.
//!
//! `TileBits` holds the dots of one tile, 256 bytes an ink, and `TileAmounts` its amounts, 2048 bytes an ink. `gather`
//! of `TileRows`, which `InkRows` implements, sets a tile's amounts wherever the rows have a pixel of the tile, or says
//! that the tile has no amount. A `Seen` stands for rows in contracts.
#![tactic(auto)]

mod amounts;
mod band_rows;
mod bit_rows;
mod counts;
mod eights;
mod gathered;
mod ink_rows;
mod places;
mod planes;
mod seen;
mod tile_rows;
mod tiles;

pub use amounts::{GatherRoom, TILE_BYTES, TileAmounts, TileRows};
pub use bit_rows::has_dot;
pub use ink_rows::InkRows;
pub use planes::Planes;
pub use seen::Seen;
pub use tiles::{TileBits, TileDots};
