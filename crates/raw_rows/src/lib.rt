//! Rows of a slab whose lines are kept as they were read. Pixels are separated when a tile gathers them, by the thread
//! that works the tile. The bytes of a tile are transposed first, and then separated by columns. A tile whose bytes are
//! all white is not gathered, if white has no amount of any ink. A repeated line is kept once.
//!
//! `RawRows` are `TileRows`: the amounts of a row are those of the separator's formula at the pixels of the row's line.
//! `make` allocates the memory for all lines, or returns `Memory`. `put_line` gives a row a line, and `repeat_line`
//! gives it the line of the row above. The rows above keep their amounts; the rows below may get any.
#![tactic(auto)]

mod bits;
mod by_columns;
mod gathering;
mod kept;
mod lines;
mod spans;
mod tile_bytes;
mod transpose;
mod white;
mod whole;

pub use kept::RawRows;
