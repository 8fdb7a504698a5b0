//! The code of raster rows (ESC/P Reference Manual, run length encoding of `ESC .`): a reader of rows from pieces of
//! any length, and a writer of the least code of a row. `escp2_laws` proves that the least code is a code of its row,
//! and that no other code is shorter.
//!
//! A `RowReader` stands for the bytes of rows that it has read (`StandsFor`), however they were cut into pieces. `feed`
//! appends exactly the bytes of rows that the used bytes give, to a vector that has room for all that is left. `feed`
//! returns `More` if the whole piece was used and the rows are not yet whole; `Whole` if the rows end with the last
//! byte that was used, whatever follows; and `Fault` if the last byte that was used is a control byte of 128, or one
//! whose count passes the end of its row, whatever follows. After `Whole` or `Fault` the reader is done and must not be
//! fed. If the piece has all bytes of a packet and 16 more, the packet is read in a loop that puts blocks of 16 bytes
//! into the vector, past the end of what the packet gives, but not past the room of the vector.
//!
//! `cost_table` computes the costs of a row of at most `MOST_ROW_BYTES` bytes. `code_row` writes exactly the least code
//! of such a row, into a slice of at least twice the row's length. No call allocates memory.
#![tactic(auto)]

mod buffer;
mod costs;
mod examples;
mod literals;
mod reader;
mod whole_packets;
mod writer;

pub use costs::{CostTable, cost_table};
pub use examples::{bytes_of_ten, costs_of_ten, literal_of_ten};
pub use reader::{RowFed, RowReader, RowState};
pub use writer::code_row;
