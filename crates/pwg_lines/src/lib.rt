//! The run-coded lines of a page of PWG Raster (PWG 5102.4, section 4.4): groups of equal lines, read from pieces of
//! any length, and written. A line is a whole number of units, which its packets repeat. A unit is a pixel of 1, 3 or 4
//! bytes, or a byte with eight pixels of one bit.
//!
//! A `LineReader` stands for the bytes of a group that it has read (`StandsFor`), however they were cut into pieces.
//! `feed` returns `More` if it used the whole piece and the group is not yet complete. It returns `Line` if the group
//! ends with the last byte that was used, whatever follows, and `Fault` if the last byte that was used shows the first
//! fault, whatever follows. After a fault each call returns the fault again and uses no byte.
//!
//! After `begin`, after `restart` and after each `Line` the reader is before a group (`IsAnew`) and stands for no bytes
//! (`anew_stands` in `proofs/Feeding.antt`). A struct that holds a reader may keep `IsAnew` as a ghost field. `begin`
//! allocates one line. `restart` returns `Memory` only if the new line is longer than the old one; the reader is then
//! unchanged. `feed` allocates no memory. If the piece has all bytes of a packet, the packet is read in a loop that
//! puts blocks of 64 bytes into the line, past the end of what the packet gives, but not past the end of the line.
//!
//! `code_line` appends exactly the canonical group of a line, or returns `Memory` and appends nothing. It succeeds if
//! the output has room for one byte more than two for each byte of the line. `fill_units` puts copies of a unit into a
//! line. `canonical_spells` proves that the canonical group spells the line.
#![tactic(auto)]

mod answers;
mod buffer;
mod laws;
mod reader;
mod states;
mod whole_packets;
mod writer;

pub use answers::{Fed, Fill};
pub use buffer::fill_units;
pub use laws::canonical_spells;
pub use pwg_definitions::{Kind, LineFault, PageForm};
pub use reader::LineReader;
pub use writer::code_line;
