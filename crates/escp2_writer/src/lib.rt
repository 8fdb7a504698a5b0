//! Print commands as bytes, appended to a vector or written to a sink, with the rows of a raster plain or by their
//! least codes.
//!
//! `append_header` appends the bytes of a command, for a raster without its rows, to a vector that has room.
//! `append_row` appends the code of a row that is no wider than a page, to a vector that has room. `put` needs a
//! command of the table with rows of its length, and writes exactly the bytes of the command and its rows. If a write
//! of the sink fails, `put` has written a proper prefix of these bytes, and the sink's count of faults has risen. No
//! call allocates memory.
#![tactic(auto)]

mod appending;
mod headers;
mod writing;

pub use appending::{append_header, append_row};
pub use escp2_definitions::{Command, RasterHead};
pub use headers::{HeaderBytes, header_bytes};
pub use writing::put;
