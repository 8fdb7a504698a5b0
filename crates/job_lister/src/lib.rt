//! The listing of a print job, written while its bytes come: a line of text for each command, with the offset of its
//! first byte, the command's name, its numbers, and for a raster the number of its dots.
//!
//! `ListResult` states how `list_job` ends. On `Ok` the whole job was taken, and all its commands are listed. If the
//! job is refused, the commands before the refused place are listed. After a failed read, or if memory runs out, all
//! commands of the bytes taken are listed, and these bytes are valid so far, though they may be truncated. After a
//! failed write the sink has a proper prefix of the listing of some first commands of the bytes taken. A failed read or
//! write is returned only if the count of faults of the source or sink rose.
//!
//! `push_line` writes exactly the line of one command into an empty text. The command must be in the ranges of the
//! command table, with rows of its length. `raster_dots` returns the number of dots in the rows of a raster. Neither
//! call allocates memory.
#![tactic(auto)]

mod counting;
mod dots;
mod line;
mod lister;
mod numbers;

pub use dots::raster_dots;
pub use escp2_definitions::JobStop;
pub use line::{Line, push_line};
pub use lister::{ListStop, list_job};
