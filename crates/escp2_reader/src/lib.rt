//! Commands read from the bytes of a print job: in pieces of any length (`JobReader`), or from a source (`JobFeed`).
//!
//! A `JobReader` stands for the bytes since the last whole command (`StandsFor`), however they were cut into pieces.
//! `feed` returns `More` if these bytes are a part of a command, and the whole piece was used; `One` if the bytes are a
//! whole command, whatever follows, and then the reader stands for no bytes and `rows` has the rows of a raster; and
//! `Fault` if the bytes have a fault, whatever follows, which shows with the last byte that was used. After a fault
//! each call returns the fault again, and uses nothing. Before a fault each call uses at least one byte of a piece that
//! is not empty.
//!
//! `end` returns `Cut` exactly inside a command, with the offset of the command's first byte. `make` allocates the
//! memory for the rows of the largest raster, or returns `Memory`. No other call of the reader allocates memory.
//!
//! A `JobFeed` reads ahead from a source. A job has at most `most` bytes, and no byte past them is read as a part of
//! the job. `JobFeed::next` starts between two commands (`IsBetween`). It returns one of four results: the next
//! command, whose bytes were taken, however they were cut into pieces (`TakesCommand`); `None` if the job ends there
//! (`HasEnded`); why the job is refused, with the offset (`IsRefused`); or a failed read. After a failed read the
//! source's count of faults has risen, and the bytes taken are less than a command (`HasFailed`). All of these bytes
//! were looked at (`all_used`), so a fault that was read is returned before a later failed read. By
//! `laws::commands_follow` the commands of successive calls are those of the bytes that were taken. `make` also
//! allocates the memory for a buffer. No other call of the feed allocates memory.
#![tactic(auto)]

mod feed;
mod headers;
pub mod laws;
mod reader;
mod sized;

pub use escp2_definitions::{Command, JobCause, JobStop, RasterHead};
pub use feed::{FeedStop, JobFeed, PlacedCommand};
pub use reader::{Cut, Heard, HeardState, JobReader};
