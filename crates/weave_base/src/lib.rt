//! The outside of the driver: where bytes come from (`Source`) and go to (`Sink`), where profiles' texts are found by
//! name (`Shelf`), and the words of a command line (`Words`). The crates above use nothing else from outside.
//!
//! Each source, sink and shelf counts its faults, and `Failed` comes only if the count rose. A failed read takes no
//! byte and a failed write appends none, so after a failure the same call may be made again. `put_all` appends the
//! whole piece, or a proper prefix of the piece if a write fails.
//!
//! - `MemSource`, `MemSink` and `MemShelf` show what they hold to contracts. They fail exactly at the listed calls. The
//!   sink also fails if no room is left for a piece.
//! - `StdSource` and `StdSink` are readers and writers of std. They pass on what the reader gives and the writer takes.
//!   Contracts see what the reader or the writer shows. Standard input and output show nothing; tests show their bytes.
//!   `StdSource` and `StdSink` count each error of std, and a write that takes nothing of a piece that is not empty.
//!   But after `Interrupted` they call std again, at most `MOST_INTERRUPTIONS` times in one call, and count only one
//!   more. No clause says how often std is called; tests show it.
//! - `DirShelf` is the current folder, and does not show what it holds. By its contract a text is at most as long as
//!   was asked for, a name that is empty, `.` or `..` or has a `/` is absent, and exactly each `Failed` is counted.
//!   Tests show the rest: a file that does not exist is absent, and a folder in place of a file is `Failed`. A read of
//!   at most `most` bytes takes at most `most` + 1 from the file.
//!
//! No clause says when memory runs out. A call that takes an allocator may return `Memory`, and so may `Words::push`.
//! The clauses of the call say what then holds, and a test shows that the call can succeed.
#![tactic(auto)]

mod adapters;
mod answers;
mod bounds;
mod command_line;
mod directory;
mod memory_shelf;
mod memory_sink;
mod memory_source;
mod shelf;
mod sink;
mod source;

pub use adapters::{MOST_INTERRUPTIONS, StdSink, StdSource};
pub use answers::Failed;
pub use base_definitions::Memory;
pub use command_line::Words;
pub use directory::DirShelf;
pub use memory_shelf::{MemShelf, ShelfFile};
pub use memory_sink::MemSink;
pub use memory_source::MemSource;
pub use printer_definitions::{Ink, InkCounts, InkSet};
pub use shelf::{Found, Shelf, ShelfStop};
pub use sink::{Sink, put_all};
pub use source::Source;
