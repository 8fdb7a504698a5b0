//! A job that is read to finish it and to tell its pages. A `PageWatch` reads the pieces in which the job comes, counts
//! its commands by a `Tally`, and stops behind each command whose lines may be due.
//!
//! `feed` uses a piece up to the end of the next command of interest: a form feed, a reset, and with a telling of
//! progress a command that sets margins or moves the head down (`is_due`). No command before it has a line. So a caller
//! passes on the bytes that were used, as far as they made commands whole (`Seen::whole`), and then tells the lines of
//! the event (`event_lines`): the lines of all events, in order, are those of the job's commands (`told`). At a fault
//! of the command table nothing more is read, and the tally stays that of the whole commands.
//!
//! `specs/Watching.antt` has the definitions. `make` allocates all memory.
#![tactic(auto)]

mod watch;

pub use page_tally::{Tally, Telling};
pub use watch::{Event, PageWatch, Seen, SeenState};
