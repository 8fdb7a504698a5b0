//! The format of a stream of pages, PWG Raster (PWG 5102.4): its definitions and their types.
//!
//! `specs/Header.antt` defines the page header and the table of kinds, `Groups.antt` the run-coded lines, `Stream.antt`
//! how the bytes of a stream are read, and `Spelling.antt` which bytes spell a stream. `pwg_laws` proves that every
//! spelling is read, and that bytes that are read without a fault are a spelling. `Limits.antt` has the numbers of the
//! standard, and the most pages of a stream, which is this project's own limit. `pwg_header`, `pwg_lines` and
//! `pwg_stream` re-export the types.
#![tactic(auto)]

mod faults;
mod pages;

pub use base_definitions::{MOST_COLUMNS, MOST_ROWS};
pub use faults::{HeaderFault, InputCause, LineFault};
pub use pages::{Header, Kind, PageForm, Wanted};
