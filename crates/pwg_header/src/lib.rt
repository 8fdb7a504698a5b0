//! The header of a page of PWG Raster (PWG 5102.4, section 4.3): reading it, checking it, and writing it.
//!
//! `read_header` returns exactly the fields, valid or not. `check` returns the form of the page, or the first fault in
//! the order of `HeaderFault`. `write_header` writes all 1,796 bytes; a reader that wants this resolution and a page of
//! this form accepts them. `src/kinds.rt` has the table of kinds, from a kind to its numbers and back. No call
//! allocates memory.
#![tactic(auto)]

mod checking;
mod fields;
mod kinds;
mod reading;
mod writing;

pub use checking::check;
pub use pwg_definitions::{Header, HeaderFault, Kind, PageForm, Wanted};
pub use reading::read_header;
pub use writing::write_header;

/// The length of a page header in bytes.
pub const HEADER_LEN: usize = 1796;
