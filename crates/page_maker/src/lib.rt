//! Made streams: pages of drawn lines (PWG 5102.4), to try a driver without an input. The same seed makes the same
//! stream.
//!
//! `specs/Made.antt` defines the draws of a generator of 32 bits; a line as runs of drawn units; a page as groups of
//! drawn repeats, each in the canonical spelling; the pages (`made_pages`); and their stream (`made_stream`). The state
//! of the generator goes on from page to page.
//!
//! `make_pages` appends exactly `made_stream`, or returns `Memory` and appends nothing. A `PageMaker` is a source that
//! gives exactly `made_stream`, however it is read. It keeps one line and one piece of the stream: the sync word, a
//! header or a group. `make` allocates both or returns `Memory`. A read allocates no memory and never fails.
//!
//! `made_stream_is_read`: a reader that wants the resolution and the form of the pages reads back exactly the pages
//! that were made. `a_made_header_is_refused`: a reader that refuses their header finds its fault at page 1, line 0.
//! `a_made_header_is_checked_by_its_size`: at the wanted resolution this fault is `Width` or `Height`. The check
//! computes an example from seed 0 (`seed_zero_is_worked`).
#![tactic(auto)]

mod draws;
mod examples;
mod forms;
mod laws;
mod lines;
mod maker;
mod pages;
mod pieces;

pub use draws::Draws;
pub use examples::seed_zero_is_worked;
pub use forms::made_form;
pub use laws::{
    a_made_header_is_checked_by_its_size, a_made_header_is_refused, made_stream_is_read,
};
pub use maker::PageMaker;
pub use pages::make_pages;
