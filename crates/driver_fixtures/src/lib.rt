//! What tests of whole runs share: streams of pages, words, sources, sinks and shelves in memory, and runs over them.
#![tactic(auto)]

mod outsides;
mod runs;
mod streams;

pub use outsides::{failing_shelf, no_files, one_file, plain, roomy, sink, source, words};
pub use runs::{Left, run_over, run_with};
pub use streams::{BLACK_BODY, add_header, add_page, begin, black_pages, joined, prefix};
