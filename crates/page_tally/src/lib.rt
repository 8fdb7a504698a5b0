//! What a job puts on its sheets, counted while its commands pass: the number of the page in hand, the dots of each ink
//! on its sheet, and the place of the head on the page. Lines of text tell them.
//!
//! A `Tally` takes the commands of a job one by one, and needs no printer. `page_line` writes the line of a page that a
//! form feed ejects, `cut_page_line` the line of a page that is open where its job ends, and `progress_line` the line
//! of a tenth of the page's length. Each writes exactly its definition into an empty text. No call allocates memory.
//!
//! Two laws compare the lines with the machine of `escp2_definitions`, if that takes all commands of the job.
//! `the_lines_are_of_the_sheets`: the lines of pages are those of the sheets, in order, with the dots of each ink.
//! `the_number_of_dots`: the line of a page that is cut has the dots that are on its sheet. `specs/Tallies.antt` has
//! the counts, `Lines.antt` the lines, and `Sheets.antt` the lines of sheets.
#![tactic(auto)]

mod examples;
mod laws;
mod lines;
mod tally;

pub use examples::{
    a_cut_page_is_told, a_listing_is_told, a_page_without_a_length_has_no_progress,
    pages_have_numbers,
};
pub use laws::{the_lines_are_of_the_sheets, the_number_of_dots};
pub use lines::{Line, Telling, cut_page_line, page_line, progress_line};
pub use printer_definitions::InkCounts;
pub use tally::Tally;
