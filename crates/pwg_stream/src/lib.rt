//! A stream of pages, PWG Raster (PWG 5102.4, section 4), read from a source piece by piece.
//!
//! A `PageReader` takes bytes of a source ahead of their use. Its text is the bytes that it took and has not used,
//! followed by what the source has left (`text_of`). Each clause is about this text. If the source does not show what
//! it holds, the clauses say nothing about the bytes of the text. The reader does not hold the source: each call
//! borrows one, and should borrow the same one.
//!
//! - `begin` uses the sync word, or the text is not a stream of pages and ends with the returned fault, of page 0.
//! - `next_page` must be called with no line of the page before left. Either the next 1,796 bytes were an accepted
//!   header, and the page has its form, the next number up to 9,999, and all its lines left; or the text is at its end;
//!   or the stream has no further page and ends with the returned fault.
//! - `next_line` must be called with a line of the page left. Either the next bytes were a group of this page, whatever
//!   follows; `line` is then the line of the group, and `lines_left` the number of lines left. Or the rest of the page,
//!   read from the text, stops at the returned line with the returned cause.
//! - Each of the three uses a prefix of the text, and loses nothing if it stops (`used`). The first `Read` comes only
//!   if the source's count of faults rose; the count never falls (`read`, `later`). The bytes that were taken then do
//!   not hold the whole of what the call was to read (`short`; `taken` of `next_line`). They have no fault except one
//!   that more bytes could mend, or are fewer than the four bytes of the sync word (`taken`). So a fault that was read
//!   is returned before a later failed read.
//! - After a stop each later call returns the same stop, reads nothing and changes nothing (`stop`, `again`). The same
//!   holds for the end (`end`, `end_again`).
//!
//! `begin` and `next_page` allocate memory. `next_line` returns `Memory` only if an earlier call did.
#![tactic(auto)]

mod groups;
mod headers;
mod reader;
mod stops;
mod sync;

pub use headers::MOST_PAGES;
pub use reader::PageReader;
pub use stops::StreamStop;
