//! Writes the sheets of a print job as images, each sheet when it is ejected. Also counts the sheets of pages and their
//! dots.
//!
//! `play_job` takes a profile that passes its checks, and ends as `PlayResult` says. On `Ok` the whole input was a job
//! that the printer takes, and the images of its sheets were written. If the job is refused, the images of the sheets
//! before that place were written. After a failed read the images of all sheets that the bytes taken eject were
//! written, and more bytes could mend where the job stops. After a failed write the images of the sheets before the
//! named sheet were written, and a proper prefix of the images of that sheet. On `Memory` the images of some first
//! sheets of the bytes read were written. After a failed read or write the count of faults of the source or sink has
//! risen.
//!
//! `write_plane` appends exactly the image of one ink (raw PBM, of kind P4, of the Netpbm formats). If a write fails,
//! it has appended a proper prefix of the image, and the sink's count of faults rose. It allocates no memory.
//!
//! A `JobCounter` runs the jobs of up to 65,536 pages in memory on one printer, one after another. `execute_page` is
//! called between two pages (`IsBetweenPages`). It takes bytes that are the job of a page (`TakesPage`), and never
//! refuses them. On `Ok` it has counted one more sheet and, if the page's dots are distinct, the page's dots of each
//! ink (`CountsPage`). The next page can follow.
#![tactic(auto)]

mod counting;
mod image;
mod player;
mod sheets;

pub use counting::JobCounter;
pub use escp2_definitions::JobStop;
pub use image::write_plane;
pub use player::{PlayStop, play_job};
