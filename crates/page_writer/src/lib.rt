//! Writes the job of a page from its dots: stroke by stroke of a head over the page's window, ink by ink, with coded
//! rows.
//!
//! A `Head` describes its strokes: where each begins, and which row each nozzle fires. `write_strokes` takes any head
//! that suits the printer and the planes. On success exactly the bytes of the strokes are appended to the sink (`ok`),
//! and the result has the number of bytes and rasters (`sum`). On `Write` a proper prefix of the bytes was appended
//! (`part`), and the sink's count of faults rose (`write`). On `Memory` nothing was written (`memory`): all memory is
//! taken before the first byte.
//!
//! With several workers the strokes are cut into pieces of consecutive strokes. All workers code a batch of pieces
//! while the caller sends the batch above it. The step down to a stroke depends on which strokes above it have a dot.
//! So a stroke is coded behind seven bytes of room, into which the caller puts the step. The bytes are the same for any
//! number of workers. No clause claims that several workers work at once.
//!
//! `write_by_way` writes a page by a `Way` that the head can go: the interleaved passes of `weave_definitions::Plan`,
//! the shingled passes of `shingle_plan::ShinglePlan`, or the strokes of `dead_nozzles::StrokePlan` around dead
//! nozzles. It takes a profile that passes its checks, a form that the printer takes, and planes of the window's size.
//! The same clauses hold for the bytes of each halftone whose dots the planes have. These bytes also give one sheet
//! with exactly the halftone's dots (`prints`). They have no more rasters of an ink than the way takes, and each row
//! fires only what the way lets it fire (`keeps`). `write_page`, `write_shingled` and `write_healed` do the same, each
//! for its way.
//!
//! The bytes of a page are gathered, so that the sink gets few and large writes: up to 64 KiB wait for the next write.
//! A stroke of 16 KiB or more is written from where it was coded. No byte waits past the end of a page.
//!
//! `short` bounds the bytes: at most 49 + strokes * (7 + inks * (12 + 2 * nozzles * bytes of a row)). Only tests cover
//! how many writes a page takes.
#![tactic(auto)]

mod alone;
mod batches;
mod blank;
mod coded;
mod coder;
mod coding;
mod cut;
mod halves;
mod head;
mod ink;
mod numbers;
mod page_strokes;
mod passes;
mod prologue;
mod room;
mod rows;
mod sending;
mod shingles;
mod stroke;
mod strokes;
mod sums;
mod waiting;
mod ways;
mod worn;

pub use dot_planes::Planes;
pub use head::Head;
pub use page_definitions::Way;
pub use printer_profile::{PageForm, Profile, Window};
pub use strokes::{WriteStop, write_strokes};
pub use sums::{PageSum, most_bytes};
pub use ways::{write_by_way, write_healed, write_page, write_shingled};
