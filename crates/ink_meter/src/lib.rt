//! Meters that count the dots of each ink, and refuse a page that would go past a cap. Also counts the dots of a page.
//!
//! A `Meter` has an `account`: its totals and its cap. `room` says whether the cap lets these dots be counted too;
//! reaching the cap exactly is allowed. `add` needs room, and adds each count to its total. `set_cap` changes the cap
//! alone. The four totals together fit 64 bits. `DotMeter::make` returns a meter that has counted nothing and has the
//! greatest cap, 2^64 - 1.
//!
//! Several meters of any kinds count together. `admit` says that all meters have room, or names the first meter without
//! room, with its place, its total and its cap. `add_all` needs room on all meters, and counts the dots on each.
//! `cap_all` sets the cap of each meter. `settle` returns the sum of each ink, and needs sums that fit 64 bits;
//! `can_settle` says whether they do.
//!
//! For each halftone whose dots the planes have, `count_dots` returns the number of its dots of each ink. No call
//! allocates memory.
#![tactic(auto)]

mod counts;
mod dot_meter;
mod meter;
mod meters;

pub use counts::count_dots;
pub use dot_meter::DotMeter;
pub use dot_planes::Planes;
pub use meter::Meter;
pub use meters::{OverCap, add_all, admit, can_settle, cap_all, settle};
pub use printer_definitions::{InkCounts, InkSet};
