//! The definition of a printer: its inks, and the record `Printer` of the numbers by which separation, print jobs and
//! pages on paper are defined (`specs/Printer.antt`). The code has the types `Ink`, `InkSet` and `InkCounts`, which
//! `weave_base` re-exports.
#![tactic(auto)]

mod inks;

pub use inks::{Ink, InkCounts, InkSet};
