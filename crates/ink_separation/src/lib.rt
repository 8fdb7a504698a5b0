//! Separation: the amount of each of a printer's inks at the pixels of a page.
//!
//! A `Separator` is made once for a page, from a profile, the kind of the page's pixels and the page's window.
//! `separate_columns` sets the amounts of a tile, in each ink, to exactly those of the definition, from the bytes of
//! the tile's pixels by columns. `separate` does so for row `at` of a table of amounts from a line, and leaves the
//! other rows unchanged. `amounts` does so for one line. No call allocates memory. An ink whose curve is not straight
//! has a table of its tones, scaled by its limit.
#![tactic(auto)]

mod bits;
mod black;
mod colours;
pub mod examples;
mod given;
mod pixels;
mod planes;
mod quarters;
mod scales;
mod separator;
mod tiles;

pub use separator::{Separator, amounts};
