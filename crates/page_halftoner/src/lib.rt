//! Halftones pages: lines of pixels become packed planes of dots as the lines come.
//!
//! A `Halftoner` stands for lists of lines: each list with which the page may have begun so far. For each such list the
//! kept errors and the dots are those of row-by-row diffusion of a page that begins with these lines, whatever lines
//! follow.
//!
//! `begin` takes the memory for the planes, one slab and the errors above it. The halftoner then stands for the empty
//! list. `lines` appends a line to each of these lists, as often as the line repeats. Lines in the margins count, and
//! leave no dots. Once all lines of the page have come, `finish` returns planes with exactly the dots of the page's
//! halftone (`HasDots`). After `lines` has returned `Memory`, each later call of `lines` does too (`for_good`).
//!
//! The two parts of a `Halftoner` serve callers that read lines while slabs are diffused. A `Filler` takes lines into a
//! slab until the slab is full (`full`), and then goes on to the rows below, in the same slab or in a spare one. Its
//! promise about the lines holds whatever the rows before the slab are diffused to (`PutsLines`). A `Diffuser` has the
//! dots of the rows before the slab, and diffuses a full slab beside an errand of the caller.
#![tactic(auto)]

mod diffuser;
mod filler;
mod halftoner;
mod slabs;

pub use diffuser::Diffuser;
pub use filler::Filler;
pub use halftoner::Halftoner;
