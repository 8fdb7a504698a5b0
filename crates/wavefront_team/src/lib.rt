//! Slabs of a page, diffused by several workers. Each worker has a pass of one board. It claims tiles in turn, and
//! works and posts the tiles that it gets. The caller works the tiles that the workers leave, and lays the dots of all
//! tiles into the planes, a band at a time.
//!
//! `diffuse`: whichever worker works which tile, and in whatever order, the rows of the slab have the dots of
//! row-by-row diffusion below the given top, and all other rows of the planes are unchanged. The result is the bottom
//! edges of the slab's last band (`slab`). On `Memory` the planes are unchanged (`unchanged`). Tests show that the call
//! succeeds with ample memory. `diffuse_beside` does the same, and runs the caller's errand beside the workers, just
//! once (`errand`), on the caller's own thread. On `Memory` the errand is not begun (`not_begun`).
//!
//! `diffuse_beside` puts the dots into a `DotsSoFar`. The tiles of a slab may wait there, so that the caller can lay
//! them while others diffuse the next slab. It is not promised when they are laid. Contracts see the dots of waiting
//! tiles as dots of the page (`dots_in`), and `finish` returns planes that have all dots.
//!
//! Tests show that every tile enters the gate before it is worked. The tests hold workers at the gate: two tiles are
//! inside at once, each enters once, and the dots are the same however long tiles are held back.
#![tactic(auto)]

mod diffusing;
mod laying;
mod share;
mod so_far;
mod waiting;
mod work;
mod worker;

pub use diffusing::{diffuse, diffuse_beside};
pub use so_far::DotsSoFar;
