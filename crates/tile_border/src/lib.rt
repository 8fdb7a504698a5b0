//! Tiles with their edges, in all inks: what a tile is handed, what it hands on, and the top edges of a board. `given`
//! defines what each tile of a board gives, as a function of the board's amounts, its kernel and its top: in each ink
//! the edges and the dots that row-by-row diffusion has in the tile.
//!
//! - `RightEdge`, `BottomEdge`, `CornerEdge`: a list of errors for each ink, each error from -2040 to 2039. `zero` has
//!   errors 0, `ink` returns the errors of an ink, and `put` sets those of one ink and keeps all others.
//!   `BottomEdge::ends` are the last six errors of an ink's two rows, and `cut_ends` puts them in a corner edge.
//! - `TopEdges`: a bottom edge for each column of tiles. `zero`, `at` and `put` make, return and set them.
//! - `work_in`: take any errors that solve the rule for an ink. If the three edges of the task hold these errors, so do
//!   the three edges that `work_in` returns, and its dots are the rule's. This holds for each ink (`works`). `work_in`
//!   allocates no memory: the caller lends it a `TileRoom`, and the returned edges and dots use the allocations of the
//!   task. A `Done` has as many errors and bytes in each ink as a tile gives (`IsWhole`). `work` is `work_in` in a room
//!   of its own.
//! - `laws::what_work_gives_is_a_record`, `laws::any_order`: each tile of a board is worked from the edges that the
//!   tiles before it gave, from errors 0 if there is no such tile, and in the first band from the top. Whatever the
//!   order, each tile that is taken or posted has the dots and edges of row-by-row diffusion below the top.
//! - The edges and dots of `given` are right (`laws::what_is_given_is_right`). Right edges and dots of full length are
//!   those of `given` (`laws::what_is_right_is_given`).
//! - If a tile is handed the edges of `given` from the tiles that send it edges, zeros if there are none, and the top's
//!   edges above the first band, it is handed right edges (`laws::what_is_handed_is_right`). From right edges `work`
//!   makes right edges and dots (`laws::what_work_gives_is_right`).
//! - The bottom edges of `given` in a band are the errors of the band's last two rows (`laws::bottoms_are_given`).
#![tactic(auto)]

mod edges;
pub mod laws;
mod task;
mod tops;
mod wholes;
mod working;

pub use edges::{BottomEdge, CornerEdge, Edge, RightEdge};
pub use task::{Done, Task};
pub use tops::TopEdges;
pub use working::{TileRoom, work, work_in};
