//! Which tile of a window may be diffused when. A tile waits, is taken by a seat, sends its edges to the tiles that
//! need them, and is posted. `Core` keeps this state of every tile (`CoreState`).
//!
//! - `make`: every tile waits, and no edge is sent. It allocates all the memory, or returns `Memory`.
//! - `step` returns `Ok` exactly if no cause to refuse the event applies; the tiles are then those `after` the event.
//!   Otherwise it returns the first cause that applies, in the order of `CoreFault`, and the tiles are unchanged.
//! - `ready` returns the first tile, by band and then column, that waits and lacks no edge; `None` exactly if there is
//!   none.
//!
//! `laws`, after any accepted events from the start: an edge is sent only by a tile that is taken or posted, each such
//! tile has the edges that it needs, each posted one has sent its own, and no edge is listed twice
//! (`every_run_is_legal`). If no tile is taken and not all are posted, one is ready (`idle_seats_have_a_ready_tile`).
//! If each tile's dots and edges are right whenever the edges that come to it are right (`IsRecord`), they are right,
//! whatever the events (`any_order`).
#![tactic(auto)]

mod events;
pub mod laws;
mod scheduler;
mod tiles;

pub use events::{CoreFault, Event};
pub use scheduler::Core;
pub use tiles::{Status, TileState};
