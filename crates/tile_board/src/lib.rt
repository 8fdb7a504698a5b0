//! A board that several callers share without a lock. It hands out the tiles of a slab, each after all edges that the
//! tile needs have come, and takes back their edges and dots. A `Pass` is one caller's place at a `Board`. No call
//! waits for another.
//!
//! - `make` allocates all the memory that the board ever needs, or returns `Memory`; no other call allocates any. It
//!   uses the memory of spare dots again. The returned pass is the first, with 256 parts, and has posted nothing.
//! - `claim`: `Got` hands a tile out with the edges of row-by-row diffusion below the board's top, whatever other
//!   passes do. `NotReady` comes only if an edge that the tile needs had not come, from a tile that the pass has not
//!   posted itself. `Gone` comes only if the tile was taken; a pass with all 256 parts has then posted the tile itself.
//!   So a pass that is alone and claims the tiles by band and then column never gets `NotReady`.
//! - `work` diffuses a tile that was handed out. `post` gives the tile's edges to the tiles that receive them and keeps
//!   its dots. The pass's list of posted tiles then has the tile just once, with the pass's number, also if the pass
//!   has joined another while it held the tile.
//! - `split` cuts a pass of one part off the first pass, and `join` adds the parts and the posted tiles of one pass to
//!   those of another, which may hold a tile.
//! - `close` needs a pass that has posted every tile. The dots of all tiles, by band and then column, are those of
//!   row-by-row diffusion, and the bottom edges of the last band are the top of the rows below (`Closes`). The pass has
//!   posted each tile once.
//!
//! By the rule of `board_steps` no two passes hold the same tile at once.
#![tactic(auto)]

mod board;
mod emptying;
mod ends;
mod gives;
mod kinds;
mod receives;
mod room;

pub use kinds::{Board, Claim, Closed, Pass};
