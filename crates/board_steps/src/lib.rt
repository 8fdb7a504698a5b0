//! The rule of a board that passes share without a lock, and the atomic steps that passes take on the board. A board
//! hands out the tiles of a slab. It has a word and four slots for each tile (`Words`). A pass steps with its seat
//! (`Seated`), and its `View` is what it knows.
//!
//! - `open`: every tile waits, and the seat is that of the first pass, which has all 256 parts. `open` allocates the
//!   memory that the table needs beside the given slots, or returns `Memory`. Tests show that `open` succeeds with
//!   ample memory.
//! - `look`, `take`, `send` and `post` are one atomic step on a word each. `cut` makes two passes of one, and `unite`
//!   makes one of two. Each call keeps the rule `Tiles`, whatever other passes do meanwhile, and allocates no memory.
//!   `Looked`, `Took`, `SentTo` and `Posted` say what the pass knows and which slots it has after a step; a tile that
//!   is posted is in the pass's list just once. A join adds the parts of the two passes, which together have at most
//!   256.
//! - `close`: a pass that has posted every tile has posted each once, and the slots that no tile receives have what the
//!   tiles give.
//!
//! `laws`: in each state that meets the rule, at most one view lists a tile as held or posted. Bit 8 of the tile's word
//! is set exactly if one view does, and an arrival bit exactly if the edge was sent (`the_rule_in_plain_words`). Such a
//! state shows a legal state of `board_core` (`what_is_shown_is_legal`). `take`, `send` and `post` show as the events
//! of that name, which the core accepts (`steps_are_events`). The other steps leave the shown state unchanged
//! (`other_steps_show_nothing`). Two passes that join have at most 256 parts together (`a_join_adds_the_parts`).
#![tactic(auto)]

mod ends;
pub mod laws;
mod rule;
mod steps;

pub use ends::{BoardTable, close, open};
pub use rule::{Cell, Seated, Slab, Tiles, View, Words};
pub use steps::{cut, look, post, send, take, unite};
