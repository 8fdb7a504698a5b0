//! A board, its passes, and the results of the calls.
ghost use Rattle.std.specs.Prelude.{[], ℕ, length, slice_index_or, vec_capacity, ◌*◌, ◌<◌, ◌≡◌, ◌≤◌};
ghost use Rattle.std.specs.Option.{ForSome};
ghost use Rattle.tile_board.specs.Hand.{hand_of, held_number};
ghost use Rattle.tile_board.specs.Slabs.{amounts_of, shape_of, top_edges};
ghost use Rattle.tile_shape.specs.Geometry.{bands_of, columns_of};

use board_steps::{BoardTable, Seated};
use diffusion_kernel::Kernel;
use dot_planes::{TileDots, TileRows};
use tile_border::{Task, TopEdges};
use tile_shape::Place;

/// The tiles of a slab, shared by passes.
#[derive(Drop)]
pub struct Board<'a, A: TileRows> {
    pub(crate) rows: &'a A,
    pub(crate) kernel: Kernel,
    pub(crate) top: TopEdges,
    pub(crate) table: BoardTable,
    // Empty, with capacity for every tile, so that `close` takes no memory.
    pub(crate) dots: Vec<TileDots>,
    ghost made_for: { (amounts_of table.shared.key ≡ A.table rows.now) × (table.shared.key.kernel ≡ kernel)
        × (top_edges table.shared.key ≡ top) },
    ghost sized: { table.shared.table_id.words
        ≡ bands_of (shape_of table.shared.key) * columns_of (shape_of table.shared.key) },
    ghost some: { 0 < table.shared.table_id.words },
    ghost topped: { (length top ≡ columns_of (shape_of table.shared.key))
        × ((c : ℕ) → c < columns_of (shape_of table.shared.key)
        → length (slice_index_or top c []) ≡ (A.table rows.now).inks) },
    ghost room: { (dots.items ≡ []) × (table.shared.table_id.words ≤ vec_capacity dots) },
}

/// A pass of the board: one caller's place at it.
#[derive(Drop)]
pub struct Pass {
    pub(crate) seat: Seated,
    pub(crate) held: Option<Place>,
    pub(crate) parts: u16,
    ghost counted: { (parts ≡ seat.me.0.parts) × (1 ≤ parts) × (parts ≤ 256) },
    ghost shown: { held_number seat.me.0.board held ≡ seat.me.0.held },
    ghost inside: { ForSome held (λ p.
        (p.c < columns_of (shape_of seat.me.0.board)) × (p.j < bands_of (shape_of seat.me.0.board))) },
    ghost hand: { seat.me.1 ≡ hand_of seat.me.0 },
    ghost unsent: { seat.me.0.sent ≡ [] },
}

/// The result of a claim of a tile.
#[derive(Drop)]
pub enum Claim {
    /// The tile is the caller's to work and to post.
    Got(Task),
    /// An edge that the tile needs had not come.
    NotReady {
        /// The tile's word: bits 1, 2 and 4 say that its edges have come from the left, from above and at the corner, 8
        /// that it is taken, and 16 that it is posted.
        word: u64,
    },
    /// The tile was taken before.
    Gone {
        /// The tile's word, as in `NotReady`.
        word: u64,
    },
}

/// What a closed board leaves.
#[derive(Drop)]
pub struct Closed {
    /// The dots of the tiles, by band and then column.
    pub dots: Vec<TileDots>,
    /// The bottom edges of the last band.
    pub bottom: TopEdges,
}
