//! The events of a tile, and the causes to refuse them.
use thiserror::Error;
use tile_shape::{Dir, Place};

/// One step of a seat's work on a tile. A seat is one worker.
#[derive(Clone, Copy, Debug, PartialEq, Eq)]
pub enum Event {
    /// A seat takes a waiting tile that has all edges that it needs.
    Take { place: Place, seat: u32 },
    /// The seat sends an edge of the tile to the tile that receives it.
    Send { place: Place, dir: Dir, seat: u32 },
    /// The seat has finished the tile, and has sent each edge that has a receiver.
    Post { place: Place, seat: u32 },
}

/// Why an event is refused: the first cause in this order.
#[derive(Clone, Copy, Debug, PartialEq, Eq, Error)]
pub enum CoreFault {
    /// The window has no such tile, or none that would receive the edge.
    #[error("the window has no such tile")]
    NoSuchTile,
    /// The tile does not wait.
    #[error("the tile is taken")]
    Taken,
    /// The tile waits, and lacks an edge that it needs.
    #[error("the tile lacks an edge")]
    NotReady,
    /// The tile is not taken by this seat now.
    #[error("the tile is not this seat's")]
    NotYours,
    /// The edge was sent before.
    #[error("the edge was sent")]
    Sent,
    /// An edge that has a receiver was not sent.
    #[error("an edge was not sent")]
    Unsent,
}
