//! The state of a tile.
use tile_shape::Dir;

/// Where the work on a tile stands.
#[derive(Clone, Copy, Debug, PartialEq, Eq)]
pub enum Status {
    /// No seat has taken it.
    Waiting,
    /// This seat works on it.
    Taken(u32),
    /// This seat has finished it.
    Posted(u32),
}

/// A tile, and which of its edges were sent.
#[derive(Clone, Copy, Debug, PartialEq, Eq)]
pub struct TileState {
    /// Where the work on it stands.
    pub status: Status,
    /// Its right edge was sent.
    pub right: bool,
    /// Its bottom edge was sent.
    pub bottom: bool,
    /// Its corner edge was sent.
    pub corner: bool,
}

impl TileState {
    ghost use Rattle.board_core.specs.States.{has_sent};
    ghost use Rattle.board_core.specs.Steps.{with_sent};
    ghost use Rattle.std.specs.Prelude.{◌≡◌};

    // Whether this edge was sent.
    pub(crate) fn has_sent(self, dir: Dir) -> bool
        ensures { result ≡ has_sent self dir }
    {
        match dir {
            Dir::Right => self.right,
            Dir::Bottom => self.bottom,
            Dir::Corner => self.corner,
        }
    }

    // The state after this edge was sent.
    pub(crate) fn with_sent(self, dir: Dir) -> TileState
        ensures { result ≡ with_sent self dir }
    {
        match dir {
            Dir::Right => TileState {
                right: true,
                ..self
            },
            Dir::Bottom => TileState {
                bottom: true,
                ..self
            },
            Dir::Corner => TileState {
                corner: true,
                ..self
            },
        }
    }
}
