//! The types that the board's rule uses, and the kinds of steps.
use atomic_table::{Join, Play, Seat, Shared, Split, TableRule};
use diffusion_kernel::Kernel;
use dot_planes::{Seen, TileBits};
use std::collections::LinkedList;
use std::snapshot::Snapshot;
use tile_border::{BottomEdge, CornerEdge, RightEdge, TopEdges};

/// The value of a slot.
#[derive(Drop)]
pub enum Cell {
    /// Nothing: a tile will send the edge, or it was taken out.
    Empty,
    /// A tile's right edge.
    Right(RightEdge),
    /// A tile's bottom edge.
    Bottom(BottomEdge),
    /// A tile's corner edge.
    Corner(CornerEdge),
    /// A tile's dots.
    Dots(TileBits),
}

/// What the tiles of a board are diffused from.
pub struct Slab {
    /// The amounts.
    pub rows: Seen,
    /// The kernel.
    pub kernel: Kernel,
    /// The errors above the first row.
    pub top: Snapshot<TopEdges>,
}

/// What a pass knows. Only contracts use it, and no value of it is ever made, so its numbers are not bounded. Tiles are
/// numbered by band and then column. Direction 0 is right, 1 bottom, 2 corner.
pub struct View {
    /// The number of the pass.
    pub number: u64,
    /// How many passes the board has made, in the first pass; 0 in every other.
    pub made: u64,
    /// The tile that the pass last looked at, and the word that it found.
    pub seen: Option<(usize, u64)>,
    /// How many times it has looked at a word.
    pub looks: u64,
    /// The tile that it holds.
    pub held: Option<usize>,
    /// The directions in which it has sent an edge of that tile, the latest first.
    pub sent: LinkedList<u64>,
    /// The tiles that it has posted, the latest first, each with the number of the pass that posted it; a join adds
    /// those of the other pass.
    pub mine: LinkedList<(usize, u64)>,
    /// How many of the board's 256 parts it has. A pass that has all of them is alone.
    pub parts: u64,
    /// What its board is made for.
    pub board: Slab,
}

/// The seat of a pass, with its view and the slots that it has taken.
pub type Seated = Seat<Cell, View>;

/// The words and slots that passes share: word t is that of tile t, and slot 4 t + d is for what tile t gives in the
/// direction d, or for its dots if d is 3.
pub type Words = Shared<Cell, View, Slab, Tiles>;

/// The name of the rule.
pub struct Tiles;

impl TableRule<Cell, View, Slab> for Tiles {
    ghost use Rattle.board_steps.specs.Rule.{Ruled, first_view, setting_of};

    ghost holds = { λ slab. Ruled (setting_of slab) };

    ghost first = { first_view };
}

/// A look: an atomic load.
pub struct Looks;

impl Play<Cell, View> for Looks {
    ghost use Rattle.board_steps.specs.Steps.{Looked};

    ghost then = { λ st m r n. Looked m.0.board st.word m r n };
}

/// A take: the fetch-or of bit 8, which says that a tile is taken.
pub struct Takes;

impl Play<Cell, View> for Takes {
    ghost use Rattle.board_steps.specs.Steps.{Took};

    ghost then = { λ st m r n. Took m.0.board st.word m r n };
}

/// A send: the fetch-or of an arrival bit on the word of the tile that receives the edge.
pub struct Sends;

impl Play<Cell, View> for Sends {
    ghost use Rattle.board_steps.specs.Steps.{Sent};

    ghost then = { λ st m r n. Sent st.first m n };
}

/// A post: the fetch-or of bit 16, which says that a tile is posted.
pub struct Posts;

impl Play<Cell, View> for Posts {
    ghost use Rattle.board_steps.specs.Steps.{Posted};

    ghost then = { λ st m r n. Posted st.word m n };
}

/// A count of parts: an atomic load.
pub struct Counts;

impl Play<Cell, View> for Counts {
    ghost use Rattle.board_steps.specs.Steps.{Counted};

    ghost then = { λ st m r n. Counted m n };
}

/// A cut: one pass becomes two.
pub struct Cuts;

impl Split<View> for Cuts {
    ghost use Rattle.board_steps.specs.Steps.{kept_view, new_view};

    ghost left = { kept_view };

    ghost right = { new_view };
}

/// A join: two passes become one.
pub struct Joins;

impl Join<View> for Joins {
    ghost use Rattle.board_steps.specs.Rule.{spent};
    ghost use Rattle.board_steps.specs.Steps.{joined_view};

    ghost both = { joined_view };

    ghost spent = { spent };
}
