//! What a tile is handed, and what it hands on.
ghost use Rattle.tile_border.specs.Works.{IsWhole};

use crate::edges::{BottomEdge, CornerEdge, RightEdge};
use dot_planes::TileDots;
use tile_shape::Place;

/// A tile, and what it is handed.
#[derive(Drop)]
pub struct Task {
    /// The tile.
    pub place: Place,
    /// The right edge of the tile at its left.
    pub left: RightEdge,
    /// The bottom edge of the tile one column to the right in the band above.
    pub above: BottomEdge,
    /// The corner edge of the tile above.
    pub corner: CornerEdge,
    /// What its dots are written to.
    pub dots: TileDots,
}

/// A tile, and what it hands on.
#[derive(Drop)]
pub struct Done {
    /// The tile.
    pub place: Place,
    /// Its dots.
    pub dots: TileDots,
    /// Its right edge.
    pub right: RightEdge,
    /// Its bottom edge.
    pub bottom: BottomEdge,
    /// Its corner edge.
    pub corner: CornerEdge,
    pub ghost whole: { IsWhole (record { side = right; bottom = bottom; corner = corner; bits = dots.bits }) },
}
