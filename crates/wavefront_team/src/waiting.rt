//! The tiles of a slab that wait to be laid.
use dot_planes::TileDots;
use tile_shape::Shape;

/// The tiles of a slab that wait, by band and then column, and the row where it begins.
#[derive(Drop)]
pub struct Waiting {
    pub(crate) shape: Shape,
    pub(crate) first: u32,
    pub(crate) tiles: Vec<TileDots>,
}
