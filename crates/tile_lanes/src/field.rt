//! Room for a tile while it is diffused.
ghost use Rattle.tile_lanes.specs.Held.{HeldInRange};

/// Room for one ink of a tile while it is diffused: for its errors, 103 groups of 34, and for its amounts by steps. A
/// caller that diffuses many tiles keeps one field for all of them, so that it is cleared once.
#[derive(Drop)]
pub struct Field {
    // Errors with 2040 added.
    pub(crate) held: [u16; 3502],
    pub(crate) amounts: [u8; 3072],
    ghost in_range: { HeldInRange held },
}

impl Field {
    /// Room for any number of tiles, one after another.
    pub fn make() -> Field {
        Field {
            held: [0; 3502],
            amounts: [0; 3072],
        }
    }
}
