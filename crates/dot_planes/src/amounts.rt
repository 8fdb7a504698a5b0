//! The amounts that a tile needs, however the rows of amounts are kept.
use tile_shape::{Place, Shape};

/// The amounts of a tile, 2048 of each of up to four inks, by offsets: 32 of each of its 64 offsets, one of each row.
/// The amount of row r at an offset stands at 32 offset + r. A place without a pixel has an amount too, which means
/// nothing.
#[derive(Drop)]
pub struct TileAmounts {
    /// The inks' amounts.
    pub inks: [[u8; 2048]; 4],
}

impl TileAmounts {
    /// Room for a tile's amounts.
    #[inline]
    pub fn zero() -> TileAmounts {
        TileAmounts {
            inks: [[0; 2048]; 4],
        }
    }
}

/// The most bytes of a tile's pixels as they were read: 256 of each of its 32 rows.
pub const TILE_BYTES: usize = 32 * 256;

/// Room for the bytes of a tile's pixels while the tile is gathered. Its content means nothing before and after.
#[derive(Drop)]
pub struct GatherRoom {
    /// 64 bytes of each row, one of each pixel.
    pub rows: [u8; 2048],
    /// The bytes by columns: 32 of each, one of each row.
    pub columns: [u8; TILE_BYTES],
}

impl GatherRoom {
    /// Room for any number of tiles, one after another.
    #[inline]
    pub fn zero() -> GatherRoom {
        GatherRoom {
            rows: [0; 2048],
            columns: [0; TILE_BYTES],
        }
    }
}

/// Rows of amounts of inks, from which tiles are gathered. Contracts see a table of amounts, and not how the rows are
/// kept.
pub trait TileRows {
    ghost use Rattle.dot_planes.specs.Gathered.{HasNoAmounts, HasTile, shape_of};
    ghost use Rattle.dot_planes.specs.Tables.{AmountTable};
    ghost use Rattle.tile_shape.specs.Geometry.{IsShape};
    ghost use Rattle.std.specs.Prelude.{false, true, ◌≡◌, ◌≤◌};

    /// The amounts.
    ghost table: { Self → AmountTable };

    /// The window that the rows cover.
    fn shape(&self) -> Shape
        ensures is { result ≡ shape_of (table self.now) }
        ensures sizes { IsShape result };

    /// The number of inks.
    fn inks(&self) -> u8
        ensures { result ≡ (table self.now).inks };

    /// Sets a tile's amounts in every ink, wherever the window has a pixel of the tile, and returns true. Returns false
    /// if no pixel of the tile has an amount in any ink; `out` then means nothing. Where there is no amount, true may
    /// be returned too. The rest of `out`, and `room`, are unspecified.
    fn gather(&self, place: Place, room: &mut GatherRoom, out: &mut TileAmounts) -> bool
        ensures tile { result ≡ true → HasTile (table self.now) place out.new.inks }
        ensures none { result ≡ false → HasNoAmounts (table self.now) place }
        ensures few { (table self.now).inks ≤ 4 };
}
