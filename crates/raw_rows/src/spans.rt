//! The pixels that the window has of a row of a tile.
ghost use Rattle.raw_rows.specs.Gathering.{IsSpan};
ghost use Rattle.std.specs.Prelude.{◌<◌};

use crate::kept::RawRows;
use tile_shape::Place;

/// Pixels of a row of a tile.
#[derive(Clone, Copy)]
pub(crate) struct Span {
    /// The offset of the first in the tile's row, and how many there are.
    pub(crate) offset: usize,
    pub(crate) many: usize,
    /// The place of the first in the line, in pixels.
    pub(crate) first: usize,
}

impl RawRows {
    /// The pixels that the window has of row r of a tile. If there are none, their place means nothing.
    #[inline(always)]
    pub(crate) fn span(&self, place: Place, r: usize) -> Span
        requires { r < 32 }
        ensures { IsSpan self.now place r result }
    {
        let window = self.separator.window();
        let start = 64 * place.c as usize;
        let offset = (2 * r).saturating_sub(start);
        let to = (window.width as usize + 2 * r)
            .saturating_sub(start)
            .min(64);
        Span {
            offset,
            many: to.saturating_sub(offset),
            first: window.left as usize + start + offset - 2 * r,
        }
    }
}
