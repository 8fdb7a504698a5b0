//! Lines and tiles whose pixels are all white.
ghost use Rattle.dot_planes.specs.Gathered.{shape_of};
ghost use Rattle.raw_rows.specs.Gathering.{AreWhiteBand, AreWhiteRows, HasWhitePixels, IsWhiteRow};
ghost use Rattle.raw_rows.specs.Lines.{IsWhiteLine};
ghost use Rattle.raw_rows.specs.Raw.{table_of};
ghost use Rattle.tile_shape.specs.Geometry.{IsWhole};
ghost use Rattle.std.specs.Prelude.{IsTrue, length, slice_index, true, ℕ, ◌<◌, ◌↔◌, ◌≡◌, ◌≤◌};

use crate::kept::RawRows;
use dot_planes::TileRows;
use pwg_definitions::Kind;
use tile_shape::Place;

// Whether the first `many` bytes are all 255. The bytes are folded, so that the loop becomes vectors.
#[inline(always)]
fn are_full(bytes: &[u8], many: usize) -> bool
    requires { many ≤ length bytes.now }
    ensures { IsTrue result ↔ ((k : ℕ) → k < many → slice_index bytes.now k ≡ 255) }
{
    let mut all = 255;
    for k in 0..many {
        all &= bytes[k];
    }
    all == 255
}

// Whether the first `many` bytes are all 0.
#[inline(always)]
fn are_empty(bytes: &[u8], many: usize) -> bool
    requires { many ≤ length bytes.now }
    ensures { IsTrue result ↔ ((k : ℕ) → k < many → slice_index bytes.now k ≡ 0) }
{
    let mut any = 0;
    for k in 0..many {
        any |= bytes[k];
    }
    any == 0
}

// Whether all bytes are 255. The first 64 that are not end the look.
fn is_full(bytes: &[u8]) -> bool
    ensures { result ≡ true → (k : ℕ) → k < length bytes.now → slice_index bytes.now k ≡ 255 }
{
    let blocks = bytes.len() / 64;
    for n in 0..blocks {
        if !are_full(&bytes[64 * n..], 64) {
            return false;
        }
    }
    let rest = &bytes[64 * blocks..];
    are_full(rest, rest.len())
}

// Whether all bytes are 0.
fn is_empty(bytes: &[u8]) -> bool
    ensures { result ≡ true → (k : ℕ) → k < length bytes.now → slice_index bytes.now k ≡ 0 }
{
    let blocks = bytes.len() / 64;
    for n in 0..blocks {
        if !are_empty(&bytes[64 * n..], 64) {
            return false;
        }
    }
    let rest = &bytes[64 * blocks..];
    are_empty(rest, rest.len())
}

/// Whether all bytes of a line are white.
pub(crate) fn is_white_line(kind: Kind, line: &[u8]) -> bool
    ensures { result ≡ true → IsWhiteLine kind line.now }
{
    match kind {
        Kind::Gray8 | Kind::Rgb8 => is_full(line),
        Kind::Black8 | Kind::Black1 | Kind::Cmyk8 => is_empty(line),
    }
}

impl RawRows {
    // Whether the bytes of row r of a tile are all white.
    #[inline(always)]
    fn is_white_row(&self, place: Place, r: usize) -> bool
        requires r { r < 32 }
        requires whole { IsWhole (shape_of (table_of self.now)) place }
        ensures { IsTrue result ↔ IsWhiteRow self.now place r }
    {
        let part = self.row_bytes(place, r);
        match self.separator.kind() {
            Kind::Gray8 => are_full(part, 64),
            Kind::Black8 => are_empty(part, 64),
            Kind::Rgb8 => are_full(part, 192),
            // 64 pixels of one bit are in eight bytes or in nine.
            Kind::Black1 => are_empty(part, 8) && part[part.len() - 1] == 0,
            Kind::Cmyk8 => are_empty(part, 256),
        }
    }

    /// Whether the bytes of a tile are all white, as those of most tiles are. The first row that is not ends the look.
    pub(crate) fn is_white(&self, place: Place) -> bool
        requires { IsWhole (shape_of (table_of self.now)) place }
        ensures { IsTrue result ↔ AreWhiteRows self.now place 32 }
    {
        for r in 0..32 {
            if !self.is_white_row(place, r) {
                return false;
            }
        }
        true
    }

    // Whether all rows of a band are flagged as white. The flags are folded, so that the loop becomes vectors. A row
    // below the last has a flag too: that of the last line that was put.
    fn has_white_rows(&self, j: u32) -> bool
        ensures { result ≡ true → AreWhiteBand self.now j }
    {
        let first = 32 * j as usize;
        if first > 224 {
            return false;
        }
        let mut all = true;
        for r in 0..32 {
            all &= self.white[first + r];
        }
        all
    }

    /// Whether it is known that a tile's pixels are all white. False says nothing.
    pub(crate) fn is_blank(&self, place: Place) -> bool
        ensures { result ≡ true → HasWhitePixels self.now place }
    {
        self.has_white_rows(place.j) || self.shape().has_all(place) && self.is_white(place)
    }
}
