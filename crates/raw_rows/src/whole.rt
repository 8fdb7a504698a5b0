//! Rows of tiles that have all their pixels.
ghost use Rattle.dot_planes.specs.Gathered.{shape_of};
ghost use Rattle.pwg_definitions.specs.Header.{line_bytes, row_of};
ghost use Rattle.raw_rows.specs.Gathering.{IsPart, first_pixel, part_bytes};
ghost use Rattle.raw_rows.specs.Lines.{first_byte, pixels_before};
ghost use Rattle.raw_rows.specs.Raw.{table_of};
ghost use Rattle.tile_shape.specs.Geometry.{IsWhole};
ghost use Rattle.std.specs.Prelude.{length, ◌+◌, ◌<◌, ◌≡◌, ◌≤◌};

use crate::kept::RawRows;
use pwg_definitions::Kind;
use tile_shape::Place;

// Where 64 pixels of a line stand.
#[derive(Clone, Copy)]
struct Part {
    // Their first byte, and how many there are.
    first: usize,
    many: usize,
    // How many pixels before them begin in the first byte.
    before: usize,
}

// Where 64 pixels from pixel x on stand.
#[inline(always)]
fn part_at(kind: Kind, x: usize) -> Part
    requires { x < 8589934592 }
    ensures first { result.first ≡ first_byte kind x }
    ensures before { result.before ≡ pixels_before kind x }
    ensures many { result.many ≡ line_bytes (pixels_before kind x + 64) (row_of kind).bits_per_pixel }
    ensures most { result.many ≤ 256 }
{
    match kind {
        Kind::Gray8 | Kind::Black8 => Part {
            first: x,
            many: 64,
            before: 0,
        },
        Kind::Rgb8 => Part {
            first: 3 * x,
            many: 192,
            before: 0,
        },
        Kind::Black1 => Part {
            first: x / 8,
            many: (x % 8 + 71) / 8,
            before: x % 8,
        },
        Kind::Cmyk8 => Part {
            first: 4 * x,
            many: 256,
            before: 0,
        },
    }
}

impl RawRows {
    // Where row r of a tile stands in its line.
    #[inline(always)]
    #[tactic(auto, using(tile_shape::proofs::Wholes::inside_of))]
    fn part_of(&self, place: Place, r: usize) -> Part
        requires r { r < 32 }
        requires whole { IsWhole (shape_of (table_of self.now)) place }
        ensures first { result.first ≡ first_byte self.now.separator.kind (first_pixel self.now place r) }
        ensures before { result.before ≡ pixels_before self.now.separator.kind (first_pixel self.now place r) }
        ensures many { result.many ≡ part_bytes self.now (first_pixel self.now place r) }
        ensures most { result.many ≤ 256 }
    {
        let left = self.separator.window().left as usize;
        part_at(self.separator.kind(), left + 64 * place.c as usize - 2 * r)
    }

    // The bytes of row r of a tile.
    #[inline(always)]
    #[tactic(auto, using(tile_shape::proofs::Wholes::inside_of))]
    pub(crate) fn row_bytes(&self, place: Place, r: usize) -> &[u8]
        requires r { r < 32 }
        requires whole { IsWhole (shape_of (table_of self.now)) place }
        ensures are { IsPart self.now place r result.now }
        ensures many { length result.now ≡ part_bytes self.now (first_pixel self.now place r) }
    {
        let line = self.line((32 * place.j as usize + r) as u32);
        let part = self.part_of(place, r);
        &line[part.first..part.first + part.many]
    }
}
