//! The bytes of a tile's pixels, by columns.
ghost use Rattle.dot_planes.specs.Gathered.{shape_of};
ghost use Rattle.pwg_definitions.specs.declared.pages.Kind.TheVariants.{Black1};
ghost use Rattle.raw_rows.specs.Gathering.{HasParts, HasPixelColumns, HasUnit, PutsPart, first_pixel};
ghost use Rattle.raw_rows.specs.Raw.{table_of};
ghost use Rattle.std.specs.Prelude.{length, slice_index, ℕ, ◌*◌, ◌+◌, ◌<◌, ◌≡◌, ◌≤◌};
ghost use Rattle.tile_shape.specs.Geometry.{IsWhole};

use crate::bits::bits_of;
use crate::by_columns::{Columns, Starts, put_columns};
use crate::kept::RawRows;
use crate::lines::put;
use dot_planes::{GatherRoom, TILE_BYTES, TileRows};
use pwg_definitions::Kind;
use tile_shape::Place;

// The places of 32 rows, each so many bytes behind the row above.
#[inline(always)]
fn in_steps(step: usize) -> Starts
    requires { step ≤ 256 }
    ensures { (r : ℕ) → r < 32 → slice_index result r ≡ step * r }
{
    let mut starts = [0; 32];
    for r in 0..32 {
        starts[r] = step * r;
    }
    starts
}

// Puts the first `many` of 64 bytes from an index on.
#[inline(always)]
fn put_bytes(rows: &mut [u8; 2048], at: usize, bytes: &[u8; 64], many: usize)
    requires many { many ≤ 64 }
    requires at { at + many ≤ 2048 }
    ensures there { (k : ℕ) → k < many → slice_index rows.new (at + k) ≡ slice_index bytes.now k }
    ensures before { (n : ℕ) → n < at → slice_index rows.new n ≡ slice_index rows.old n }
{
    if many == 64 {
        put(rows, at, bytes);
    } else {
        put(rows, at, &bytes[..many]);
    }
}

impl RawRows {
    /// Puts the bytes of a tile's pixels by columns. A place without a pixel gets any byte.
    pub(crate) fn put_pixels(&self, place: Place, room: &mut GatherRoom)
        ensures { HasPixelColumns self.now place room.new.columns }
    {
        match self.separator.kind() {
            Kind::Gray8 | Kind::Black8 => self.put_units(place, 1, &mut room.columns),
            Kind::Rgb8 => self.put_units(place, 3, &mut room.columns),
            Kind::Black1 => self.put_bits(place, &mut room.rows, &mut room.columns),
            Kind::Cmyk8 => self.put_units(place, 4, &mut room.columns),
        }
    }

    // The same for pixels of `unit` bytes.
    fn put_units(&self, place: Place, unit: usize, columns: &mut Columns)
        requires { HasUnit self.now.separator.kind unit }
        ensures { HasPixelColumns self.now place columns.new }
    {
        if self.shape().has_all(place) {
            put_columns(&self.bytes, &self.starts(place, unit), 4 * unit, columns);
        } else {
            self.put_cut(place, unit, columns);
        }
    }

    // Where the rows of a whole tile begin in the bytes of all lines.
    fn starts(&self, place: Place, unit: usize) -> Starts
        requires unit { HasUnit self.now.separator.kind unit }
        requires whole { IsWhole (shape_of (table_of self.now)) place }
        ensures { (r : ℕ) → r < 32 → slice_index result r
            ≡ slice_index self.now.index (32 * place.j + r) * self.now.len + unit * first_pixel self.now place r }
    {
        let mut starts = [0; 32];
        for r in 0..32 {
            starts[r] = self.start(place, unit, r);
        }
        starts
    }

    // Where row r of a whole tile begins.
    #[inline(always)]
    #[tactic(auto, using(tile_shape::proofs::Wholes::inside_of))]
    fn start(&self, place: Place, unit: usize, r: usize) -> usize
        requires unit { HasUnit self.now.separator.kind unit }
        requires r { r < 32 }
        requires whole { IsWhole (shape_of (table_of self.now)) place }
        ensures { result
            ≡ slice_index self.now.index (32 * place.j + r) * self.now.len + unit * first_pixel self.now place r }
    {
        let n = usize::from(self.index[32 * place.j as usize + r]);
        let first = self.separator.window().left as usize + 64 * place.c as usize - 2 * r;
        n * self.len + unit * first
    }

    // Puts the columns of a tile that is cut. What the window has of the rows is copied first.
    #[inline(never)]
    fn put_cut(&self, place: Place, unit: usize, columns: &mut Columns)
        requires { HasUnit self.now.separator.kind unit }
        ensures { HasPixelColumns self.now place columns.new }
    {
        let mut rows = [0; TILE_BYTES];
        for r in 0..32 {
            self.copy_row(place, unit, r, &mut rows);
        }
        put_columns(&rows, &in_steps(256), 4 * unit, columns);
    }

    // Copies what the window has of row r of a tile.
    fn copy_row(&self, place: Place, unit: usize, r: usize, rows: &mut [u8; TILE_BYTES])
        requires unit { HasUnit self.now.separator.kind unit }
        requires r { r < 32 }
        ensures { PutsPart self.now place r (256 * r) rows.old rows.new }
    {
        let y = 32 * place.j as usize + r;
        let span = self.span(place, r);
        if self.rows as usize <= y || span.many == 0 {
            return;
        }
        let line = self.line(y as u32);
        let first = unit * span.first;
        put(
            rows,
            256 * r + unit * span.offset,
            &line[first..first + unit * span.many],
        );
    }

    // Puts the columns of a tile of pixels of one bit. The bits become bytes first, since rows begin at different bits.
    fn put_bits(&self, place: Place, rows: &mut [u8; 2048], columns: &mut Columns)
        requires { self.now.separator.kind ≡ Black1 }
        ensures { HasPixelColumns self.now place columns.new }
    {
        for r in 0..32 {
            self.put_bit_row(place, r, rows);
        }
        put_columns(rows, &in_steps(64), 4, columns);
    }

    // Puts what the window has of row r of a tile of such pixels.
    fn put_bit_row(&self, place: Place, r: usize, rows: &mut [u8; 2048])
        requires kind { self.now.separator.kind ≡ Black1 }
        requires r { r < 32 }
        ensures { PutsPart self.now place r (64 * r) rows.old rows.new }
    {
        let y = 32 * place.j as usize + r;
        let span = self.span(place, r);
        if self.rows as usize <= y || span.many == 0 {
            return;
        }
        let line = self.line(y as u32);
        let bits = bits_of(&line[span.first / 8..], span.first % 8, span.many);
        put_bytes(rows, 64 * r + span.offset, &bits, span.many);
    }
}
