//! Grain applied to the amounts of a tile.
ghost use Rattle.grained_rows.specs.Grained.{GrainsInks, GrainsOffsets, row_start};
ghost use Rattle.printer_definitions.specs.Inks.{ink_place, inks_of};
ghost use Rattle.separation_definitions.specs.Grain.{grained, reach};
ghost use Rattle.std.specs.Prelude.{length, slice_index, ℕ, ◌%◌, ◌*◌, ◌+◌, ◌/◌, ◌<◌, ◌≡◌, ◌≤◌, ◌⊎◌};

use crate::grain::InkGrain;
use dot_planes::TileAmounts;
use printer_definitions::Ink;
use tile_shape::Place;

// How many rows a tile has, and amounts at each offset.
const ROWS: usize = 32;

// How many places the recurrence has.
const PLACES: u64 = 65536;

// How far the recurrence goes from a column to the next.
const COLUMN_STEP: u16 = 49471;

// From a column of tiles to the next: 64 columns.
const TILE_STEP: u64 = 64 * 49471;

// From the first column of a tile's row to that of the next, which is two columns further left. Two rounds of all
// places keep the number above 0.
const SLANT_STEP: u64 = 2 * PLACES - 2 * 49471;

// From a row of the window to the next.
const ROW_STEP: u64 = 37344;

// From an ink to the next.
const INK_STEP: u64 = 16384;

// An ink's number.
#[inline(always)]
fn number_of(ink: Ink) -> u8
    ensures is { result ≡ ink_place ink }
    ensures low { result < 4 }
{
    match ink {
        Ink::Black => 0,
        Ink::Cyan => 1,
        Ink::Magenta => 2,
        Ink::Yellow => 3,
    }
}

// The place where row r of a tile begins, for the ink of a number.
#[inline(always)]
fn start_of(number: u8, first: u32, place: Place, r: usize) -> u16
    requires { r < 32 }
    ensures { result ≡ row_start number first place r }
{
    let y = u64::from(first) + 32 * u64::from(place.j) + r as u64;
    let column = TILE_STEP * u64::from(place.c) + SLANT_STEP * r as u64;
    ((column + ROW_STEP * y + INK_STEP * u64::from(number)) % PLACES) as u16
}

// The places where the rows of a tile begin, for the ink of a number.
fn starts_of(number: u8, first: u32, place: Place) -> [u16; ROWS]
    ensures { (r : ℕ) → r < 32 → slice_index result r ≡ row_start number first place r }
{
    let mut starts = [0; ROWS];
    for r in 0..ROWS {
        starts[r] = start_of(number, first, place, r);
    }
    starts
}

// The place of the pixel at an offset of a row that begins at a place.
#[inline(always)]
fn place_at(start: u16, offset: usize) -> u16
    requires { offset < 64 }
    ensures { result ≡ (start + 49471 * offset) % 65536 }
{
    start.wrapping_add(COLUMN_STEP.wrapping_mul(offset as u16))
}

// How far the grain may move an amount.
#[inline(always)]
fn reach_of(grain: u8, limit: u8, amount: u8) -> u8
    ensures { result ≡ reach grain limit amount }
{
    grain.min(amount.min(limit.saturating_sub(amount)))
}

// The step of a place, of the 2 far + 1 steps of an amount that may be moved `far`. The two halves of the place are
// multiplied by themselves, since vectors of 16 bits are twice as fast as those of 32 bits, which the product of the
// whole place takes.
#[inline(always)]
#[tactic(auto, using(crate::proofs::Steps::halves))]
fn step_of(place: u16, far: u8) -> u8
    requires { far ≤ 127 }
    ensures { result ≡ place * (2 * far + 1) / 65536 }
{
    let steps = 2 * u16::from(far) + 1;
    ((place / 256 * steps + place % 256 * steps / 256) / 256) as u8
}

// How far the grain may move each amount at an offset.
#[inline(always)]
fn reaches_of(grain: u8, limit: u8, amounts: &[u8]) -> [u8; ROWS]
    requires { length amounts.now ≡ 32 }
    ensures { (r : ℕ) → r < 32 → slice_index result r ≡ reach grain limit (slice_index amounts.now r) }
{
    let mut reaches = [0; ROWS];
    for r in 0..ROWS {
        reaches[r] = reach_of(grain, limit, amounts[r]);
    }
    reaches
}

// The step of each amount at an offset, where the rows begin at 32 places.
#[inline(always)]
fn steps_of(starts: &[u16; ROWS], o: usize, reaches: &[u8; ROWS]) -> [u8; ROWS]
    requires o { o < 64 }
    requires reaches { (r : ℕ) → r < 32 → slice_index reaches.now r ≤ 127 }
    ensures { (r : ℕ) → r < 32 → slice_index result r
        ≡ ((slice_index starts.now r + 49471 * o) % 65536) * (2 * slice_index reaches.now r + 1) / 65536 }
{
    let mut steps = [0; ROWS];
    for r in 0..ROWS {
        steps[r] = step_of(place_at(starts[r], o), reaches[r]);
    }
    steps
}

// The amounts at an offset with grain, where the rows begin at 32 places. This loop and those of the two calls have a
// known length and no test, so that they become vectors. Two of the three have nothing but bytes: sixteen at a time.
#[inline(always)]
fn moved_at(grain: u8, limit: u8, starts: &[u16; ROWS], o: usize, amounts: &[u8]) -> [u8; ROWS]
    requires o { o < 64 }
    requires amounts { length amounts.now ≡ 32 }
    ensures { (r : ℕ) → r < 32 → slice_index result r
        ≡ grained grain limit ((slice_index starts.now r + 49471 * o) % 65536) (slice_index amounts.now r) }
{
    let reaches = reaches_of(grain, limit, amounts);
    let steps = steps_of(starts, o, &reaches);
    let mut moved = [0; ROWS];
    for r in 0..ROWS {
        moved[r] = amounts[r] - reaches[r] + steps[r];
    }
    moved
}

// Puts the amounts at an offset of a tile.
#[inline(always)]
fn put_at(tile: &mut [u8; 2048], o: usize, amounts: &[u8; ROWS])
    requires { o < 64 }
    ensures there { (r : ℕ) → r < 32 → slice_index tile.new (32 * o + r) ≡ slice_index amounts.now r }
    ensures others { (n : ℕ) → (n < 32 * o) ⊎ (32 * o + 32 ≤ n) → slice_index tile.new n ≡ slice_index tile.old n }
{
    tile[ROWS * o..ROWS * o + ROWS].copy_from_slice(amounts);
}

// Puts grain on the amounts at an offset of a tile, whose rows begin at 32 places.
#[inline(always)]
fn put_on_offset(grain: u8, limit: u8, starts: &[u16; ROWS], o: usize, tile: &mut [u8; 2048])
    requires { o < 64 }
    ensures there { (r : ℕ) → r < 32 → slice_index tile.new (32 * o + r)
        ≡ grained grain limit ((slice_index starts.now r + 49471 * o) % 65536) (slice_index tile.old (32 * o + r)) }
    ensures others { (n : ℕ) → (n < 32 * o) ⊎ (32 * o + 32 ≤ n) → slice_index tile.new n ≡ slice_index tile.old n }
{
    let amounts = moved_at(grain, limit, starts, o, &tile[ROWS * o..ROWS * o + ROWS]);
    put_at(tile, o, &amounts);
}

impl InkGrain {
    // Puts grain on a tile in one ink.
    fn put_on_ink(&self, ink: Ink, first: u32, place: Place, tile: &mut [u8; 2048])
        ensures { GrainsOffsets self.now ink first place 64 tile.old tile.new }
    {
        let number = number_of(ink);
        let limit = self.limits[usize::from(number)];
        let starts = starts_of(number, first, place);
        for o in 0..64 {
            put_on_offset(self.grain, limit, &starts, o, tile);
        }
    }

    /// Applies grain to a tile in every ink. The tile's slab begins at row `first` of the window.
    pub(crate) fn put_on(&self, first: u32, place: Place, out: &mut TileAmounts)
        ensures { GrainsInks self.now first place (length (inks_of self.now.inks)) out.old.inks out.new.inks }
    {
        for i in 0..self.inks.count() {
            self.put_on_ink(self.inks.at(i), first, place, &mut out.inks[usize::from(i)]);
        }
    }
}
