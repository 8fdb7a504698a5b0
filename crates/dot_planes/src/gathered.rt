//! The amounts of a tile, gathered from rows of amounts.
ghost use Rattle.dot_planes.specs.Gathered.{GathersRow, HasInks, HasPixels, shape_of};
ghost use Rattle.dot_planes.specs.Tables.{amount};
ghost use Rattle.std.specs.Prelude.{length, slice_index, ℕ, ◌*◌, ◌+◌, ◌<◌, ◌≡◌, ◌≢◌, ◌≤◌};

use crate::amounts::{GatherRoom, TileAmounts, TileRows};
use crate::ink_rows::InkRows;
use tile_shape::{Place, Shape};

// Sets the amounts of row r of a tile in column c at offsets from `from` to before `to`, out of a row of the window.
fn scatter(row: &[u8], c: u32, r: usize, from: usize, to: usize, tile: &mut [u8; 2048])
    requires r { r < 32 }
    requires most { to ≤ 64 }
    requires left { 2 * r ≤ 64 * c + from }
    requires right { 64 * c + to ≤ length row.now + 2 * r }
    ensures part { (o x : ℕ) → from ≤ o → o < to → x + 2 * r ≡ 64 * c + o
        → slice_index tile.new (32 * o + r) ≡ slice_index row.now x }
    ensures others { (s o : ℕ) → s < 32 → s ≢ r
        → slice_index tile.new (32 * o + s) ≡ slice_index tile.old (32 * o + s) }
{
    for o in from..to {
        tile[32 * o + r] = row[64 * c as usize + o - 2 * r];
    }
}

impl InkRows {
    // Sets a tile's amounts in one ink, as far as the rows go.
    fn gather_ink(&self, ink: u8, place: Place, tile: &mut [u8; 2048])
        requires { ink < self.now.inks }
        ensures { HasPixels (shape_of self.now) (amount self.now ink) place tile.new }
    {
        for r in 0..32 {
            self.gather_row(ink, place, r, tile);
        }
    }

    // Sets the amounts of row r of a tile, as far as the rows go.
    fn gather_row(&self, ink: u8, place: Place, r: usize, tile: &mut [u8; 2048])
        requires ink { ink < self.now.inks }
        requires r { r < 32 }
        ensures { GathersRow (shape_of self.now) (amount self.now ink) place r tile.old tile.new }
    {
        let y = 32 * place.j as usize + r;
        if self.rows() as usize <= y {
            return;
        }
        let row = self.row(ink, y as u32);
        let start = 64 * place.c as usize;
        let from = (2 * r).saturating_sub(start);
        let to = (row.len() + 2 * r).saturating_sub(start).min(64);
        if from < to {
            scatter(row, place.c, r, from, to, tile);
        }
    }
}

impl TileRows for InkRows {
    ghost table = { λ t. t };

    fn shape(&self) -> Shape {
        InkRows::shape(self)
    }

    fn inks(&self) -> u8 {
        self.inks
    }

    fn gather(&self, place: Place, room: &mut GatherRoom, out: &mut TileAmounts) -> bool {
        let _ = room;
        for ink in 0..self.inks {
            self.gather_ink(ink, place, &mut out.inks[usize::from(ink)]);
        }
        true
    }
}
