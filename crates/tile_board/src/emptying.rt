//! Empties the slots of a closed board, tile by tile.
ghost use Rattle.std.specs.Prelude.{[], length, vec_capacity, ◌*◌, ◌+◌, ◌<◌, ◌^◌, ◌≡◌, ◌≤◌};
ghost use Rattle.std.specs.Slots.{slots_filled, slots_items, slots_len};
ghost use Rattle.std.specs.Slots.Ownership.{Filled};
ghost use Rattle.tile_board.specs.Closing.{Closes};
ghost use Rattle.tile_board.specs.Emptying.{CanEmpty, EmptiedBefore, EmptiesTile, HasDotsAt, IsLeftBy};
ghost use Rattle.tile_shape.specs.Geometry.{IsShape, bands_of, columns_of};

use crate::kinds::Closed;
use crate::room::{BOTTOM, CORNER, DOTS, RIGHT, slot_of};
use board_steps::Cell;
use dot_planes::TileDots;
use std::alloc::Global;
use tile_shape::{Place, Shape};

type Rest = atomic_table::Closed<Cell, Global>;

/// Empties the slots of all tiles of a window, band by band: their dots, and the bottom edges of the last band.
pub(crate) fn empty_all(rest: Rest, shape: Shape, closed: Closed) -> Closed
    requires shape { IsShape shape }
    requires can { CanEmpty shape rest }
    requires room { bands_of shape * columns_of shape ≤ vec_capacity closed.dots }
    requires none { closed.dots.items ≡ [] }
    requires columns { length closed.bottom ≡ columns_of shape }
    ensures { EmptiedBefore shape (bands_of shape * columns_of shape) (slots_items rest.slots) result }
{
    let mut rest = rest;
    let mut closed = closed;
    for j in 0..shape.bands() {
        empty_band(&mut rest, shape, j, &mut closed);
    }
    rest.free();
    closed
}

// Empties the slots of the tiles of band j.
fn empty_band(rest: &mut Rest, shape: Shape, j: u32, closed: &mut Closed)
    requires shape { IsShape shape }
    requires band { j < bands_of shape }
    requires before { IsLeftBy shape (j * columns_of shape) rest.old closed.old }
    ensures after { IsLeftBy shape ((j + 1) * columns_of shape) rest.new closed.new }
    ensures items { slots_items rest.new.slots ≡ slots_items rest.old.slots }
{
    let columns = shape.columns();
    for c in 0..columns {
        let tile = j as usize * columns as usize + c as usize;
        empty_tile(rest, tile, Place { c, j }, closed);
    }
}

// Empties the slots of a tile: keeps its dots, and its bottom edge where that was not sent.
fn empty_tile(rest: &mut Rest, tile: usize, place: Place, closed: &mut Closed)
    requires few { tile < 2 ^ 32 }
    requires slots { 4 * tile + 4 ≤ slots_len rest.old.slots }
    requires full { Filled (slots_filled rest.old.slots) (4 * tile) (slots_len rest.old.slots) }
    requires dots { HasDotsAt (slots_items rest.old.slots) (4 * tile + 3) }
    requires room { length closed.old.dots.items < vec_capacity closed.old.dots }
    requires column { place.c < length closed.old.bottom }
    ensures { EmptiesTile tile place rest.old closed.old rest.new closed.new }
{
    drop(rest.take(slot_of(tile, RIGHT)));
    if let Cell::Bottom(edge) = rest.take(slot_of(tile, BOTTOM)) {
        closed.bottom.put(place.c, edge);
    }
    drop(rest.take(slot_of(tile, CORNER)));
    match rest.take(slot_of(tile, DOTS)) {
        Cell::Dots(bits) => closed.dots.push_reserved(TileDots { place, bits }),
        _ => unreachable!(),
    }
}
