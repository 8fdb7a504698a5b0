//! Puts what a tile gives into its slots.
ghost use Rattle.atomic_table.specs.Table.{rest};
ghost use Rattle.board_steps.specs.Rule.{has, setting_of};
ghost use Rattle.board_steps.specs.Steps.{index_of};
ghost use Rattle.std.specs.Prelude.{Some, false, ◌*◌, ◌+◌, ◌≡◌, ◌≤◌, ◌∷◌};
ghost use Rattle.tile_board.specs.Board.{slab};
ghost use Rattle.tile_board.specs.Front.{IsFront};
ghost use Rattle.tile_board.specs.Room.{GivesEdge};
ghost use Rattle.tile_board.specs.Slabs.{number_in, shape_of};
ghost use Rattle.tile_shape.specs.Geometry.{IsTile};

use crate::kinds::Board;
use crate::room::{BOTTOM, CORNER, RIGHT, slot_of};
use board_steps::{Cell, Seated, send};
use dot_planes::TileRows;
use tile_shape::{Dir, Place};

impl<'a, A: TileRows> Board<'a, A> {
    /// Puts an edge into its slot, the first that the seat has. If a tile receives the edge, the edge is sent.
    /// Otherwise the slot is moved after the others.
    pub(crate) fn give(&self, seat: &mut Seated, t: Place, dir: Dir, edge: Cell)
        requires table { seat.old.table_id ≡ self.now.table.shared.table_id }
        requires tile { IsTile (shape_of (slab self.now)) t }
        requires part { 1 ≤ seat.old.me.0.parts }
        requires holds { seat.old.me.0.held ≡ Some (number_in (slab self.now) t) }
        requires unsent { has (index_of dir) seat.old.me.0.sent ≡ false }
        requires front { IsFront (4 * number_in (slab self.now) t + index_of dir) seat.old.me.1 }
        requires edge { edge ≡ (setting_of (slab self.now)).content (number_in (slab self.now) t) (index_of dir) }
        ensures seat { (seat.new.table_id ≡ seat.old.table_id) × (seat.new.id ≡ seat.old.id) }
        ensures gives { GivesEdge (slab self.now) (index_of dir) (number_in (slab self.now) t) seat.old.me seat.new.me }
    {
        let words = &self.table.shared;
        let slot = slot_of(self.number(t), way_of(dir));
        drop(words.exchange(seat, slot, edge));
        match self.rows.shape().next(t, dir) {
            Some(to) => send(words, seat, dir, self.number(to)),
            None => seat.turn(),
        }
    }
}

// Which of a tile's four slots is for a direction.
fn way_of(dir: Dir) -> usize
    ensures { result ≡ index_of dir }
{
    match dir {
        Dir::Right => RIGHT,
        Dir::Bottom => BOTTOM,
        Dir::Corner => CORNER,
    }
}
