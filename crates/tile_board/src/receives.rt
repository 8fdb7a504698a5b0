//! Takes the edges that a tile is handed out of the slots that the seat got with the tile.
ghost use Rattle.board_steps.specs.Rule.{setting_of};
ghost use Rattle.board_steps.specs.Steps.{emptied_hand, in_hand};
ghost use Rattle.std.specs.Prelude.{length, ◌<◌, ◌^◌, ◌≡◌};
ghost use Rattle.tile_board.specs.Board.{slab};
ghost use Rattle.tile_board.specs.Room.{IsNext, TakesIn};
ghost use Rattle.tile_board.specs.Slabs.{amounts_of, number_in, shape_of, top_edges};
ghost use Rattle.tile_board.specs.Tasks.{IsTaskOf};
ghost use Rattle.tile_border.specs.Tiles.{IsHandedTo};
ghost use Rattle.tile_shape.specs.Geometry.{IsTile, columns_of};
ghost use Rattle.tile_shape.specs.declared.tiles.Dir.TheVariants.{Bottom, Corner, Right};

use crate::kinds::Board;
use crate::room::{
    BOTTOM, Blanks, CORNER, RIGHT, bottom_of, corner_of, right_of, slot_of, take_blanks, take_out,
};
use board_steps::{Cell, Seated};
use dot_planes::{TileDots, TileRows};
use tile_border::{BottomEdge, CornerEdge, RightEdge, Task};
use tile_shape::Place;

impl<'a, A: TileRows> Board<'a, A> {
    /// The number of a tile, by band and then column.
    pub(crate) fn number(&self, t: Place) -> usize
        requires { IsTile (shape_of (slab self.now)) t }
        ensures is { result ≡ number_in (slab self.now) t }
        ensures inside { result < self.now.table.shared.table_id.words }
        ensures few { result < 2 ^ 32 }
    {
        t.j as usize * self.rows.shape().columns() as usize + t.c as usize
    }

    /// Takes out the edges that a tile is handed, and leaves all slots that the seat has empty.
    pub(crate) fn receive(&self, seat: &mut Seated, t: Place) -> Task
        requires table { seat.old.table_id ≡ self.now.table.shared.table_id }
        requires tile { IsTile (shape_of (slab self.now)) t }
        requires hand { seat.old.me.1 ≡ in_hand (slab self.now) (number_in (slab self.now) t) }
        ensures seat { (seat.new.table_id ≡ seat.old.table_id) × (seat.new.id ≡ seat.old.id) }
        ensures place { result.place ≡ t }
        ensures task { IsTaskOf (slab self.now) result }
        ensures hand { seat.new.me ≡ (seat.old.me.0, emptied_hand (slab self.now) (number_in (slab self.now) t)) }
    {
        let Blanks {
            right,
            bottom,
            corner,
            dots,
        } = take_blanks(&self.table.shared, seat, self.number(t));
        let left = self.receive_left(seat, t, right);
        let above = self.receive_above(seat, t, bottom);
        let corner = self.receive_corner(seat, t, corner);
        Task {
            place: t,
            left,
            above,
            corner,
            dots: TileDots {
                place: t,
                bits: dots,
            },
        }
    }

    // The right edge of the tile at the left. In the first column the blank, whose errors are 0.
    fn receive_left(&self, seat: &mut Seated, t: Place, blank: Cell) -> RightEdge
        requires table { seat.old.table_id ≡ self.now.table.shared.table_id }
        requires tile { IsTile (shape_of (slab self.now)) t }
        requires blank { blank ≡ (setting_of (slab self.now)).fresh (number_in (slab self.now) t) 0 }
        requires next { IsNext (slab self.now) 0 (number_in (slab self.now) t) seat.old.me.1 }
        ensures seat { (seat.new.table_id ≡ seat.old.table_id) × (seat.new.id ≡ seat.old.id) }
        ensures edge { IsHandedTo (slab self.now).kernel (amounts_of (slab self.now)) (top_edges (slab self.now))
            Right t result }
        ensures takes { TakesIn (slab self.now) 0 (number_in (slab self.now) t) seat.old.me seat.new.me }
    {
        if t.c == 0 {
            return right_of(blank);
        }
        let from = Place { c: t.c - 1, j: t.j };
        let slot = slot_of(self.number(from), RIGHT);
        right_of(take_out(&self.table.shared, seat, slot))
    }

    // The bottom edge of the tile above and one column to the right. In the first band that of the top, copied into the
    // blank; in the last column the blank, whose errors are 0.
    fn receive_above(&self, seat: &mut Seated, t: Place, blank: Cell) -> BottomEdge
        requires table { seat.old.table_id ≡ self.now.table.shared.table_id }
        requires tile { IsTile (shape_of (slab self.now)) t }
        requires blank { blank ≡ (setting_of (slab self.now)).fresh (number_in (slab self.now) t) 1 }
        requires next { IsNext (slab self.now) 1 (number_in (slab self.now) t) seat.old.me.1 }
        ensures seat { (seat.new.table_id ≡ seat.old.table_id) × (seat.new.id ≡ seat.old.id) }
        ensures edge { IsHandedTo (slab self.now).kernel (amounts_of (slab self.now)) (top_edges (slab self.now))
            Bottom t result }
        ensures takes { TakesIn (slab self.now) 1 (number_in (slab self.now) t) seat.old.me seat.new.me }
    {
        let columns = self.rows.shape().columns();
        if t.c + 1 == columns {
            return bottom_of(blank);
        }
        if t.j == 0 {
            let mut above = bottom_of(blank);
            copy_edge(self.top.at(t.c + 1), &mut above);
            return above;
        }
        let from = Place {
            c: t.c + 1,
            j: t.j - 1,
        };
        let slot = slot_of(self.number(from), BOTTOM);
        bottom_of(take_out(&self.table.shared, seat, slot))
    }

    // The corner edge of the tile above. In the first band the ends of the top's edge of the same column.
    fn receive_corner(&self, seat: &mut Seated, t: Place, blank: Cell) -> CornerEdge
        requires table { seat.old.table_id ≡ self.now.table.shared.table_id }
        requires tile { IsTile (shape_of (slab self.now)) t }
        requires blank { blank ≡ (setting_of (slab self.now)).fresh (number_in (slab self.now) t) 2 }
        requires next { IsNext (slab self.now) 2 (number_in (slab self.now) t) seat.old.me.1 }
        ensures seat { (seat.new.table_id ≡ seat.old.table_id) × (seat.new.id ≡ seat.old.id) }
        ensures edge { IsHandedTo (slab self.now).kernel (amounts_of (slab self.now)) (top_edges (slab self.now))
            Corner t result }
        ensures takes { TakesIn (slab self.now) 2 (number_in (slab self.now) t) seat.old.me seat.new.me }
    {
        if t.j == 0 {
            let mut corner = corner_of(blank);
            self.top.at(t.c).cut_ends(&mut corner);
            return corner;
        }
        let from = Place { c: t.c, j: t.j - 1 };
        let slot = slot_of(self.number(from), CORNER);
        corner_of(take_out(&self.table.shared, seat, slot))
    }
}

// Copies the errors of an edge with the same number of inks.
fn copy_edge(from: &BottomEdge, to: &mut BottomEdge)
    requires { length to.old ≡ length from.now }
    ensures { to.new ≡ from.now }
{
    for ink in 0..from.inks() {
        to.put(ink, from.ink(ink));
    }
}
