//! A tile's slots, and how they are emptied: each has a blank, or an edge that a tile sent.
ghost use Rattle.board_steps.specs.Steps.{in_hand};
ghost use Rattle.board_steps.specs.declared.rule.Cell.TheVariants.{Bottom, Corner, Dots, Right};
ghost use Rattle.std.specs.Prelude.{◌*◌, ◌+◌, ◌<◌, ◌^◌, ◌≡◌};
ghost use Rattle.tile_board.specs.Front.{IsFront, IsOfKind, TakesOut};
ghost use Rattle.tile_board.specs.Room.{AreBlanksOf, OwnEmptied};

use board_steps::{Cell, Seated, Words};
use dot_planes::TileBits;
use tile_border::{BottomEdge, CornerEdge, RightEdge};

/// Which of a tile's four slots is for its right edge.
pub(crate) const RIGHT: usize = 0;

/// For its bottom edge.
pub(crate) const BOTTOM: usize = 1;

/// For its corner edge.
pub(crate) const CORNER: usize = 2;

/// For its dots.
pub(crate) const DOTS: usize = 3;

/// The slot of a tile for one of these.
pub(crate) fn slot_of(tile: usize, way: usize) -> usize
    requires tile { tile < 2 ^ 32 }
    requires way { way < 4 }
    ensures { result ≡ 4 * tile + way }
{
    4 * tile + way
}

/// Empties the first slot that the seat has, and moves it after the others.
pub(crate) fn take_out(words: &Words, seat: &mut Seated, slot: usize) -> Cell
    requires table { seat.old.table_id ≡ words.now.table_id }
    requires front { IsFront slot seat.old.me.1 }
    ensures seat { (seat.new.table_id ≡ seat.old.table_id) × (seat.new.id ≡ seat.old.id) }
    ensures taken { TakesOut slot seat.old.me result seat.new.me }
{
    let cell = words.exchange(seat, slot, Cell::Empty);
    seat.turn();
    cell
}

/// The right edge of a slot's value.
pub(crate) fn right_of(cell: Cell) -> RightEdge
    requires { IsOfKind Right cell }
    ensures { cell ≡ Right result }
{
    match cell {
        Cell::Right(edge) => edge,
        _ => unreachable!(),
    }
}

/// The bottom edge of a slot's value.
pub(crate) fn bottom_of(cell: Cell) -> BottomEdge
    requires { IsOfKind Bottom cell }
    ensures { cell ≡ Bottom result }
{
    match cell {
        Cell::Bottom(edge) => edge,
        _ => unreachable!(),
    }
}

/// The corner edge of a slot's value.
pub(crate) fn corner_of(cell: Cell) -> CornerEdge
    requires { IsOfKind Corner cell }
    ensures { cell ≡ Corner result }
{
    match cell {
        Cell::Corner(edge) => edge,
        _ => unreachable!(),
    }
}

// The dots of a slot's value.
fn dots_of(cell: Cell) -> TileBits
    requires { IsOfKind Dots cell }
    ensures { cell ≡ Dots result }
{
    match cell {
        Cell::Dots(bits) => bits,
        _ => unreachable!(),
    }
}

/// The values of a tile's own slots while the tile waited: a blank for each edge that no tile sends to it, else
/// `Cell::Empty`, and dots with none set.
#[derive(Drop)]
pub(crate) struct Blanks {
    pub(crate) right: Cell,
    pub(crate) bottom: Cell,
    pub(crate) corner: Cell,
    pub(crate) dots: TileBits,
}

/// Takes these values out of a tile's own slots.
pub(crate) fn take_blanks(words: &Words, seat: &mut Seated, tile: usize) -> Blanks
    requires table { seat.old.table_id ≡ words.now.table_id }
    requires tile { tile < 2 ^ 32 }
    requires hand { seat.old.me.1 ≡ in_hand words.now.key tile }
    ensures seat { (seat.new.table_id ≡ seat.old.table_id) × (seat.new.id ≡ seat.old.id) }
    ensures blanks { AreBlanksOf words.now.key tile result }
    ensures hand { OwnEmptied words.now.key tile seat.old.me seat.new.me }
{
    let right = take_out(words, seat, slot_of(tile, RIGHT));
    let bottom = take_out(words, seat, slot_of(tile, BOTTOM));
    let corner = take_out(words, seat, slot_of(tile, CORNER));
    let dots = dots_of(take_out(words, seat, slot_of(tile, DOTS)));
    Blanks {
        right,
        bottom,
        corner,
        dots,
    }
}
