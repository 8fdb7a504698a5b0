//! Tiles worked by one pass.
ghost use Rattle.board_steps.specs.Steps.{posted_view};
ghost use Rattle.std.specs.Prelude.{Some, ◌+◌, ◌<◌, ◌≡◌};
ghost use Rattle.tile_board.specs.Board.{IsPassOf, holding, slab, view};
ghost use Rattle.tile_board.specs.Slabs.{number_in, shape_of};
ghost use Rattle.tile_board.specs.Tasks.{IsTaskOf};
ghost use Rattle.tile_shape.specs.Geometry.{IsShape, bands_of};
ghost use Rattle.wavefront_team.specs.Passes.{HasAll, HasPosted, HasPostedAll, desk};

use dot_planes::TileRows;
use tile_board::{Board, Claim, Pass};
use tile_border::{Task, TileRoom};
use tile_shape::{Place, Shape};
use worker_team::Gate;

/// Works the tile that a pass holds, after the gate lets the tile in, and posts the tile.
pub(crate) fn work_held<G: Gate, A: TileRows>(
    board: &Board<'_, A>,
    gate: &G,
    pass: &mut Pass,
    task: Task,
    room: &mut TileRoom,
)
    requires pass { IsPassOf board.now pass.old }
    requires held { holding pass.old ≡ Some task.place }
    requires task { IsTaskOf (slab board.now) task }
    ensures pass { IsPassOf board.now pass.new }
    ensures view { view pass.new ≡ posted_view (view pass.old) (number_in (slab board.now) task.place) }
{
    gate.enter(task.place);
    let done = board.work_in(task, room);
    board.post(pass, done);
}

/// Works all tiles that are left, by band and then column. The pass has all 256 parts, so each tile in this order is
/// ready, or the pass has posted it.
pub(crate) fn work_rest<G: Gate, A: TileRows>(
    board: &Board<'_, A>,
    shape: Shape,
    gate: &G,
    pass: &mut Pass,
)
    requires pass { HasAll (desk board.now) pass.old }
    requires shape { shape ≡ shape_of (slab board.now) }
    requires sizes { IsShape shape }
    ensures pass { IsPassOf board.now pass.new }
    ensures all { HasPostedAll (desk board.now) pass.new }
{
    let mut room = TileRoom::make();
    for j in 0..shape.bands() {
        work_band(board, shape, gate, pass, j, &mut room);
    }
}

// Works the tiles of band j that are left.
fn work_band<G: Gate, A: TileRows>(
    board: &Board<'_, A>,
    shape: Shape,
    gate: &G,
    pass: &mut Pass,
    j: u32,
    room: &mut TileRoom,
)
    requires pass { HasAll (desk board.now) pass.old }
    requires shape { shape ≡ shape_of (slab board.now) }
    requires sizes { IsShape shape }
    requires band { j < bands_of shape }
    requires before { HasPosted (desk board.now) j 0 pass.old }
    ensures pass { HasAll (desk board.now) pass.new }
    ensures posted { HasPosted (desk board.now) (j + 1) 0 pass.new }
{
    for c in 0..shape.columns() {
        match board.claim(pass, Place { c, j }) {
            Claim::Got(task) => work_held(board, gate, pass, task, room),
            Claim::NotReady { .. } => unreachable!(),
            Claim::Gone { .. } => {}
        }
    }
}
