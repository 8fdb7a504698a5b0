//! A worker's share of the tiles of a slab.
ghost use Rattle.tile_board.specs.Board.{slab};
ghost use Rattle.tile_board.specs.Slabs.{shape_of};
ghost use Rattle.tile_shape.specs.Geometry.{IsShape};
ghost use Rattle.std.specs.Prelude.{◌≡◌};
ghost use Rattle.wavefront_team.specs.Passes.{Desk, IsWorkerOf};
ghost use Rattle.wavefront_team.specs.Passes.{desk as desk_of};

use crate::worker::Worker;
use dot_planes::TileRows;
use tile_board::Board;
use tile_shape::Shape;
use worker_team::{Gate, Share};

/// What the workers of a board are lent.
pub(crate) trait Lends {
    /// The board.
    ghost desk: { Self → Desk };

    /// Lets a worker work tiles until all are gone, or until it gives up after many claims in vain.
    fn run(&self, worker: &mut Worker)
        requires { IsWorkerOf (desk self.now) worker.old.pass }
        ensures { IsWorkerOf (desk self.now) worker.new.pass };
}

/// A board, the shape of its slab, and the gate that all workers share.
#[derive(Drop)]
pub(crate) struct Lent<'a, 'b, G, A: TileRows> {
    pub(crate) board: &'a Board<'b, A>,
    pub(crate) shape: Shape,
    pub(crate) gate: &'a G,
    ghost shape_is: { shape ≡ shape_of (slab board.now) },
    ghost sizes: { IsShape shape },
}

impl<'a, 'b, 'c, G: Gate, A: TileRows> Lends for &'c Lent<'a, 'b, G, A> {
    ghost desk = { λ lent. desk_of lent.now.board.now };

    fn run(&self, worker: &mut Worker) {
        worker.run(self.board, self.shape, self.gate);
    }
}

/// The tiles that a worker gets, and what it is lent for them.
#[derive(Drop)]
pub(crate) struct TileShare<L> {
    pub(crate) lent: L,
    pub(crate) worker: Worker,
}

impl<L: Lends> Share for TileShare<L> {
    ghost ready = { λ share. IsWorkerOf (L.desk share.lent) share.worker.pass };

    ghost does = { λ before after. IsWorkerOf (L.desk before.lent) after.worker.pass };

    fn work(&mut self) {
        self.lent.run(&mut self.worker);
    }
}
