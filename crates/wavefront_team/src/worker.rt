//! A worker of a slab.
ghost use Rattle.std.specs.Prelude.{IfOk, IfSome, ◌<◌, ◌≡◌};
ghost use Rattle.tile_board.specs.Board.{slab};
ghost use Rattle.tile_board.specs.Slabs.{shape_of};
ghost use Rattle.tile_shape.specs.Geometry.{IsShape, IsTile};
ghost use Rattle.wavefront_team.specs.Passes.{IsWorkerOf, desk};

use crate::work::work_held;
use base_definitions::Memory;
use dot_planes::TileRows;
use std::alloc::Global;
use std::thread::yield_now;
use tile_board::{Board, Claim, Pass};
use tile_border::TileRoom;
use tile_shape::{Place, Shape};
use worker_team::Gate;

// A worker that gets no tile in this many claims leaves the rest to the caller.
const MOST_CLAIMS: u32 = 16_777_216;

// How many columns a worker's band may be ahead of the hindmost one, each band counted two columns behind the one
// above.
const MOST_AHEAD: u32 = 8;

/// A worker: its pass, and which tile it claims next.
#[derive(Drop)]
pub(crate) struct Worker {
    pub(crate) pass: Pass,
    // By band, the first column whose tile it has not found gone.
    pub(crate) next_columns: Vec<u32>,
    // The band of its next claim.
    pub(crate) band: u32,
}

impl Worker {
    /// A worker that has claimed nothing yet.
    pub(crate) fn make(alloc: Global, pass: Pass, shape: Shape) -> Result<Worker, Memory>
        requires { IsShape shape }
        ensures { IfOk result (λ w. w.pass ≡ pass) }
    {
        let next_columns = vec![in alloc; 0; shape.bands() as usize]?;
        Ok(Worker {
            pass,
            next_columns,
            band: 0,
        })
    }

    /// Works tiles until all are gone, or until it gives up after many claims in vain.
    pub(crate) fn run<G: Gate, A: TileRows>(&mut self, board: &Board<'_, A>, shape: Shape, gate: &G)
        requires worker { IsWorkerOf (desk board.now) self.old.pass }
        requires shape { shape ≡ shape_of (slab board.now) }
        requires sizes { IsShape shape }
        ensures { IsWorkerOf (desk board.now) self.new.pass }
    {
        let mut room = TileRoom::make();
        for _ in 0..shape.bands() * shape.columns() {
            if !self.work_next(board, shape, gate, &mut room) {
                return;
            }
        }
    }

    // Claims tiles until it gets one, and works that. False where all are gone, or after `MOST_CLAIMS` claims in vain.
    fn work_next<G: Gate, A: TileRows>(
        &mut self,
        board: &Board<'_, A>,
        shape: Shape,
        gate: &G,
        room: &mut TileRoom,
    ) -> bool
        requires worker { IsWorkerOf (desk board.now) self.old.pass }
        requires shape { shape ≡ shape_of (slab board.now) }
        requires sizes { IsShape shape }
        ensures { IsWorkerOf (desk board.now) self.new.pass }
    {
        for _ in 0..MOST_CLAIMS {
            let Some(place) = self.next_place(shape) else {
                return false;
            };
            match board.claim(&mut self.pass, place) {
                Claim::Got(task) => {
                    work_held(board, gate, &mut self.pass, task, room);
                    self.go_on(shape);
                    return true;
                }
                Claim::NotReady { .. } => self.look_further(shape),
                Claim::Gone { .. } => self.go_on(shape),
            }
        }
        false
    }

    // The next tile to claim: the first of its band that it has not found gone, or else of the next band that has one.
    fn next_place(&mut self, shape: Shape) -> Option<Place>
        requires { IsShape shape }
        ensures tile { IfSome result (IsTile shape) }
        ensures pass { self.new.pass ≡ self.old.pass }
    {
        for _ in 0..shape.bands() {
            if let Some(&c) = self.next_columns.get(self.band as usize)
                && c < shape.columns()
                && self.band < shape.bands()
            {
                return Some(Place { c, j: self.band });
            }
            self.turn(shape);
        }
        None
    }

    // Turns to the next band. After a round of all bands it yields the processor: a worker whose tile the others need
    // may share it.
    fn look_further(&mut self, shape: Shape)
        requires { IsShape shape }
        ensures { self.new.pass ≡ self.old.pass }
    {
        self.turn(shape);
        if self.band == 0 {
            yield_now();
        }
    }

    // Goes on to the next column of its band, and then to the band that is hindmost, where that is far behind.
    fn go_on(&mut self, shape: Shape)
        requires { IsShape shape }
        ensures { self.new.pass ≡ self.old.pass }
    {
        if let Some(c) = self.next_columns.get_mut(self.band as usize) {
            *c = c.saturating_add(1);
        }
        self.keep_level(shape);
    }

    // Turns to the hindmost band, where its own is more than `MOST_AHEAD` columns ahead of that, or has no tile left.
    fn keep_level(&mut self, shape: Shape)
        requires { IsShape shape }
        ensures { self.new.pass ≡ self.old.pass }
    {
        let mut least = match self.diagonal(shape, self.band) {
            Some(own) => own.saturating_sub(MOST_AHEAD),
            None => u32::MAX,
        };
        for j in 0..shape.bands() {
            if let Some(other) = self.diagonal(shape, j)
                && other < least
            {
                least = other;
                self.band = j;
            }
        }
    }

    // The diagonal c + 2 j of the next tile of band j. A tile needs only tiles of lower diagonals.
    fn diagonal(&self, shape: Shape, j: u32) -> Option<u32>
        requires { IsShape shape }
    {
        match self.next_columns.get(j as usize) {
            Some(&c) if c < shape.columns() => Some(c.saturating_add(j.saturating_mul(2))),
            _ => None,
        }
    }

    // Turns to the next band, after the last to the first.
    fn turn(&mut self, shape: Shape)
        requires { IsShape shape }
        ensures { self.new.pass ≡ self.old.pass }
    {
        self.band = (self.band.saturating_add(1)) % shape.bands();
    }
}
