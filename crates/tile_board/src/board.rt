//! The calls of a board and of its passes.
ghost use Rattle.board_steps.specs.Steps.{HasPostedOnce, joined_view, kept_view, new_view, posted_view};
ghost use Rattle.std.specs.Prelude.{IsTrue, None, Some, ◌%◌, ◌+◌, ◌/◌, ◌<◌, ◌≡◌, ◌≤◌, ◌↔◌};
ghost use Rattle.tile_board.specs.Board.{Claimed, IsPassOf, Lacks, got, holding, slab, view};
ghost use Rattle.tile_board.specs.Hand.{held_number};
ghost use Rattle.tile_board.specs.Slabs.{number_in, shape_of};
ghost use Rattle.tile_board.specs.Tasks.{IsDoneOf, IsTaskOf};
ghost use Rattle.tile_shape.specs.Geometry.{IsTile};

use crate::kinds::{Board, Claim, Pass};
use crate::room::{DOTS, slot_of};
use board_steps::{Cell, cut, look, post, take, unite};
use dot_planes::TileRows;
use tile_border::{Done, Task, TileRoom, work_in};
use tile_shape::{Dir, Needs, Place};

impl Pass {
    /// The tile that the pass holds.
    pub fn holds(&self) -> Option<Place>
        ensures is { result ≡ holding self.now }
        ensures number { held_number (view self.now).board result ≡ (view self.now).held }
    {
        self.held
    }

    /// How many of the board's 256 parts it has: 1 to 256.
    pub fn parts(&self) -> u16
        ensures { result ≡ (view self.now).parts }
    {
        self.parts
    }
}

impl<'a, A: TileRows> Board<'a, A> {
    /// Claims a tile for a pass that holds none. `Got` hands the tile out with the edges of row-by-row diffusion: the
    /// pass then holds the tile, and had not posted it. `NotReady` and `Gone` carry the tile's word as it was found. By
    /// the rule of `board_steps` no other pass holds or has posted a tile that a pass holds.
    pub fn claim(&self, p: &mut Pass, t: Place) -> Claim
        requires pass { IsPassOf self.now p.old }
        requires idle { (view p.old).held ≡ None }
        requires tile { IsTile (shape_of (slab self.now)) t }
        ensures pass { IsPassOf self.now p.new }
        ensures claim { Claimed (slab self.now) (view p.old) t result (view p.new) }
        ensures holds { holding p.new ≡ got result }
    {
        let words = &self.table.shared;
        let at = self.number(t);
        let word = look(words, &mut p.seat, at);
        if word / 8 % 2 == 1 {
            return Claim::Gone { word };
        }
        if lacks_edge(self.rows.shape().needs(t), word) {
            return Claim::NotReady { word };
        }
        let word = take(words, &mut p.seat, at);
        if word / 8 % 2 == 1 {
            return Claim::Gone { word };
        }
        p.held = Some(t);
        Claim::Got(self.receive(&mut p.seat, t))
    }

    /// Diffuses a tile that a claim handed out.
    pub fn work(&self, task: Task) -> Done
        requires { IsTaskOf (slab self.now) task }
        ensures place { result.place ≡ task.place }
        ensures done { IsDoneOf (slab self.now) result }
    {
        self.work_in(task, &mut TileRoom::make())
    }

    /// Diffuses a tile as `work` does, in room that the caller lends.
    pub fn work_in(&self, task: Task, room: &mut TileRoom) -> Done
        requires { IsTaskOf (slab self.now) task }
        ensures place { result.place ≡ task.place }
        ensures done { IsDoneOf (slab self.now) result }
    {
        work_in(task, self.rows, self.kernel, room)
    }

    /// Takes back the tile that a pass holds: sends its edges to the tiles that receive them, and keeps its dots. The
    /// pass then holds no tile, and its list has this one just once, with the pass's number, also if the pass has
    /// joined another since it claimed the tile.
    pub fn post(&self, p: &mut Pass, d: Done)
        requires pass { IsPassOf self.now p.old }
        requires held { holding p.old ≡ Some d.place }
        requires done { IsDoneOf (slab self.now) d }
        ensures pass { IsPassOf self.now p.new }
        ensures view { view p.new ≡ posted_view (view p.old) (number_in (slab self.now) d.place) }
        ensures once { HasPostedOnce (number_in (slab self.now) d.place) (view p.new) }
        ensures holds { holding p.new ≡ None }
    {
        let Done {
            place,
            dots,
            right,
            bottom,
            corner,
        } = d;
        self.give(&mut p.seat, place, Dir::Right, Cell::Right(right));
        self.give(&mut p.seat, place, Dir::Bottom, Cell::Bottom(bottom));
        self.give(&mut p.seat, place, Dir::Corner, Cell::Corner(corner));
        let words = &self.table.shared;
        let at = self.number(place);
        drop(words.exchange(&mut p.seat, slot_of(at, DOTS), Cell::Dots(dots.bits)));
        post(words, &mut p.seat, at);
        p.held = None;
    }

    /// Cuts a pass of one part off the first pass. The new pass holds nothing.
    pub fn split(&self, p: &mut Pass) -> Pass
        requires pass { IsPassOf self.now p.old }
        requires first { (view p.old).number ≡ 0 }
        requires parts { 2 ≤ (view p.old).parts }
        ensures passes { IsPassOf self.now p.new × IsPassOf self.now result }
        ensures old { view p.new ≡ kept_view (view p.old) }
        ensures new { view result ≡ new_view (view p.old) }
        ensures holds { holding p.new ≡ holding p.old }
    {
        let seat = cut(&self.table.shared, &mut p.seat);
        p.parts -= 1;
        Pass {
            seat,
            held: None,
            parts: 1,
        }
    }

    /// Joins pass `q`, which holds nothing, to pass `p`. Pass `p` then also has the parts of `q` and the tiles that `q`
    /// posted. `p` may hold a tile, and goes on holding it.
    pub fn join(&self, p: &mut Pass, q: Pass)
        requires passes { IsPassOf self.now p.old × IsPassOf self.now q }
        requires idle { (view q).held ≡ None }
        ensures pass { IsPassOf self.now p.new }
        ensures view { view p.new ≡ joined_view (view p.old) (view q) }
        ensures parts { (view p.new).parts ≡ (view p.old).parts + (view q).parts }
        ensures few { (view p.new).parts ≤ 256 }
        ensures holds { holding p.new ≡ holding p.old }
    {
        let Pass {
            seat,
            held: _,
            parts,
        } = q;
        unite(&self.table.shared, &mut p.seat, seat);
        p.parts += parts;
    }
}

// Whether the bit of an edge that the tile needs is clear in its word.
fn lacks_edge(needs: Needs, word: u64) -> bool
    ensures { IsTrue result ↔ Lacks needs word }
{
    needs.left && word % 2 == 0
        || needs.above && word / 2 % 2 == 0
        || needs.corner && word / 4 % 2 == 0
}
