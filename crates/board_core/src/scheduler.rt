//! The state of the tiles of a window, changed event by event.
ghost use Rattle.board_core.specs.Numbers.{number_of};
ghost use Rattle.board_core.specs.States.{start, tile_at};
ghost use Rattle.board_core.specs.Steps.{Gives, IsAccepted, IsFirst, IsFirstReady, IsReadyTile, Lacks, LacksEdge, Owes};
ghost use Rattle.board_core.specs.Steps.{OwesEdge, after, with_tile};
ghost use Rattle.board_core.specs.declared.events.Event.{Event};
ghost use Rattle.board_core.specs.declared.events.Event.TheVariants.{Post, Send, Take};
ghost use Rattle.board_core.specs.declared.tiles.Status.TheVariants.{Waiting};
ghost use Rattle.std.specs.Prelude.{IfErr, IfNone, IfOk, IfSome, IsTrue, OnErr, OnOk, length, ◌<◌, ◌≡◌, ◌≢◌, ◌↔◌};
ghost use Rattle.tile_shape.specs.Geometry.{IsShape, IsTile};
ghost use Rattle.tile_shape.specs.declared.tiles.Place.{Place};

use crate::events::{CoreFault, Event};
use crate::tiles::{Status, TileState};
use base_definitions::Memory;
use std::alloc::Global;
use std::marker::Model;
use tile_shape::{Dir, Place, Shape};

/// The tiles of a window: which wait, which seat has which, and which edges were sent.
#[derive(Drop)]
pub struct Core {
    shape: Shape,
    // by band and then column
    tiles: Vec<TileState>,
    // none of the first `begun` tiles waits
    begun: usize,
}

impl Model for Core {
    ghost use Rattle.board_core.specs.States.{CoreState};

    ghost Value = { CoreState };

    ghost use Rattle.board_core.specs.Inside.{IsWhole, state_of};

    ghost view = { state_of };

    ghost invariant = { IsWhole };
}

const FRESH: TileState = TileState {
    status: Status::Waiting,
    right: false,
    bottom: false,
    corner: false,
};

impl Core {
    /// Every tile of the window waits, and no edge is sent.
    pub fn make(alloc: Global, shape: Shape) -> Result<Core, Memory>
        requires { IsShape shape }
        ensures { IfOk result (λ core. core ≡ start shape) }
    {
        let count = shape.columns() as usize * shape.bands() as usize;
        let tiles = vec![in alloc; FRESH; count]?;
        Ok(Core {
            shape,
            tiles,
            begun: 0,
        })
    }

    /// Accepts one event, or refuses it and leaves the tiles unchanged.
    pub fn step(&mut self, e: Event) -> Result<(), CoreFault>
        ensures accepted { OnOk result (IsAccepted self.old e) }
        ensures after { OnOk result (self.new ≡ after self.old e) }
        ensures fault { IfErr result (λ fault. IsFirst self.old e fault) }
        ensures unchanged { OnErr result (self.new ≡ self.old) }
    {
        match e {
            Event::Take { place, seat } => self.take(place, seat),
            Event::Send { place, dir, seat } => self.send(place, dir, seat),
            Event::Post { place, seat } => self.post(place, seat),
        }
    }

    /// The first tile that waits and has each edge that it needs, by band and then column.
    pub fn ready(&self) -> Option<Place>
        ensures first { IfSome result (λ p. IsFirstReady self.now p) }
        ensures none { IfNone result ((p : Place) → ¬ IsReadyTile self.now p) }
    {
        let columns = self.shape.columns();
        let count = self.shape.bands() * columns;
        for n in self.begun as u32..count {
            let place = Place {
                c: n % columns,
                j: n / columns,
            };
            if self.is_ready(place) {
                return Some(place);
            }
        }
        None
    }

    // Whether a tile waits and lacks no edge.
    fn is_ready(&self, place: Place) -> bool
        requires { IsTile self.now.shape place }
        ensures { IsTrue result ↔ IsReadyTile self.now place }
    {
        self.tile(place).status == Status::Waiting && !self.lacks_an_edge(place)
    }

    fn take(&mut self, place: Place, seat: u32) -> Result<(), CoreFault>
        ensures accepted { OnOk result (IsAccepted self.old (Take place seat)) }
        ensures after { OnOk result (self.new ≡ after self.old (Take place seat)) }
        ensures fault { IfErr result (λ fault. IsFirst self.old (Take place seat) fault) }
        ensures unchanged { OnErr result (self.new ≡ self.old) }
    {
        if !self.has_tile(place) {
            return Err(CoreFault::NoSuchTile);
        }
        let tile = self.tile(place);
        if tile.status != Status::Waiting {
            return Err(CoreFault::Taken);
        }
        if self.lacks_an_edge(place) {
            return Err(CoreFault::NotReady);
        }
        self.put(
            place,
            TileState {
                status: Status::Taken(seat),
                ..tile
            },
        );
        Ok(())
    }

    fn send(&mut self, place: Place, dir: Dir, seat: u32) -> Result<(), CoreFault>
        ensures accepted { OnOk result (IsAccepted self.old (Send place dir seat)) }
        ensures after { OnOk result (self.new ≡ after self.old (Send place dir seat)) }
        ensures fault { IfErr result (λ fault. IsFirst self.old (Send place dir seat) fault) }
        ensures unchanged { OnErr result (self.new ≡ self.old) }
    {
        if !self.has_tile(place) || self.shape.next(place, dir).is_none() {
            return Err(CoreFault::NoSuchTile);
        }
        let from = self.tile(place);
        if from.status != Status::Taken(seat) {
            return Err(CoreFault::NotYours);
        }
        if from.has_sent(dir) {
            return Err(CoreFault::Sent);
        }
        self.put(place, from.with_sent(dir));
        Ok(())
    }

    fn post(&mut self, place: Place, seat: u32) -> Result<(), CoreFault>
        ensures accepted { OnOk result (IsAccepted self.old (Post place seat)) }
        ensures after { OnOk result (self.new ≡ after self.old (Post place seat)) }
        ensures fault { IfErr result (λ fault. IsFirst self.old (Post place seat) fault) }
        ensures unchanged { OnErr result (self.new ≡ self.old) }
    {
        if !self.has_tile(place) {
            return Err(CoreFault::NoSuchTile);
        }
        let tile = self.tile(place);
        if tile.status != Status::Taken(seat) {
            return Err(CoreFault::NotYours);
        }
        if self.owes_an_edge(place) {
            return Err(CoreFault::Unsent);
        }
        self.put(
            place,
            TileState {
                status: Status::Posted(seat),
                ..tile
            },
        );
        Ok(())
    }

    fn has_tile(&self, place: Place) -> bool
        ensures { IsTrue result ↔ IsTile self.now.shape place }
    {
        place.c < self.shape.columns() && place.j < self.shape.bands()
    }

    // The state of a tile.
    fn tile(&self, place: Place) -> TileState
        requires { IsTile self.now.shape place }
        ensures { result ≡ tile_at self.now place }
    {
        self.tiles[self.number(place)]
    }

    // Sets the state of a tile, which does not wait any more.
    fn put(&mut self, place: Place, tile: TileState)
        requires tile { IsTile self.old.shape place }
        requires begun { tile.status ≢ Waiting }
        ensures { self.new ≡ with_tile self.old place tile }
    {
        let at = self.number(place);
        self.tiles[at] = tile;
        if at == self.begun {
            self.begun += 1;
        }
    }

    // The number of a tile, by band and then column.
    fn number(&self, place: Place) -> usize
        requires { IsTile self.now.shape place }
        ensures is { result ≡ number_of self.now.shape place }
        ensures inside { result < length self.now.tiles }
    {
        place.j as usize * self.shape.columns() as usize + place.c as usize
    }

    // Whether an edge that comes to a tile was not sent.
    fn lacks_an_edge(&self, place: Place) -> bool
        requires { IsTile self.now.shape place }
        ensures { IsTrue result ↔ Lacks self.now place }
    {
        self.lacks(place, Dir::Right)
            || self.lacks(place, Dir::Bottom)
            || self.lacks(place, Dir::Corner)
    }

    // Whether a tile gives it this edge, and has not sent it.
    fn lacks(&self, place: Place, dir: Dir) -> bool
        requires { IsTile self.now.shape place }
        ensures { IsTrue result ↔ LacksEdge self.now place dir }
    {
        match source(self.shape, place, dir) {
            Some(from) => !self.tile(from).has_sent(dir),
            None => false,
        }
    }

    // Whether an edge of a tile that has a receiver was not sent.
    fn owes_an_edge(&self, place: Place) -> bool
        requires { IsTile self.now.shape place }
        ensures { IsTrue result ↔ Owes self.now place }
    {
        self.owes(place, Dir::Right)
            || self.owes(place, Dir::Bottom)
            || self.owes(place, Dir::Corner)
    }

    fn owes(&self, place: Place, dir: Dir) -> bool
        requires { IsTile self.now.shape place }
        ensures { IsTrue result ↔ OwesEdge self.now place dir }
    {
        self.shape.next(place, dir).is_some() && !self.tile(place).has_sent(dir)
    }
}

// The tile that gives a tile this edge, or `None` where the window has no such tile.
fn source(shape: Shape, to: Place, dir: Dir) -> Option<Place>
    requires shape { IsShape shape }
    requires tile { IsTile shape to }
    ensures source { IfSome result (λ from. Gives shape from dir to) }
    ensures none { IfNone result ((from : Place) → ¬ Gives shape from dir to) }
{
    let Place { c, j } = to;
    match dir {
        Dir::Right if c > 0 => Some(Place { c: c - 1, j }),
        Dir::Bottom if j > 0 && c + 1 < shape.columns() => Some(Place { c: c + 1, j: j - 1 }),
        Dir::Corner if j > 0 => Some(Place { c, j: j - 1 }),
        _ => None,
    }
}
