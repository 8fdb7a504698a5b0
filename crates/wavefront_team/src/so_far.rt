//! The dots of a page so far.
ghost use Rattle.dot_planes.specs.Tables.{HasSizeOf, dot};
ghost use Rattle.std.specs.Prelude.{IfSome, None, length, ℕ, ◌+◌, ◌<◌, ◌≡◌, ◌≤◌};
ghost use Rattle.tile_shape.specs.Geometry.{IsShape};
ghost use Rattle.wavefront_team.specs.Dots.{IsSameDots};
ghost use Rattle.wavefront_team.specs.Laying.{AreTilesOf, LaysTiles};
ghost use Rattle.wavefront_team.specs.SoFar.{CanBeLaid, dots_in, dots_so_far};

use crate::laying::lay_tiles;
use crate::waiting::Waiting;
use dot_planes::{Planes, TileDots};
use std::alloc::Global;
use std::marker::Model;
use tile_shape::Shape;

/// The dots of a page so far: planes, and the tiles of the slab that was diffused last, which may wait to be laid into
/// them. Contracts see the dots of both.
#[derive(Drop)]
pub struct DotsSoFar {
    planes: Planes,
    waiting: Option<Waiting>,
    // Dots that are laid, whose memory the next slab may use again.
    spare: Option<Vec<TileDots>>,
}

impl Model for DotsSoFar {
    ghost use Rattle.wavefront_team.specs.SoFar.{SoFar};

    ghost Value = { SoFar };

    ghost use Rattle.wavefront_team.specs.Inside.{AllFit, so_far};

    ghost view = { so_far };

    ghost invariant = { AllFit };
}

// Lays a slab that waits into the planes, if one does, and gives its tiles' dots back.
fn lay_waiting(waiting: Option<Waiting>, planes: &mut Planes) -> Option<Vec<TileDots>>
    requires { IfSome waiting (CanBeLaid planes.old) }
    ensures { IsSameDots (dots_so_far planes.old waiting) (dots_so_far planes.new None) }
{
    match waiting {
        Some(slab) => {
            lay_tiles(slab.tiles.as_slice(), slab.shape, planes, slab.first);
            Some(slab.tiles)
        }
        None => None,
    }
}

impl DotsSoFar {
    /// The dots of planes, while no slab waits.
    pub fn of(planes: Planes) -> DotsSoFar
        ensures { result ≡ record { planes = planes; waiting = None } }
    {
        DotsSoFar {
            planes,
            waiting: None,
            spare: None,
        }
    }

    /// The planes, after a waiting slab is laid into them.
    pub fn finish(self) -> Planes
        ensures size { HasSizeOf self.planes result }
        ensures dots { (i y x : ℕ) → i < result.inks → y < result.rows → x < result.width
            → dot result i y x ≡ (dots_in self).dot i y x }
    {
        let DotsSoFar {
            mut planes,
            waiting,
            spare: _,
        } = self;
        drop(lay_waiting(waiting, &mut planes));
        planes
    }

    /// Lays the slab that waits, if one does.
    pub(crate) fn lay(&mut self)
        ensures dots { IsSameDots (dots_in self.old) (dots_in self.new) }
        ensures laid { self.new.waiting ≡ None }
    {
        if let Some(tiles) = lay_waiting(self.waiting.take(), &mut self.planes) {
            self.spare = Some(tiles);
        }
    }

    /// Takes out the dots whose memory may be used again.
    pub(crate) fn take_spare(&mut self, alloc: Global) -> Vec<TileDots>
        ensures { self.new ≡ self.old }
    {
        match self.spare.take() {
            Some(tiles) => tiles,
            None => Vec::new(alloc),
        }
    }

    /// Keeps the tiles of a slab that begins at row `first`, so that they wait. A slab that waited before is laid.
    pub(crate) fn keep(&mut self, tiles: Vec<TileDots>, shape: Shape, first: u32)
        requires shape { IsShape shape }
        requires tiles { AreTilesOf shape tiles.items }
        requires width { self.old.planes.width ≡ shape.width }
        requires rows { first + shape.height ≤ self.old.planes.rows }
        ensures { LaysTiles shape first (length tiles.items) tiles.items (dots_in self.old) (dots_in self.new) }
    {
        self.lay();
        self.waiting = Some(Waiting {
            shape,
            first,
            tiles,
        });
    }
}
