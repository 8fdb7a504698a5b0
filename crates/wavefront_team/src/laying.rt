//! Puts the dots of a slab's tiles into the planes.
ghost use Rattle.std.specs.Prelude.{length, ◌+◌, ◌≡◌, ◌≤◌};
ghost use Rattle.tile_shape.specs.Geometry.{IsShape};
ghost use Rattle.wavefront_team.specs.Dots.{dots_of};
ghost use Rattle.wavefront_team.specs.Laying.{AreTilesOf, LaysTiles};

use dot_planes::{Planes, TileDots};
use tile_shape::Shape;

/// Puts the dots of a slab's tiles, which are listed by band and then column, into the planes from row `at` on.
pub(crate) fn lay_tiles(tiles: &[TileDots], shape: Shape, out: &mut Planes, at: u32)
    requires shape { IsShape shape }
    requires tiles { AreTilesOf shape tiles.now }
    requires width { out.old.width ≡ shape.width }
    requires at { at + shape.height ≤ out.old.rows }
    ensures { LaysTiles shape at (length tiles.now) tiles.now (dots_of out.old) (dots_of out.new) }
{
    let columns = shape.columns() as usize;
    for j in 0..shape.bands() {
        let first = j as usize * columns;
        out.put_band(at, shape.height, j, &tiles[first..first + columns]);
    }
}
