//! A tile by any kernel.
ghost use Rattle.diffusion_definitions.specs.Diffusion.{EachInRange};
ghost use Rattle.diffusion_kernel.specs.Tables.{table_of};
ghost use Rattle.dot_planes.specs.Gathered.{HasNoAmount, HasPixels};
ghost use Rattle.std.specs.Prelude.{ℕ};
ghost use Rattle.tile_lanes.specs.Done.{DiffusesInk, plane_with};
ghost use Rattle.tile_shape.specs.Geometry.{IsTile};

use crate::blank::{hands_nothing, is_blank};
use crate::field::Field;
use crate::lanes::diffuse_lanes;
use diffusion_kernel::Kernel;
use tile_shape::{Place, Shape};

// Diffuses one ink of a tile as `diffuse_tile` does, pixel by pixel.
fn diffuse_pixels(
    kernel: Kernel,
    shape: Shape,
    place: Place,
    amounts: &[u8; 2048],
    side: &mut [i16; 192],
    bottom: &mut [i16; 128],
    corner: &mut [i16; 12],
    dots: &mut [u8; 256],
    field: &mut Field,
)
    requires side_fits { EachInRange side.old }
    requires bottom_fits { EachInRange bottom.old }
    requires corner_fits { EachInRange corner.old }
    ensures side_fits { EachInRange side.new }
    ensures bottom_fits { EachInRange bottom.new }
    ensures corner_fits { EachInRange corner.new }
    ensures done { (amount : ℕ → ℕ → ℕ) → HasPixels shape amount place amounts.now
        → DiffusesInk (table_of kernel) (plane_with shape amount) place
        side.old bottom.old corner.old side.new bottom.new corner.new dots.new }
{
    // A call for each kernel: its shares are constants there.
    match kernel {
        Kernel::Floyd => diffuse_lanes(
            Kernel::Floyd,
            shape,
            place,
            amounts,
            side,
            bottom,
            corner,
            dots,
            &mut field.held,
            &mut field.amounts,
        ),
        Kernel::Jarvis => diffuse_lanes(
            Kernel::Jarvis,
            shape,
            place,
            amounts,
            side,
            bottom,
            corner,
            dots,
            &mut field.held,
            &mut field.amounts,
        ),
        Kernel::Stucki => diffuse_lanes(
            Kernel::Stucki,
            shape,
            place,
            amounts,
            side,
            bottom,
            corner,
            dots,
            &mut field.held,
            &mut field.amounts,
        ),
    }
}

/// Diffuses one ink of a tile of a window from its amounts, 32 of each of its 64 offsets, one of each row. If the
/// window has no pixel at a place, the amount there means nothing. Each array of errors, from -2040 to 2039, holds an
/// edge that the tile is handed, and after the call the edge that it hands on:
///
/// - `side`: 32 rows of six errors, before the call the left edge, after it the right one;
/// - `bottom`: two rows of 64, before the call the bottom edge from above, after it the tile's own;
/// - `corner`: two rows of six, before the call those left of `bottom`, after it the last six of `bottom`.
///
/// `dots` becomes 32 rows of 64 dots, eight a byte, the first in the highest bit. A place without a pixel has no dot.
///
/// `field` is room, of any content.
pub fn diffuse_tile(
    kernel: Kernel,
    shape: Shape,
    place: Place,
    amounts: &[u8; 2048],
    side: &mut [i16; 192],
    bottom: &mut [i16; 128],
    corner: &mut [i16; 12],
    dots: &mut [u8; 256],
    field: &mut Field,
)
    requires tile { IsTile shape place }
    requires side_fits { EachInRange side.old }
    requires bottom_fits { EachInRange bottom.old }
    requires corner_fits { EachInRange corner.old }
    ensures side_fits { EachInRange side.new }
    ensures bottom_fits { EachInRange bottom.new }
    ensures corner_fits { EachInRange corner.new }
    ensures done { (amount : ℕ → ℕ → ℕ) → HasPixels shape amount place amounts.now
        → DiffusesInk (table_of kernel) (plane_with shape amount) place
        side.old bottom.old corner.old side.new bottom.new corner.new dots.new }
{
    if is_blank(amounts) && hands_nothing(side, bottom, corner) {
        // No error arises, and the edges stay 0.
        *dots = [0; 256];
    } else {
        diffuse_pixels(
            kernel, shape, place, amounts, side, bottom, corner, dots, field,
        );
    }
}

/// Diffuses one ink of a tile that has no amount of it. The edges, the dots and the room are those of `diffuse_tile`.
pub fn diffuse_blank(
    kernel: Kernel,
    shape: Shape,
    place: Place,
    side: &mut [i16; 192],
    bottom: &mut [i16; 128],
    corner: &mut [i16; 12],
    dots: &mut [u8; 256],
    field: &mut Field,
)
    requires tile { IsTile shape place }
    requires side_fits { EachInRange side.old }
    requires bottom_fits { EachInRange bottom.old }
    requires corner_fits { EachInRange corner.old }
    ensures side_fits { EachInRange side.new }
    ensures bottom_fits { EachInRange bottom.new }
    ensures corner_fits { EachInRange corner.new }
    ensures done { (amount : ℕ → ℕ → ℕ) → HasNoAmount shape amount place
        → DiffusesInk (table_of kernel) (plane_with shape amount) place
        side.old bottom.old corner.old side.new bottom.new corner.new dots.new }
{
    if hands_nothing(side, bottom, corner) {
        *dots = [0; 256];
    } else {
        diffuse_pixels(
            kernel, shape, place, &[0; 2048], side, bottom, corner, dots, field,
        );
    }
}
