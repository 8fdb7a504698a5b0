//! A tile with its rows in step. A field is groups of 34 errors, one of each row, the two above the tile first. A pixel
//! reads only errors of earlier groups, so the pixels of one group are diffused in one step. If the kernel allows it,
//! all rows are at one offset. Otherwise each row is one offset behind the row above it.

ghost use Rattle.diffusion_definitions.specs.Diffusion.{EachInRange, Errors};
ghost use Rattle.diffusion_kernel.specs.Tables.{table_of};
ghost use Rattle.dot_planes.specs.Gathered.{HasPixels};
ghost use Rattle.std.specs.Prelude.{length, true, ℕ, ◌<◌, ◌≡◌, ◌≤◌};
ghost use Rattle.tile_lanes.specs.Done.{DiffusesInk, plane_with};
ghost use Rattle.tile_lanes.specs.Held.{HeldInRange};
ghost use Rattle.tile_lanes.specs.Lanes.{HasBits, IsCleared, IsFilled, IsWhole, SolvesSteps};
ghost use Rattle.tile_lanes.specs.Paces.{amounts_of, end_of, pace_of};

mod edges;
mod order;
mod pace;
mod packing;
mod step;
mod value;

use diffusion_kernel::Kernel;
use edges::{put_above, put_corner, put_left, take_bottom, take_lower_corner, take_right};
use order::{order_by_steps, steps_of};
use pace::Pace;
use packing::put_words;
use step::{clear_step, diffuse_step};
use tile_shape::{Place, Shape};

// Whether the tile has all its pixels.
fn is_whole(shape: Shape, place: Place) -> bool
    ensures { (amount : ℕ → ℕ → ℕ) → result ≡ true → IsWhole (plane_with shape amount) place.c place.j }
{
    place.c >= 1
        && 64 * place.c as usize + 64 <= shape.width as usize
        && 32 * place.j as usize + 32 <= shape.height as usize
}

// Clears the errors and dots of a step where the window has no pixel. A whole tile has none to clear.
#[inline(always)]
fn clear_missing(
    whole: bool,
    pace: Pace,
    shape: Shape,
    place: Place,
    field: &mut [u16; 3502],
    dots: &mut [u16; 32],
    step: usize,
)
    requires whole { (amount : ℕ → ℕ → ℕ) → whole ≡ true → IsWhole (plane_with shape amount) place.c place.j }
    requires low { 8 ≤ step }
    requires high { step < 103 }
    requires in_range { HeldInRange field.old }
    ensures in_range { HeldInRange field.new }
    ensures cleared { (amount : ℕ → ℕ → ℕ) → IsCleared pace (plane_with shape amount) place.c place.j step
        field.old dots.old field.new dots.new }
{
    if !whole {
        clear_step(pace, shape, place, field, dots, step);
    }
}

// Diffuses the pixels of a tile whose edges are in the field, from its amounts by steps.
#[inline(always)]
fn diffuse_steps(
    kernel: Kernel,
    shape: Shape,
    place: Place,
    amounts: &[u8],
    field: &mut [u16; 3502],
    bits: &mut [u8; 256],
)
    requires amounts { amounts_of (pace_of kernel) ≤ length amounts.now }
    requires field { HeldInRange field.old }
    ensures in_range { HeldInRange field.new }
    ensures filled { (amount : ℕ → ℕ → ℕ) (e : Errors) → SolvesSteps kernel shape place amounts.now amount e
        → IsFilled (pace_of kernel) e place.c place.j 8 field.old
        → IsFilled (pace_of kernel) e place.c place.j (end_of (pace_of kernel)) field.new }
    ensures bits { (amount : ℕ → ℕ → ℕ) (e : Errors) → SolvesSteps kernel shape place amounts.now amount e
        → IsFilled (pace_of kernel) e place.c place.j 8 field.old
        → HasBits kernel (plane_with shape amount) e place.c place.j (end_of (pace_of kernel)) bits.new }
{
    let pace = Pace::of(kernel);
    let whole = is_whole(shape, place);
    let mut dots = [0u16; 32];
    for step in 8..pace.end() {
        diffuse_step(kernel, amounts, field, &mut dots, step);
        clear_missing(whole, pace, shape, place, field, &mut dots, step);
        put_words(pace, bits, step, &dots);
    }
}

/// Diffuses one ink of a tile pixel by pixel, as `diffuse_tile` says. The field may hold any errors, and `ordered` is
/// room for the tile's amounts by steps.
#[inline(always)]
pub(crate) fn diffuse_lanes(
    kernel: Kernel,
    shape: Shape,
    place: Place,
    tile: &[u8; 2048],
    side: &mut [i16; 192],
    bottom: &mut [i16; 128],
    corner: &mut [i16; 12],
    bits: &mut [u8; 256],
    field: &mut [u16; 3502],
    ordered: &mut [u8; 3072],
)
    requires side_fits { EachInRange side.old }
    requires bottom_fits { EachInRange bottom.old }
    requires corner_fits { EachInRange corner.old }
    requires field { HeldInRange field.old }
    ensures side_fits { EachInRange side.new }
    ensures bottom_fits { EachInRange bottom.new }
    ensures corner_fits { EachInRange corner.new }
    ensures field { HeldInRange field.new }
    ensures done { (amount : ℕ → ℕ → ℕ) → HasPixels shape amount place tile.now
        → DiffusesInk (table_of kernel) (plane_with shape amount) place
        side.old bottom.old corner.old side.new bottom.new corner.new bits.new }
{
    let pace = Pace::of(kernel);
    order_by_steps(pace, tile, ordered);
    let amounts = steps_of(pace, tile, ordered);
    put_above(pace, field, bottom);
    put_corner(pace, field, corner);
    put_left(pace, field, side);
    diffuse_steps(kernel, shape, place, amounts, field, bits);
    take_right(pace, field, side);
    take_bottom(pace, field, bottom);
    take_lower_corner(pace, field, corner);
}
