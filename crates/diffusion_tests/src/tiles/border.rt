//! Tiles of two inks worked one by one.
ghost use Rattle.diffusion_definitions.specs.Diffusion.{InRange};
ghost use Rattle.std.specs.Prelude.{IfOk, ◌<◌, ◌≡◌};
ghost use Rattle.tile_border.specs.Works.{HasInks};

use crate::checks::same;
use base_definitions::Memory;
use diffusion_kernel::Kernel;
use dot_planes::{InkRows, TileBits, TileDots};
use std::alloc::Global;
use std::test::Fail;
use tile_border::{BottomEdge, CornerEdge, Done, RightEdge, Task, TopEdges, work};
use tile_shape::Place;

// A tile of two inks, handed errors 0.
fn zero_task(alloc: Global, place: Place) -> Result<Task, Memory>
    ensures place { IfOk result (λ t. t.place ≡ place) }
    ensures inks { IfOk result (λ t. HasInks 2
        (record { side = t.left; bottom = t.above; corner = t.corner; bits = t.dots.bits })) }
{
    let left = RightEdge::zero(alloc, 2)?;
    let above = BottomEdge::zero(alloc, 2)?;
    let corner = CornerEdge::zero(alloc, 2)?;
    let bits = TileBits::make(alloc, 2)?;
    Ok(Task {
        place,
        left,
        above,
        corner,
        dots: TileDots { place, bits },
    })
}

// Gives an ink one error everywhere in what a tile is handed.
fn hand(task: &mut Task, ink: u8, error: i16)
    requires inks { HasInks 2
        (record { side = task.old.left; bottom = task.old.above; corner = task.old.corner; bits = task.old.dots.bits }) }
    requires ink { ink < 2 }
    requires error { InRange error }
    ensures place { task.new.place ≡ task.old.place }
    ensures inks { HasInks 2
        (record { side = task.new.left; bottom = task.new.above; corner = task.new.corner; bits = task.new.dots.bits }) }
{
    task.left.put(ink, &[error; 192]);
    task.above.put(ink, &[error; 128]);
    task.corner.put(ink, &[error; 12]);
}

// 200 columns and 70 rows, of which the first ink has amounts 0 and the second 255.
fn light_and_dark(alloc: Global) -> Result<InkRows, Memory>
    ensures width { IfOk result (λ t. t.width ≡ 200) }
    ensures rows { IfOk result (λ t. t.rows ≡ 70) }
    ensures inks { IfOk result (λ t. t.inks ≡ 2) }
{
    let mut rows = InkRows::make(alloc, 200, 70, 2)?;
    for y in 0..70 {
        rows.put_part(1, 0, y, &[255; 200]);
    }
    Ok(rows)
}

// Whether an ink has one error in all that a tile hands on, and one byte in all its dots.
fn gives(done: &Done, ink: u8, error: i16, dots: u8) -> bool
    requires inks { HasInks 2
        (record {
          side = done.now.right;
          bottom = done.now.bottom;
          corner = done.now.corner;
          bits = done.now.dots.bits;
        }) }
    requires ink { ink < 2 }
{
    *done.right.ink(ink) == [error; 192]
        && *done.bottom.ink(ink) == [error; 128]
        && *done.corner.ink(ink) == [error; 12]
        && *done.dots.bits.ink(ink) == [dots; 256]
}

// Works a tile within a light and a dark ink, handed the greatest error in the one and the least in the other.
fn work_extremes(alloc: Global, place: Place, kernel: Kernel) -> Result<Done, Memory>
    requires column { place.c < 5 }
    requires band { place.j < 3 }
    ensures inks { IfOk result (λ d. HasInks 2
        (record { side = d.right; bottom = d.bottom; corner = d.corner; bits = d.dots.bits })) }
{
    let rows = light_and_dark(alloc)?;
    let mut task = zero_task(alloc, place)?;
    hand(&mut task, 0, 2039);
    hand(&mut task, 1, -2040);
    Ok(work(task, &rows, kernel))
}

// The shares of a kernel add up to its divisor, so where each error near a pixel is the same its value is that error
// and 16 times its amount: 2039 is just too little for a dot, and 4080 - 2040 is just enough.
#[test]
fn the_greatest_and_the_least_error_stay_as_they_are(rt: HostRuntime) -> Result<(), Fail> {
    let place = Place { c: 1, j: 1 };
    for kernel in [Kernel::Floyd, Kernel::Jarvis, Kernel::Stucki] {
        let done = work_extremes(rt.alloc(), place, kernel)?;
        let places = (done.place, done.dots.place);
        same(&rt, "the places", &places, &(place, place));
        let is_kept = gives(&done, 0, 2039, 0) && gives(&done, 1, -2040, 255);
        assert!(rt; is_kept, "other errors at {kernel:?}");
    }
    Ok(())
}

// Works the tile of a window of one pixel, whose amounts are 127 and 128.
fn work_one_pixel(alloc: Global) -> Result<Done, Memory>
    ensures inks { IfOk result (λ d. HasInks 2
        (record { side = d.right; bottom = d.bottom; corner = d.corner; bits = d.dots.bits })) }
{
    let mut rows = InkRows::make(alloc, 1, 1, 2)?;
    rows.set(0, 0, 0, 127);
    rows.set(1, 0, 0, 128);
    let task = zero_task(alloc, Place { c: 0, j: 0 })?;
    Ok(work(task, &rows, Kernel::Floyd))
}

#[test]
fn a_window_of_one_pixel_has_a_dot_from_128_on(rt: HostRuntime) -> Result<(), Fail> {
    let done = work_one_pixel(rt.alloc())?;
    let is_light = gives(&done, 0, 0, 0);
    let is_dark = *done.right.ink(1) == [0; 192] && *done.bottom.ink(1) == [0; 128];
    let mut dots = [0; 256];
    dots[0] = 0x80;
    let found = (is_light, is_dark, *done.dots.bits.ink(1));
    same(
        &rt,
        "the errors and the dots of 128",
        &found,
        &(true, true, dots),
    );
    Ok(())
}

const ENDS: [i16; 12] = [5, 0, 0, 0, 0, 0, 0, 0, 0, 0, 0, -7];

#[test]
fn top_edges_are_put_by_column(rt: HostRuntime) -> Result<(), Fail> {
    let mut top = TopEdges::zero(rt.alloc(), 3, 2)?;
    let mut edge = BottomEdge::zero(rt.alloc(), 2)?;
    let mut errors = [0; 128];
    errors[58] = 5;
    errors[127] = -7;
    edge.put(1, &errors);
    let (inks, ends) = (edge.inks(), edge.ends(1));
    top.put(1, edge);
    let is_kept = *top.at(0).ink(1) == [0; 128]
        && *top.at(2).ink(1) == [0; 128]
        && *top.at(1).ink(0) == [0; 128];
    let found = (inks, ends, is_kept, top.at(1).ink(1)[127]);
    same(&rt, "an edge, and the top", &found, &(2, ENDS, true, -7));
    Ok(())
}
