//! One tile in all its inks.
ghost use Rattle.diffusion_definitions.specs.Diffusion.{EachInRange};
ghost use Rattle.diffusion_kernel.specs.Tables.{table_of};
ghost use Rattle.dot_planes.specs.Gathered.{HasNoAmount, HasNoAmounts, HasPixels, HasTile};
ghost use Rattle.std.specs.Prelude.{MatchOption, [], slice_index_or, ◌<◌, ◌≤◌, ℕ};
ghost use Rattle.tile_border.specs.Given.{IsWorkOf, handed};
ghost use Rattle.tile_border.specs.Works.{HasInks, WorksInk};
ghost use Rattle.tile_lanes.specs.Done.{DiffusesInk, plane_with, window_of};
ghost use Rattle.tile_shape.specs.Geometry.{IsTile};

use crate::edges::{BottomEdge, CornerEdge, RightEdge};
use crate::task::{Done, Task};
use crate::wholes::ink_is_whole;
use diffusion_kernel::Kernel;
use dot_planes::{GatherRoom, TileAmounts, TileBits, TileDots, TileRows};
use tile_lanes::{Field, diffuse_blank, diffuse_tile};
use tile_shape::{Place, Shape};

/// Room for what a tile needs while it is worked. A worker keeps one for all its tiles.
#[derive(Drop)]
pub struct TileRoom {
    gather: GatherRoom,
    amounts: TileAmounts,
    field: Field,
}

impl TileRoom {
    /// Room for any number of tiles, one after another.
    pub fn make() -> TileRoom {
        TileRoom {
            gather: GatherRoom::zero(),
            amounts: TileAmounts::zero(),
            field: Field::make(),
        }
    }
}

/// Diffuses a tile in each ink of the rows, in room of its own. The edges and the dots of the task have as many inks as
/// the rows.
pub fn work<A: TileRows>(task: Task, rows: &A, kernel: Kernel) -> Done
    requires tile { IsTile (window_of (A.table rows.now)) task.place }
    requires inks { HasInks (A.table rows.now).inks (handed task) }
    ensures { IsWorkOf kernel (A.table rows.now) task result }
{
    work_in(task, rows, kernel, &mut TileRoom::make())
}

/// Diffuses a tile as `work` does, in room that the caller lends.
pub fn work_in<A: TileRows>(task: Task, rows: &A, kernel: Kernel, room: &mut TileRoom) -> Done
    requires tile { IsTile (window_of (A.table rows.now)) task.place }
    requires inks { HasInks (A.table rows.now).inks (handed task) }
    ensures { IsWorkOf kernel (A.table rows.now) task result }
{
    if rows.gather(task.place, &mut room.gather, &mut room.amounts) {
        work_inks(task, rows, kernel, Some(&room.amounts), &mut room.field)
    } else {
        work_inks(task, rows, kernel, None, &mut room.field)
    }
}

// Diffuses a tile whose amounts are gathered, or which has none.
fn work_inks<A: TileRows>(
    task: Task,
    rows: &A,
    kernel: Kernel,
    amounts: Option<&TileAmounts>,
    field: &mut Field,
) -> Done
    requires tile { IsTile (window_of (A.table rows.now)) task.place }
    requires gathered { MatchOption amounts (HasNoAmounts (A.table rows.now) task.place)
        (λ a. HasTile (A.table rows.now) task.place a.now.inks) }
    requires few { (A.table rows.now).inks ≤ 4 }
    requires inks { HasInks (A.table rows.now).inks (handed task) }
    ensures { IsWorkOf kernel (A.table rows.now) task result }
{
    let Task {
        place,
        left: mut right,
        above: mut bottom,
        mut corner,
        dots: TileDots { mut bits, .. },
    } = task;
    for ink in 0..rows.inks() {
        work_ink(
            kernel,
            place,
            rows,
            amounts,
            ink,
            &mut right,
            &mut bottom,
            &mut corner,
            &mut bits,
            field,
        );
        ink_is_whole(ink, &right, &bottom, &corner, &bits);
    }
    Done {
        place,
        dots: TileDots { place, bits },
        right,
        bottom,
        corner,
    }
}

// Diffuses one ink of a tile whose amounts are gathered, or which has none: the edges handed in become those handed on,
// and all other inks stay.
fn work_ink<A: TileRows>(
    kernel: Kernel,
    place: Place,
    rows: &A,
    amounts: Option<&TileAmounts>,
    ink: u8,
    side: &mut RightEdge,
    bottom: &mut BottomEdge,
    corner: &mut CornerEdge,
    bits: &mut TileBits,
    field: &mut Field,
)
    requires tile { IsTile (window_of (A.table rows.now)) place }
    requires gathered { MatchOption amounts (HasNoAmounts (A.table rows.now) place)
        (λ a. HasTile (A.table rows.now) place a.now.inks) }
    requires few { (A.table rows.now).inks ≤ 4 }
    requires ink { ink < (A.table rows.now).inks }
    requires inks { HasInks (A.table rows.now).inks
        (record { side = side.old; bottom = bottom.old; corner = corner.old; bits = bits.old }) }
    ensures { WorksInk kernel (A.table rows.now) place ink
        (record { side = side.old; bottom = bottom.old; corner = corner.old; bits = bits.old })
        (record { side = side.new; bottom = bottom.new; corner = corner.new; bits = bits.new }) }
{
    let at = usize::from(ink);
    diffuse_ink(
        kernel,
        rows.shape(),
        place,
        amounts,
        at,
        &mut side.inks[at],
        &mut bottom.inks[at],
        &mut corner.inks[at],
        bits.ink_mut(ink),
        field,
    );
}

// Diffuses one ink of a tile from its gathered amounts, or as a tile that has none.
fn diffuse_ink(
    kernel: Kernel,
    shape: Shape,
    place: Place,
    amounts: Option<&TileAmounts>,
    at: usize,
    side: &mut [i16; 192],
    bottom: &mut [i16; 128],
    corner: &mut [i16; 12],
    dots: &mut [u8; 256],
    field: &mut Field,
)
    requires tile { IsTile shape place }
    requires ink { at < 4 }
    requires side_fits { EachInRange side.old }
    requires bottom_fits { EachInRange bottom.old }
    requires corner_fits { EachInRange corner.old }
    ensures side_fits { EachInRange side.new }
    ensures bottom_fits { EachInRange bottom.new }
    ensures corner_fits { EachInRange corner.new }
    ensures done { (amount : ℕ → ℕ → ℕ) → MatchOption amounts.entry (HasNoAmount shape amount place)
        (λ a. HasPixels shape amount place (slice_index_or a.now.inks at []))
        → DiffusesInk (table_of kernel) (plane_with shape amount) place
        side.old bottom.old corner.old side.new bottom.new corner.new dots.new }
{
    match amounts {
        Some(amounts) => diffuse_tile(
            kernel,
            shape,
            place,
            &amounts.inks[at],
            side,
            bottom,
            corner,
            dots,
            field,
        ),
        None => diffuse_blank(kernel, shape, place, side, bottom, corner, dots, field),
    }
}
