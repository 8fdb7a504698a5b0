//! A board of one tile, opened with ample memory, whose tile is taken.
ghost use Rattle.std.specs.Prelude.{IfOk, ◌≡◌};
ghost use Rattle.board_steps.specs.Rule.{fresh_in};
ghost use Rattle.board_steps.specs.Steps.{fresh_slots};

use crate::checks::same;
use base_definitions::Memory;
use board_steps::{Cell, Slab, look, open, take};
use diffusion_kernel::Kernel;
use dot_planes::{InkRows, Seen, TileBits};
use std::alloc::Global;
use std::snapshot::Snapshot;
use std::test::Fail;
use tile_border::{BottomEdge, CornerEdge, RightEdge, TopEdges};

// The slots of a waiting tile of one ink to which no tile sends an edge: errors 0, and dots with none set.
fn waiting_slots(alloc: Global) -> Result<Vec<Cell>, Memory>
    ensures { IfOk result (λ v. v.items ≡ fresh_slots (fresh_in (record { width = 1; height = 1 }) 1) 1) }
{
    let mut slots = Vec::with_capacity(alloc, 4)?;
    let right = RightEdge::zero(alloc, 1)?;
    let bottom = BottomEdge::zero(alloc, 1)?;
    let corner = CornerEdge::zero(alloc, 1)?;
    let dots = TileBits::make(alloc, 1)?;
    slots.push_reserved(Cell::Right(right));
    slots.push_reserved(Cell::Bottom(bottom));
    slots.push_reserved(Cell::Corner(corner));
    slots.push_reserved(Cell::Dots(dots));
    Ok(slots)
}

// The words of the only tile of a board: before the first pass takes it, and after.
fn words_around_take(alloc: Global) -> Result<(u64, u64), Memory> {
    let rows = InkRows::make(alloc, 1, 1, 1)?;
    let top = TopEdges::zero(alloc, 1, 1)?;
    let slots = waiting_slots(alloc)?;
    let slab = Slab {
        rows: Seen::of(&rows),
        kernel: Kernel::Floyd,
        top: Snapshot::of(&top),
    };
    let opened = open(alloc, &[0], slots, &slab);
    let Slab {
        rows: _,
        kernel: _,
        top: _,
    } = slab;
    let (table, mut seat) = opened?;
    look(&table.shared, &mut seat, 0);
    let before = take(&table.shared, &mut seat, 0);
    Ok((before, look(&table.shared, &mut seat, 0)))
}

#[test]
fn the_only_tile_of_a_new_board_is_ready(rt: HostRuntime) -> Result<(), Fail> {
    let words = words_around_take(rt.alloc())?;
    same(&rt, "its words", &words, &(0, 8));
    Ok(())
}
