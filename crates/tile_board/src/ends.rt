//! How a board is made and closed.
ghost use Rattle.board_steps.specs.Content.{fresh_of};
ghost use Rattle.board_steps.specs.Graph.{only_if};
ghost use Rattle.board_steps.specs.Rule.{first_view, fresh_in, times};
ghost use Rattle.board_steps.specs.Steps.{fresh_slots};
ghost use Rattle.std.specs.Prelude.{IfOk, None, replicate, ℕ, ◌*◌, ◌<◌, ◌^◌, ◌≡◌, ◌≤◌, ◌&&◌};
ghost use Rattle.tile_board.specs.Board.{IsPassOf, holding, slab, view};
ghost use Rattle.tile_board.specs.Closing.{Closes};
ghost use Rattle.tile_board.specs.Slabs.{amounts_of, number_in, shape_of, top_edges};
ghost use Rattle.tile_border.specs.Tops.{IsTopOf};
ghost use Rattle.tile_shape.specs.Geometry.{IsShape, IsTile, bands_of, columns_of};
ghost use Rattle.tile_shape.specs.declared.tiles.Place.{Place};

use crate::emptying::empty_all;
use crate::kinds::{Board, Closed, Pass};
use base_definitions::Memory;
use board_steps::{Cell, Slab, open};
use diffusion_kernel::Kernel;
use dot_planes::{Seen, TileBits, TileDots, TileRows};
use std::alloc::Global;
use std::snapshot::Snapshot;
use tile_border::{BottomEdge, CornerEdge, RightEdge, TopEdges};
use tile_shape::Shape;

impl<'a, A: TileRows> Board<'a, A> {
    /// A board of rows of amounts, which are diffused below `top`, and its first pass, which has 256 parts. The top has
    /// a bottom edge for each column of tiles, in the inks of the rows. The memory of spare dots, of any tiles, is used
    /// again. Fails with `Memory` if there is no room for all that the board ever needs.
    pub fn make(
        alloc: Global,
        rows: &'a A,
        kernel: Kernel,
        top: TopEdges,
        spare: Vec<TileDots>,
    ) -> Result<(Board<'a, A>, Pass), Memory>
        requires { IsTopOf (A.table rows.now).width (A.table rows.now).inks top }
        ensures amounts { IfOk result (λ b. amounts_of (slab b.0) ≡ A.table rows.now) }
        ensures kernel { IfOk result (λ b. (slab b.0).kernel ≡ kernel) }
        ensures top { IfOk result (λ b. top_edges (slab b.0) ≡ top) }
        ensures pass { IfOk result (λ b. IsPassOf b.0 b.1) }
        ensures view { IfOk result (λ b. view b.1 ≡ first_view (slab b.0)) }
        ensures holds { IfOk result (λ b. holding b.1 ≡ None) }
    {
        let tiles = count_tiles(rows.shape());
        let slots = waiting_slots(alloc, rows.shape(), top.at(0).inks(), spare)?;
        let dots = Vec::with_capacity(alloc, tiles)?;
        let words = vec![in alloc; 0u64; tiles]?;
        let slab = Slab {
            rows: Seen::of(rows),
            kernel,
            top: Snapshot::of(&top),
        };
        let opened = open(alloc, words.as_slice(), slots, &slab);
        let Slab {
            rows: _,
            kernel: _,
            top: _,
        } = slab;
        let (table, seat) = opened?;
        let board = Board {
            rows,
            kernel,
            top,
            table,
            dots,
        };
        let pass = Pass {
            seat,
            held: None,
            parts: 256,
        };
        Ok((board, pass))
    }

    /// The dots of all tiles, by band and then column, and the top of the rows below. `p` must have posted every tile.
    pub fn close(self, p: Pass) -> Closed
        requires pass { IsPassOf self p }
        requires all { (t : Place) → IsTile (shape_of (slab self)) t
            → 1 ≤ times (number_in (slab self) t) (view p).mine }
        ensures once { (t : Place) → IsTile (shape_of (slab self.entry)) t
            → times (number_in (slab self.entry) t) (view p).mine ≡ 1 }
        ensures closes { Closes (slab self.entry) result }
    {
        let shape = self.rows.shape();
        let Board {
            rows: _,
            kernel: _,
            top: bottom,
            table,
            dots,
        } = self;
        let Pass {
            seat,
            held: _,
            parts: _,
        } = p;
        empty_all(
            board_steps::close(table, seat),
            shape,
            Closed { dots, bottom },
        )
    }
}

// The number of tiles of a window.
fn count_tiles(shape: Shape) -> usize
    requires { IsShape shape }
    ensures is { result ≡ bands_of shape * columns_of shape }
    ensures few { result < 2 ^ 32 }
{
    shape.bands() as usize * shape.columns() as usize
}

// The slots of all tiles of a window, by number, while they wait.
fn waiting_slots(
    alloc: Global,
    shape: Shape,
    inks: u8,
    mut spare: Vec<TileDots>,
) -> Result<Vec<Cell>, Memory>
    requires shape { IsShape shape }
    requires some { 1 ≤ inks }
    requires most { inks ≤ 4 }
    ensures { IfOk result (λ v.
        v.items ≡ fresh_slots (fresh_in shape inks) (bands_of shape * columns_of shape)) }
{
    let tiles = count_tiles(shape);
    let columns = shape.columns() as usize;
    let mut slots = Vec::with_capacity(alloc, 4 * tiles)?;
    for n in 0..tiles {
        let (c, j) = (n % columns, n / columns);
        let right = right_slot(alloc, 0 < c, inks)?;
        let bottom = bottom_slot(alloc, c + 1 < columns, 0 < j, inks)?;
        let corner = corner_slot(alloc, 0 < j, inks)?;
        let dots = blank_dots(alloc, inks, &mut spare)?;
        slots.push_reserved(right);
        slots.push_reserved(bottom);
        slots.push_reserved(corner);
        slots.push_reserved(Cell::Dots(dots));
    }
    Ok(slots)
}

// The dots of a waiting tile, all off: spare ones, where these have its inks, and else new ones.
fn blank_dots(alloc: Global, inks: u8, spare: &mut Vec<TileDots>) -> Result<TileBits, Memory>
    requires some { 1 ≤ inks }
    requires most { inks ≤ 4 }
    ensures bytes { IfOk result (λ bits. bits ≡ replicate inks (replicate 256 0)) }
{
    if let Some(TileDots { mut bits, .. }) = spare.pop()
        && bits.inks() == inks
    {
        bits.clear();
        return Ok(bits);
    }
    TileBits::make(alloc, inks)
}

// The slot for the right edge of a waiting tile: empty where a tile at its left will send it one, and else errors 0.
fn right_slot(alloc: Global, comes: bool, inks: u8) -> Result<Cell, Memory>
    requires some { 1 ≤ inks }
    requires most { inks ≤ 4 }
    ensures { IfOk result (λ cell. (from : ℕ) → cell ≡ fresh_of inks 0 (only_if comes from)) }
{
    if comes {
        return Ok(Cell::Empty);
    }
    Ok(Cell::Right(RightEdge::zero(alloc, inks)?))
}

// The slot for its bottom edge: empty where the tile above and one column to the right will send it one.
fn bottom_slot(alloc: Global, right: bool, above: bool, inks: u8) -> Result<Cell, Memory>
    requires some { 1 ≤ inks }
    requires most { inks ≤ 4 }
    ensures { IfOk result (λ cell. (from : ℕ) → cell ≡ fresh_of inks 1 (only_if (right && above) from)) }
{
    if right && above {
        return Ok(Cell::Empty);
    }
    Ok(Cell::Bottom(BottomEdge::zero(alloc, inks)?))
}

// The slot for its corner edge: empty where the tile above will send it one.
fn corner_slot(alloc: Global, comes: bool, inks: u8) -> Result<Cell, Memory>
    requires some { 1 ≤ inks }
    requires most { inks ≤ 4 }
    ensures { IfOk result (λ cell. (from : ℕ) → cell ≡ fresh_of inks 2 (only_if comes from)) }
{
    if comes {
        return Ok(Cell::Empty);
    }
    Ok(Cell::Corner(CornerEdge::zero(alloc, inks)?))
}
