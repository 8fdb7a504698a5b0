//! Two passes at one board, in turn and in two threads.
ghost use Rattle.std.specs.Prelude.{IfSome, IsTrue, None, ◌≡◌, ◌≤◌, ℕ};
ghost use Rattle.board_steps.specs.Rule.{times};
ghost use Rattle.tile_board.specs.Board.{IsPassOf, slab, view};
ghost use Rattle.tile_board.specs.Slabs.{number_in, shape_of};
ghost use Rattle.diffusion_tests.specs.Workers.{AllIdle, IsIdle};
ghost use Rattle.tile_shape.specs.Geometry.{IsShape, IsTile};
ghost use Rattle.tile_shape.specs.declared.tiles.Place.{Place};

mod fixture;

use crate::checks::same;
use crate::fills::amounts;
use crate::windows::joined_rows;
use diffusion_kernel::Kernel;
use dot_planes::{InkRows, Planes};
use slab_fixtures::{LEVEL_SLAB, Measure, known_rows, measured};
use std::alloc::Global;
use std::thread::{Threads, for_each_mut};
use tile_board::{Board, Claim, Closed, Pass};
use tile_border::TopEdges;
use tile_shape::{Place, Shape};

// Claims a tile, and works and posts it if it is handed out. Whether a pass that is alone has posted it then.
fn has_posted(board: &Board<'_, InkRows>, p: &mut Pass, t: Place) -> bool
    requires tile { IsTile (shape_of (slab board.now)) t }
    requires pass { IsPassOf board.now p.old }
    requires idle { (view p.old).held ≡ None }
    ensures pass { IsPassOf board.now p.new }
    ensures idle { (view p.new).held ≡ None }
    ensures parts { (view p.new).parts ≡ (view p.old).parts }
    ensures more { (n : ℕ) → times n (view p.old).mine ≤ times n (view p.new).mine }
    ensures posted { IsTrue result → (view p.old).parts ≡ 256
        → 1 ≤ times (number_in (slab board.now) t) (view p.new).mine }
{
    match board.claim(p, t) {
        Claim::Got(task) => {
            let done = board.work(task);
            board.post(p, done);
            true
        }
        Claim::NotReady { .. } => false,
        Claim::Gone { .. } => true,
    }
}

// Tries all tiles in turn, again and again.
fn work(board: &Board<'_, InkRows>, shape: Shape, p: &mut Pass)
    requires shape { shape ≡ shape_of (slab board.now) }
    requires sizes { IsShape shape }
    requires pass { IsIdle board.now p.old }
    ensures { IsIdle board.now p.new }
{
    let columns = shape.columns();
    for n in 0..5000 {
        let t = Place {
            c: n % columns,
            j: n / columns % shape.bands(),
        };
        has_posted(board, p, t);
    }
}

// Works the tiles that are left, by number, with a pass that is alone. Whether it has posted all tiles then.
fn finish(board: &Board<'_, InkRows>, shape: Shape, p: &mut Pass) -> bool
    requires shape { shape ≡ shape_of (slab board.now) }
    requires sizes { IsShape shape }
    requires pass { IsIdle board.now p.old }
    ensures pass { IsIdle board.now p.new }
    ensures all { IsTrue result → (t : Place) → IsTile (shape_of (slab board.now)) t
        → 1 ≤ times (number_in (slab board.now) t) (view p.new).mine }
{
    if p.parts() != 256 {
        return false;
    }
    let columns = shape.columns();
    for n in 0..shape.bands() * columns {
        let t = Place {
            c: n % columns,
            j: n / columns,
        };
        if !has_posted(board, p, t) {
            return false;
        }
    }
    true
}

// Cuts two passes off the first.
fn two_passes(alloc: Global, board: &Board<'_, InkRows>, p: &mut Pass) -> Option<Vec<Pass>>
    requires pass { IsIdle board.now p.old }
    requires first { (view p.old).number ≡ 0 }
    requires parts { 3 ≤ (view p.old).parts }
    ensures pass { IsIdle board.now p.new }
    ensures passes { IfSome result (λ v. AllIdle board.now v.items) }
{
    let Ok(mut passes) = Vec::with_capacity(alloc, 2) else {
        return None;
    };
    passes.push_reserved(board.split(p));
    passes.push_reserved(board.split(p));
    Some(passes)
}

// Works the board with all passes, each in a thread of its own where one can be started.
fn work_together<R: Threads + Sync>(
    rt: &R,
    board: &Board<'_, InkRows>,
    shape: Shape,
    passes: &mut [Pass],
)
    requires shape { shape ≡ shape_of (slab board.now) }
    requires sizes { IsShape shape }
    requires passes { AllIdle board.now passes.old }
    ensures { AllIdle board.now passes.new }
{
    if passes.is_empty() {
        return;
    }
    let threads = passes.len();
    for_each_mut(
        rt,
        passes,
        threads,
        &|_: usize, p: &mut Pass|
            requires { IsIdle board.now p.old × (shape ≡ shape_of (slab board.now)) × IsShape shape }
            ensures { IsIdle board.entry.now p.new }
        { work(board, shape, p) },
    );
}

// Joins the passes to the first.
fn join_all(board: &Board<'_, InkRows>, p: &mut Pass, mut passes: Vec<Pass>)
    requires pass { IsIdle board.now p.old }
    requires passes { AllIdle board.now passes.items }
    ensures { IsIdle board.now p.new }
{
    while let Some(q) = passes.pop() {
        board.join(p, q);
    }
}

// Works the tiles in order, the two passes in turn.
fn work_in_turn(board: &Board<'_, InkRows>, shape: Shape, p: &mut Pass, q: &mut Pass)
    requires shape { shape ≡ shape_of (slab board.now) }
    requires sizes { IsShape shape }
    requires passes { IsIdle board.now p.old × IsIdle board.now q.old }
    ensures { IsIdle board.now p.new × IsIdle board.now q.new }
{
    let columns = shape.columns();
    for n in 0..shape.bands() * columns {
        let t = Place {
            c: n % columns,
            j: n / columns,
        };
        if n % 2 == 0 {
            has_posted(board, p, t);
        } else {
            has_posted(board, q, t);
        }
    }
}

// Diffuses level rows, 200 columns and 70 rows of amount 100 in one ink, below a top of errors 0, by two threads or by
// two passes in turn.
fn diffuse<R: Threads + Sync>(rt: &R, alloc: Global, with_threads: bool) -> Option<Closed> {
    let rows = amounts(alloc, Some(100), 200, 1, 0, 70)?;
    let Ok(top) = TopEdges::zero(alloc, rows.shape().columns(), 1) else {
        return None;
    };
    let Ok((board, mut p)) = Board::make(alloc, &rows, Kernel::Floyd, top, Vec::new(alloc)) else {
        return None;
    };
    let shape = rows.shape();
    if with_threads {
        let mut passes = two_passes(alloc, &board, &mut p)?;
        work_together(rt, &board, shape, passes.as_mut_slice());
        join_all(&board, &mut p, passes);
    } else {
        let mut q = board.split(&mut p);
        work_in_turn(&board, shape, &mut p, &mut q);
        board.join(&mut p, q);
    }
    if finish(&board, shape, &mut p) {
        Some(board.close(p))
    } else {
        None
    }
}

// Diffuses the level rows by two passes, of which the first joins the other while it holds a tile.
fn diffuse_joining(alloc: Global) -> Option<Closed> {
    let rows = amounts(alloc, Some(100), 200, 1, 0, 70)?;
    let Ok(top) = TopEdges::zero(alloc, rows.shape().columns(), 1) else {
        return None;
    };
    let Ok((board, mut p)) = Board::make(alloc, &rows, Kernel::Floyd, top, Vec::new(alloc)) else {
        return None;
    };
    let mut q = board.split(&mut p);
    has_posted(&board, &mut p, Place { c: 0, j: 0 });
    has_posted(&board, &mut q, Place { c: 1, j: 0 });
    let Claim::Got(task) = board.claim(&mut p, Place { c: 0, j: 1 }) else {
        return None;
    };
    board.join(&mut p, q);
    let done = board.work(task);
    board.post(&mut p, done);
    if finish(&board, rows.shape(), &mut p) {
        Some(board.close(p))
    } else {
        None
    }
}

// The number of tiles, the measure of their rows, how many of these are known rows, and the number of dots.
type Shown = (usize, Measure, usize, u64);

// What the known dots show.
const KNOWN: Option<Shown> = Some((15, LEVEL_SLAB, 5, LEVEL_SLAB.1));

// What the tiles of the level rows show, laid into planes.
fn shown(alloc: Global, closed: Option<Closed>) -> Option<Shown> {
    let tiles = closed?.dots;
    let Ok(mut planes) = Planes::make(alloc, 200, 70, 1) else {
        return None;
    };
    for tile in tiles.as_slice() {
        if tile.place.c < 5 && tile.place.j < 3 {
            planes.put_tile(0, 70, tile);
        }
    }
    let rows = joined_rows(alloc, &planes, 0, 70)?;
    let (measure, known) = (measured(rows.as_slice()), known_rows(rows.as_slice()));
    Some((tiles.len(), measure, known, planes.count(0)))
}

#[test]
fn two_passes_give_the_known_dots(rt: HostRuntime) {
    let in_turn = shown(rt.alloc(), diffuse(&rt, rt.alloc(), false));
    same(&rt, "two passes in turn", &in_turn, &KNOWN);
    let in_threads = shown(rt.alloc(), diffuse(&rt, rt.alloc(), true));
    same(&rt, "two threads", &in_threads, &KNOWN);
    let joining = shown(rt.alloc(), diffuse_joining(rt.alloc()));
    same(
        &rt,
        "a pass that joins while it holds a tile",
        &joining,
        &KNOWN,
    );
}
