//! The workers of a slab.
ghost use Rattle.diffusion_kernel.specs.Tables.{table_of};
ghost use Rattle.wavefront_team.specs.Dots.{IsSameDots, dots_of};
ghost use Rattle.wavefront_team.specs.SoFar.{dots_in};
ghost use Rattle.wavefront_team.specs.Slabs.{ClosesSlab, DiffusesSlab};
ghost use Rattle.tile_border.specs.Tops.{IsTopOf};
ghost use Rattle.std.specs.Prelude.{IfOk, OnErr, length, ◌+◌, ◌≡◌, ◌≤◌};
ghost use Rattle.tile_board.specs.Board.{slab};
ghost use Rattle.tile_board.specs.Slabs.{shape_of};
ghost use Rattle.tile_shape.specs.Geometry.{IsShape};
ghost use Rattle.wavefront_team.specs.Passes.{HasAll, HasPostedAll, IsFirst, IsRest, IsShareOf, IsWorkerOf, desk};
ghost use Rattle.worker_team.specs.Shares.{AllReady};
ghost use Rattle.tile_board.specs.Board.{IsPassOf};

use crate::laying::lay_tiles;
use crate::share::{Lends, Lent, TileShare};
use crate::so_far::DotsSoFar;
use crate::work::work_rest;
use crate::worker::Worker;
use base_definitions::Memory;
use diffusion_kernel::Kernel;
use dot_planes::{Planes, TileDots, TileRows};
use std::alloc::Global;
use std::thread::Threads;
use tile_board::{Board, Closed, Pass};
use tile_border::TopEdges;
use tile_shape::Shape;
use worker_team::{Gate, Team, run_beside};

/// Diffuses a slab below its top by a team's workers, and puts its dots into the planes from row `at` on. Returns the
/// bottom edges of the slab's last band: the top of the rows below the slab, if its rows are whole bands of 32. Tests
/// show that more than one thread works, and that each tile enters the gate just once.
///
/// On `Memory` the planes are unchanged.
pub fn diffuse<R: Threads + Sync, G: Gate + Sync, A: TileRows + Sync>(
    team: &Team<'_, R, G>,
    alloc: Global,
    rows: &A,
    kernel: Kernel,
    top: TopEdges,
    out: &mut Planes,
    at: u32,
) -> Result<TopEdges, Memory>
    requires top { IsTopOf (A.table rows.now).width (A.table rows.now).inks top }
    requires width { out.old.width ≡ (A.table rows.now).width }
    requires inks { out.old.inks ≡ (A.table rows.now).inks }
    requires at { at + (A.table rows.now).rows ≤ out.old.rows }
    ensures slab { IfOk result (λ bottom. DiffusesSlab (table_of kernel) (A.table rows.now) top bottom at
        (dots_of out.old) (dots_of out.new)) }
    ensures unchanged { OnErr result (out.new ≡ out.old) }
{
    let mut none = || {};
    let spare = Vec::new(alloc);
    let (closed, _) = close_slab(team, alloc, rows, kernel, top, spare, &mut none)?;
    lay_tiles(closed.dots.as_slice(), rows.shape(), out, at);
    Ok(closed.bottom)
}

/// Diffuses a slab as `diffuse` does, and runs the errand once, on the caller's own thread. Returns the bottom edges
/// and the errand's result. When the errand runs, and whether tiles of the slab are left waiting in `out`, is not
/// promised. Contracts see the dots of waiting tiles as dots of the planes.
///
/// On `Memory` the dots are unchanged and the errand is not begun.
pub fn diffuse_beside<R: Threads + Sync, G: Gate + Sync, A: TileRows + Sync, F: FnMut() -> E, E>(
    team: &Team<'_, R, G>,
    alloc: Global,
    rows: &A,
    kernel: Kernel,
    top: TopEdges,
    out: &mut DotsSoFar,
    at: u32,
    errand: &mut F,
) -> Result<(TopEdges, E), Memory>
    requires top { IsTopOf (A.table rows.now).width (A.table rows.now).inks top }
    requires width { out.old.planes.width ≡ (A.table rows.now).width }
    requires inks { out.old.planes.inks ≡ (A.table rows.now).inks }
    requires at { at + (A.table rows.now).rows ≤ out.old.planes.rows }
    requires errand { F.pre errand.old }
    ensures slab { IfOk result (λ answer. DiffusesSlab (table_of kernel) (A.table rows.now) top answer.0 at
        (dots_in out.old) (dots_in out.new)) }
    ensures errand { IfOk result (λ answer. F.step errand.old answer.1 errand.new) }
    ensures unchanged { OnErr result (out.new ≡ out.old) }
    ensures not_begun { OnErr result (errand.new ≡ errand.old) }
{
    let spare = out.take_spare(alloc);
    let mut both = || -> E
        requires { F.pre errand.now }
        ensures { IsSameDots (dots_in out.entry.now) (dots_in out.exit.now) × F.step errand.entry.now result errand.exit.now }
    {
        out.lay();
        errand()
    };
    let (closed, done) = close_slab(team, alloc, rows, kernel, top, spare, &mut both)?;
    out.keep(closed.dots, rows.shape(), at);
    if team.workers == 1 {
        out.lay();
    }
    Ok((closed.bottom, done))
}

// Diffuses a slab by a team, and does the errand beside it. The memory of spare dots is used again.
fn close_slab<R: Threads + Sync, G: Gate + Sync, A: TileRows + Sync, F: FnMut() -> E, E>(
    team: &Team<'_, R, G>,
    alloc: Global,
    rows: &A,
    kernel: Kernel,
    top: TopEdges,
    spare: Vec<TileDots>,
    errand: &mut F,
) -> Result<(Closed, E), Memory>
    requires top { IsTopOf (A.table rows.now).width (A.table rows.now).inks top }
    requires errand { F.pre errand.old }
    ensures slab { IfOk result (λ answer. ClosesSlab (table_of kernel) (A.table rows.now) top answer.0.bottom
        answer.0.dots.items) }
    ensures errand { IfOk result (λ answer. F.step errand.old answer.1 errand.new) }
    ensures not_begun { OnErr result (errand.new ≡ errand.old) }
{
    let (board, mut pass) = Board::make(alloc, rows, kernel, top, spare)?;
    let done = work_tiles(team, alloc, &board, rows.shape(), &mut pass, errand)?;
    Ok((board.close(pass), done))
}

// Works all tiles of a board by a team, and does the errand. One worker's errand comes last, so that it finds the slab
// still in its cache.
fn work_tiles<R: Threads + Sync, G: Gate + Sync, A: TileRows + Sync, F: FnMut() -> E, E>(
    team: &Team<'_, R, G>,
    alloc: Global,
    board: &Board<'_, A>,
    shape: Shape,
    pass: &mut Pass,
    errand: &mut F,
) -> Result<E, Memory>
    requires pass { IsFirst (desk board.now) pass.old }
    requires shape { shape ≡ shape_of (slab board.now) }
    requires sizes { IsShape shape }
    requires errand { F.pre errand.old }
    ensures pass { IfOk result (λ done. IsPassOf board.now pass.new) }
    ensures all { IfOk result (λ done. HasPostedAll (desk board.now) pass.new) }
    ensures errand { IfOk result (λ done. F.step errand.old done errand.new) }
    ensures not_begun { OnErr result (errand.new ≡ errand.old) }
{
    if team.workers == 1 {
        work_rest(board, shape, team.gate, pass);
        return Ok(errand());
    }
    let lent = Lent {
        board,
        shape,
        gate: team.gate,
    };
    let done = work_shares(
        team.threads,
        alloc,
        board,
        shape,
        &lent,
        pass,
        team.workers,
        errand,
    )?;
    work_rest(board, shape, team.gate, pass);
    Ok(done)
}

// Works tiles by as many workers, of which the last is the caller after its errand, and joins their passes to the
// first.
fn work_shares<R: Threads + Sync, L: Lends + Copy + Send, A: TileRows, F: FnMut() -> E, E>(
    threads: &R,
    alloc: Global,
    board: &Board<'_, A>,
    shape: Shape,
    lent: L,
    pass: &mut Pass,
    count: u8,
    errand: &mut F,
) -> Result<E, Memory>
    requires pass { IsFirst (desk board.now) pass.old }
    requires sizes { IsShape shape }
    requires lent { L.desk lent ≡ desk board.now }
    requires count { count ≤ 64 }
    requires errand { F.pre errand.old }
    ensures pass { IfOk result (λ done. HasAll (desk board.now) pass.new) }
    ensures errand { IfOk result (λ done. F.step errand.old done errand.new) }
    ensures not_begun { OnErr result (errand.new ≡ errand.old) }
{
    let mut shares = shares_of(alloc, board, shape, lent, pass, count)?;
    let done = run_shares(threads, board, shares.as_mut_slice(), errand);
    join_all(board, pass, shares);
    Ok(done)
}

// As many shares, each with a pass of one part.
fn shares_of<L: Lends + Copy, A: TileRows>(
    alloc: Global,
    board: &Board<'_, A>,
    shape: Shape,
    lent: L,
    pass: &mut Pass,
    count: u8,
) -> Result<Vec<TileShare<L>>, Memory>
    requires pass { IsFirst (desk board.now) pass.old }
    requires sizes { IsShape shape }
    requires lent { L.desk lent ≡ desk board.now }
    requires count { count ≤ 64 }
    ensures shares { IfOk result
        (λ shares. AllReady (λ share. IsShareOf (desk board.now) (L.desk share.lent) share.worker.pass) shares.items) }
    ensures rest { IfOk result (λ shares. IsRest (desk board.now) (length shares.items) pass.new) }
{
    let mut shares = Vec::with_capacity(alloc, usize::from(count))?;
    for _ in 0..count {
        let worker = Worker::make(alloc, board.split(pass), shape)?;
        shares.push_reserved(TileShare { lent, worker });
    }
    Ok(shares)
}

// Runs each share, the last one after the errand on the caller's own thread.
fn run_shares<R: Threads + Sync, L: Lends + Send, A: TileRows, F: FnMut() -> E, E>(
    threads: &R,
    board: &Board<'_, A>,
    shares: &mut [TileShare<L>],
    errand: &mut F,
) -> E
    requires shares { AllReady (λ share. IsShareOf (desk board.now) (L.desk share.lent) share.worker.pass) shares.old }
    requires errand { F.pre errand.old }
    ensures shares { AllReady (λ share. IsWorkerOf (desk board.now) share.worker.pass) shares.new }
    ensures errand { F.step errand.old result errand.new }
{
    run_beside(threads, shares, errand)
}

// Joins the workers' passes to the first.
fn join_all<L: Drop, A: TileRows>(
    board: &Board<'_, A>,
    pass: &mut Pass,
    mut shares: Vec<TileShare<L>>,
)
    requires pass { IsRest (desk board.now) (length shares.items) pass.old }
    requires shares { AllReady (λ share. IsWorkerOf (desk board.now) share.worker.pass) shares.items }
    ensures { HasAll (desk board.now) pass.new }
{
    while let Some(share) = shares.pop() {
        let TileShare { lent: _, worker } = share;
        let Worker {
            pass: other,
            next_columns: _,
            band: _,
        } = worker;
        board.join(pass, other);
    }
}
