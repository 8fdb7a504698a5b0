//! A slab as wide as A4 at 360 dots an inch, diffused again and again.
ghost use Rattle.tile_border.specs.Tops.{IsTopOf};
ghost use Rattle.std.specs.Prelude.{IfSome};

use diffusion_kernel::Kernel;
use dot_planes::{InkRows, Planes};
use plain_diffusion::{Above, Amounts, Definition};
use std::alloc::Global;
use std::thread::Threads;
use std::time::Instant;
use tile_border::TopEdges;
use wavefront_team::diffuse;
use worker_team::{OpenGate, Team};

// The columns of A4 at 360 dots an inch.
const WIDTH: u32 = 2976;

// The rows of a slab.
const ROWS: u32 = 256;

// How often the slab is diffused; the least time counts.
const RUNS: u32 = 20;

/// The fewest nanoseconds that a slab of this many inks took these workers. `None` if there is no memory for the slab,
/// or no clock.
pub fn time_slab<R: Threads + Sync>(
    rt: &HostRuntime,
    threads: &R,
    kernel: Kernel,
    inks: u8,
    workers: u8,
) -> Option<u128> {
    let team = Team {
        threads,
        workers: workers.clamp(1, 64),
        gate: &OpenGate,
    };
    let rows = amounts(rt.alloc(), inks)?;
    let mut planes = Planes::make(rt.alloc(), WIDTH, ROWS, rows.inks()).ok()?;
    let mut least = u128::MAX;
    for _ in 0..RUNS {
        let start = Instant::now(rt).ok()?;
        diffuse_once(&team, rt.alloc(), &rows, kernel, &mut planes)?;
        least = least.min(start.elapsed(rt).ok()?.as_nanos());
    }
    Some(least)
}

/// The fewest nanoseconds that a slab of this many inks took the plain program, which is proved against the definition
/// as the workers are.
pub fn time_plainly(rt: &HostRuntime, kernel: Kernel, inks: u8) -> Option<u128> {
    let mut least = u128::MAX;
    for _ in 0..RUNS {
        let start = Instant::now(rt).ok()?;
        diffuse_plainly(rt.alloc(), kernel, inks)?;
        least = least.min(start.elapsed(rt).ok()?.as_nanos());
    }
    Some(least)
}

// Diffuses pseudo-random amounts of each ink pixel by pixel.
fn diffuse_plainly(alloc: Global, kernel: Kernel, inks: u8) -> Option<()> {
    for ink in 0..inks {
        Definition::make(
            alloc,
            kernel,
            Amounts::Mixed(ink),
            Above::Edges(0),
            WIDTH,
            ROWS,
        )?;
    }
    Some(())
}

// Pseudo-random amounts.
fn amounts(alloc: Global, inks: u8) -> Option<InkRows> {
    let mut rows = InkRows::make(alloc, WIDTH, ROWS, inks.clamp(1, 4)).ok()?;
    let mut seed = 1u32;
    for ink in 0..rows.inks() {
        for y in 0..rows.rows() {
            seed = fill(&mut rows, ink, y, seed);
        }
    }
    Some(rows)
}

// Fills a row from a seed, and answers the next seed.
fn fill(rows: &mut InkRows, ink: u8, y: u32, first: u32) -> u32 {
    let mut seed = first;
    for x in 0..WIDTH {
        seed = seed.wrapping_mul(1_664_525).wrapping_add(1_013_904_223);
        if ink < rows.inks() && y < rows.rows() && x < rows.width() {
            rows.set(ink, x, y, (seed >> 24) as u8);
        }
    }
    seed
}

// A top of errors 0, above rows of this width.
fn no_errors(alloc: Global, width: u32, inks: u8) -> Option<TopEdges>
    ensures { IfSome result (IsTopOf width inks) }
{
    if width > WIDTH || inks < 1 || inks > 4 {
        return None;
    }
    TopEdges::zero(alloc, (width + 62).div_ceil(64), inks).ok()
}

// Diffuses the slab.
fn diffuse_once<R: Threads + Sync>(
    team: &Team<'_, R, OpenGate>,
    alloc: Global,
    rows: &InkRows,
    kernel: Kernel,
    planes: &mut Planes,
) -> Option<()> {
    if rows.width() != planes.width()
        || rows.inks() != planes.inks()
        || rows.rows() > planes.rows()
    {
        return None;
    }
    let top = no_errors(alloc, rows.width(), rows.inks())?;
    diffuse(team, alloc, rows, kernel, top, planes, 0).ok()?;
    Some(())
}
