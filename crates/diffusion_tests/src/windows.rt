//! Windows that a team diffuses slab by slab, compared with the plain program.
ghost use Rattle.diffusion_definitions.specs.Diffusion.{InRange};
ghost use Rattle.dot_planes.specs.Tables.{HasSizeOf};
ghost use Rattle.std.specs.Prelude.{IfSome, length, ◌≡◌};
ghost use Rattle.tile_border.specs.Tops.{IsTopOf};

use crate::fills::{amounts, fill_of};
use crate::gates::{CountingGate, WatchedRows};
use diffusion_kernel::Kernel;
use dot_planes::Planes;
use plain_diffusion::{Above, Definition};
use slab_fixtures::{Measure, known_rows, measured};
use std::alloc::Global;
use std::process::Abort;
use std::sync::atomic::{AtomicU64, Ordering};
use std::thread::Threads;
use tile_border::{BottomEdge, TopEdges};
use wavefront_team::{DotsSoFar, diffuse, diffuse_beside};
use worker_team::{Gate, OpenGate, Team};

// Rows of the planes above the window.
const ABOVE: u32 = 3;

// Rows of the planes below the window.
const BELOW: u32 = 2;

/// A window of one amount, or of pseudo-random amounts, below errors that are all the same, and how many rows its slabs
/// have.
#[derive(Clone, Copy, Debug)]
pub(crate) struct Case {
    pub(crate) kernel: Kernel,
    pub(crate) all: Option<u8>,
    pub(crate) error: i16,
    pub(crate) width: u32,
    pub(crate) inks: u8,
    pub(crate) slabs: &'static [u32],
}

impl Case {
    /// A window of pseudo-random amounts below errors of 0.
    pub(crate) fn mixed(kernel: Kernel, width: u32, inks: u8, slabs: &'static [u32]) -> Case {
        Case {
            kernel,
            all: None,
            error: 0,
            width,
            inks,
            slabs,
        }
    }

    fn height(&self) -> u32 {
        let mut height = 0u32;
        for rows in self.slabs {
            height = height.saturating_add(*rows);
        }
        height
    }
}

// Whether a dot stands at a place before the window is diffused.
fn was_on(x: u32, y: u32) -> bool {
    x.wrapping_add(y) % 3 == 0
}

// Planes with some dots.
fn spotted(alloc: Global, width: u32, height: u32, inks: u8) -> Option<Planes>
    ensures width { IfSome result (λ planes. planes.width ≡ width) }
    ensures inks { IfSome result (λ planes. planes.inks ≡ inks) }
{
    if width < 1 || width > 200 || height > 300 || inks < 1 || inks > 4 {
        return None;
    }
    let mut planes = Planes::make(alloc, width, ABOVE + height + BELOW, inks).ok()?;
    for i in 0..inks {
        for y in 0..ABOVE + height + BELOW {
            spot_row(&mut planes, i, y);
        }
    }
    Some(planes)
}

fn spot_row(planes: &mut Planes, i: u8, y: u32)
    ensures width { planes.new.width ≡ planes.old.width }
    ensures inks { planes.new.inks ≡ planes.old.inks }
{
    for x in 0..planes.width() {
        if was_on(x, y) && i < planes.inks() && y < planes.rows() && x < planes.width() {
            planes.turn_on(i, x, y);
        }
    }
}

// A bottom edge of one error in every ink.
fn edge_of(alloc: Global, inks: u8, error: i16) -> Option<BottomEdge>
    requires { InRange error }
    ensures { IfSome result (λ edge. length edge ≡ inks) }
{
    if inks < 1 || inks > 4 {
        return None;
    }
    let mut edge = BottomEdge::zero(alloc, inks).ok()?;
    for ink in 0..inks {
        edge.put(ink, &[error; 128]);
    }
    Some(edge)
}

/// A top of one error everywhere.
pub(crate) fn top_of(alloc: Global, width: u32, inks: u8, error: i16) -> Option<TopEdges>
    ensures { IfSome result (IsTopOf width inks) }
{
    if width > 200 || inks < 1 || inks > 4 || error < -2040 || error > 2039 {
        return None;
    }
    let mut top = TopEdges::zero(alloc, (width + 62).div_ceil(64), inks).ok()?;
    for c in 0..(width + 62).div_ceil(64) {
        top.put(c, edge_of(alloc, inks, error)?);
    }
    Some(top)
}

// A team of this many workers, or of the nearest number that it may have.
fn team_of<'a, R, G>(threads: &'a R, workers: u8, gate: &'a G) -> Team<'a, R, G> {
    Team {
        threads,
        workers: workers.clamp(1, 64),
        gate,
    }
}

// Diffuses rows of the window from row `first` on, and gives the top of the rows below them.
fn next_slab<R: Threads + Sync, G: Gate + Sync>(
    team: &Team<'_, R, G>,
    alloc: Global,
    case: &Case,
    top: TopEdges,
    first: u32,
    height: u32,
    planes: &mut Planes,
) -> Option<TopEdges>
    requires { IsTopOf planes.old.width planes.old.inks top }
    ensures width { planes.new.width ≡ planes.old.width }
    ensures inks { planes.new.inks ≡ planes.old.inks }
    ensures top { IfSome result (IsTopOf planes.old.width planes.old.inks) }
{
    if first > 300 || height > 300 || first + ABOVE + height > planes.rows() {
        return None;
    }
    let rows = amounts(
        alloc,
        case.all,
        planes.width(),
        planes.inks(),
        first,
        height,
    )?;
    diffuse(team, alloc, &rows, case.kernel, top, planes, first + ABOVE).ok()
}

// Diffuses the slabs of a window one below another, and gives the top of the rows below them.
fn diffuse_slabs<R: Threads + Sync, G: Gate + Sync>(
    team: &Team<'_, R, G>,
    alloc: Global,
    case: &Case,
    top: TopEdges,
    planes: &mut Planes,
) -> Option<TopEdges>
    requires { IsTopOf planes.old.width planes.old.inks top }
    ensures { IfSome result (IsTopOf planes.old.width planes.old.inks) }
{
    let mut top = top;
    let mut first = 0u32;
    'slabs: for rows in case.slabs {
        top = next_slab(team, alloc, case, top, first, *rows, planes)?;
        first = first.wrapping_add(*rows);
    }
    Some(top)
}

// How many dots of an ink are not the plain program's, or are changed outside the window.
fn wrong_dots(planes: &Planes, known: &Definition, i: u8, height: u32) -> u32 {
    let mut wrong = 0u32;
    for y in 0..planes.rows() {
        for x in 0..planes.width() {
            let wanted = if ABOVE <= y && y < height.wrapping_add(ABOVE) {
                known.dot(i64::from(x), i64::from(y - ABOVE))
            } else {
                was_on(x, y)
            };
            let there = i < planes.inks()
                && y < planes.rows()
                && x < planes.width()
                && planes.dot(i, x, y) == wanted;
            if !there {
                wrong = wrong.wrapping_add(1);
            }
        }
    }
    wrong
}

// How many errors of an ink's bottom edges are not the plain program's, below a window of this number of bands.
fn wrong_errors(bottom: &TopEdges, known: &Definition, case: &Case, i: u8, bands: u32) -> u32
    requires { IsTopOf case.now.width case.now.inks bottom.now }
{
    if case.width > 200 || i >= case.inks {
        return 1;
    }
    let mut wrong = 0u32;
    for c in 0..(case.width + 62).div_ceil(64) {
        for n in 0..128 {
            // two rows of 64, of which the first begins 60 pixels left of the column, and the second 62
            let (row, offset) = ((n / 64) as i64, (n % 64) as i64);
            let x = i64::from(c).wrapping_mul(64) + offset - 60 - 2 * row;
            let y = i64::from(bands).wrapping_mul(32) + row - 2;
            if i32::from(bottom.at(c).ink(i)[n]) != known.error(x, y) {
                wrong = wrong.wrapping_add(1);
            }
        }
    }
    wrong
}

// How many dots and bottom errors are not the plain program's.
fn wrong_of(alloc: Global, case: &Case, planes: &Planes, bottom: &TopEdges) -> Option<u32>
    requires { IsTopOf case.now.width case.now.inks bottom.now }
{
    let height = case.height();
    let mut wrong = 0u32;
    for i in 0..case.inks {
        let (fill, above) = (fill_of(case.all, i), Above::Edges(case.error));
        let known = Definition::make(alloc, case.kernel, fill, above, case.width, height)?;
        let errors = wrong_errors(bottom, &known, case, i, height.div_ceil(32));
        wrong = wrong.wrapping_add(errors);
        wrong = wrong.wrapping_add(wrong_dots(planes, &known, i, height));
    }
    Some(wrong)
}

// How many dots and bottom errors of a window are wrong.
fn wrong_in<R: Threads + Sync, G: Gate + Sync>(
    team: &Team<'_, R, G>,
    alloc: Global,
    case: &Case,
) -> Option<u32> {
    let mut planes = spotted(alloc, case.width, case.height(), case.inks)?;
    let top = top_of(alloc, case.width, case.inks, case.error)?;
    let bottom = diffuse_slabs(team, alloc, case, top, &mut planes)?;
    wrong_of(alloc, case, &planes, &bottom)
}

// Diffuses rows of the window from row `first` on, whose dots may wait, while the caller has an errand, and gives the
// top of the rows below them. There is room for `room` rows.
fn next_beside<R: Threads + Sync, F: FnMut()>(
    team: &Team<'_, R, OpenGate>,
    alloc: Global,
    case: &Case,
    top: TopEdges,
    first: u32,
    height: u32,
    room: u32,
    dots: &mut DotsSoFar,
    errand: &mut F,
) -> Option<TopEdges>
    requires top { IsTopOf dots.old.planes.width dots.old.planes.inks top }
    requires width { dots.old.planes.width ≡ case.now.width }
    requires inks { dots.old.planes.inks ≡ case.now.inks }
    requires room { dots.old.planes.rows ≡ room }
    requires errand { F.pre errand.old }
    ensures size { HasSizeOf dots.old.planes dots.new.planes }
    ensures top { IfSome result (IsTopOf dots.old.planes.width dots.old.planes.inks) }
{
    if first > 300 || height > 300 || first + ABOVE + height > room {
        return None;
    }
    let rows = amounts(alloc, case.all, case.width, case.inks, first, height)?;
    let at = first + ABOVE;
    match diffuse_beside(team, alloc, &rows, case.kernel, top, dots, at, errand) {
        Ok((bottom, ())) => Some(bottom),
        Err(_) => None,
    }
}

/// What the caller does beside the workers: it counts in the first byte how often, and fills the others.
pub(crate) type Errand = [u8; 17];

// Diffuses the slabs of a window one below another, of which the last may wait, with an errand for each. Gives the top
// of the rows below, and what the errands did.
fn diffuse_waiting<R: Threads + Sync>(
    team: &Team<'_, R, OpenGate>,
    alloc: Global,
    case: &Case,
    top: TopEdges,
    room: u32,
    dots: &mut DotsSoFar,
) -> Option<(TopEdges, Errand)>
    requires top { IsTopOf dots.old.planes.width dots.old.planes.inks top }
    requires width { dots.old.planes.width ≡ case.now.width }
    requires inks { dots.old.planes.inks ≡ case.now.inks }
    requires room { dots.old.planes.rows ≡ room }
    ensures { IfSome result (λ r. IsTopOf dots.old.planes.width dots.old.planes.inks r.0) }
{
    let mut top = top;
    let mut first = 0u32;
    let mut bytes = [0u8; 17];
    'slabs: for rows in case.slabs {
        let mut errand = || {
            bytes[1..].fill(7);
            bytes[0] = bytes[0].saturating_add(1);
        };
        top = next_beside(
            team,
            alloc,
            case,
            top,
            first,
            *rows,
            room,
            dots,
            &mut errand,
        )?;
        first = first.wrapping_add(*rows);
    }
    Some((top, bytes))
}

/// How many dots and bottom errors of a window are wrong, where this many workers diffuse it and the tiles of a slab
/// may wait while the next one is diffused, and what the caller's errands did.
pub(crate) fn wrong_waiting<R: Threads + Sync>(
    threads: &R,
    alloc: Global,
    case: &Case,
    workers: u8,
) -> Option<(u32, Errand)> {
    let team = team_of(threads, workers, &OpenGate);
    let planes = spotted(alloc, case.width, case.height(), case.inks)?;
    let room = planes.rows();
    let top = top_of(alloc, case.width, case.inks, case.error)?;
    let mut dots = DotsSoFar::of(planes);
    let (bottom, errand) = diffuse_waiting(&team, alloc, case, top, room, &mut dots)?;
    let wrong = wrong_of(alloc, case, &dots.finish(), &bottom)?;
    Some((wrong, errand))
}

/// How many tiles of the first slab of a window this many workers begin to work before they enter the gate.
pub(crate) fn early_tiles<R: Threads + Sync>(
    threads: &R,
    alloc: Global,
    case: &Case,
    workers: u8,
    gate: &CountingGate,
) -> Option<u64> {
    let team = team_of(threads, workers, gate);
    let mut planes = spotted(alloc, case.width, case.height(), case.inks)?;
    let top = top_of(alloc, case.width, case.inks, case.error)?;
    let height = case.height();
    if height > 300 || ABOVE + height > planes.rows() {
        return None;
    }
    let rows = amounts(alloc, case.all, case.width, case.inks, 0, height)?;
    let watched = WatchedRows {
        rows,
        gate,
        early: AtomicU64::new(0),
    };
    diffuse(&team, alloc, &watched, case.kernel, top, &mut planes, ABOVE).ok()?;
    Some(watched.early.load(Ordering::SeqCst))
}

/// Rows of the first ink, one after another.
pub(crate) fn joined_rows(
    alloc: Global,
    planes: &Planes,
    first: u32,
    count: u32,
) -> Option<Vec<u8>> {
    let mut rows = Vec::new(alloc);
    for y in 0..count {
        let at = y.saturating_add(first);
        if at < planes.rows() && 0 < planes.inks() {
            rows.extend_from_slice(planes.row(0, at)).ok()?;
        }
    }
    Some(rows)
}

/// The measure of the rows of a window of one ink, as this many workers diffuse it, and how many known rows are there.
pub(crate) fn measure_of<R: Threads + Sync, G: Gate + Sync>(
    threads: &R,
    alloc: Global,
    case: &Case,
    workers: u8,
    gate: &G,
) -> Option<(Measure, usize)> {
    let team = team_of(threads, workers, gate);
    let mut planes = spotted(alloc, case.width, case.height(), case.inks)?;
    let top = top_of(alloc, case.width, case.inks, case.error)?;
    let _bottom = diffuse_slabs(&team, alloc, case, top, &mut planes)?;
    let rows = joined_rows(alloc, &planes, ABOVE, case.height())?;
    Some((measured(rows.as_slice()), known_rows(rows.as_slice())))
}

/// Diffuses a window by this many workers, and compares its dots and its bottom errors with the plain program's.
pub(crate) fn is_right<R: Abort + Threads + Sync, G: Gate + Sync>(
    rt: &R,
    alloc: Global,
    case: &Case,
    workers: u8,
    gate: &G,
) {
    let team = team_of(rt, workers, gate);
    let wrong = wrong_in(&team, alloc, case);
    assert_eq!(rt; wrong, Some(0), "{case:?} by {workers}");
}
