//! Pages of windows under a head, and the results of writing them.
ghost use Rattle.base_definitions.specs.Limits.{most_columns, most_rows};
ghost use Rattle.dead_nozzles.specs.Dead.{IsRising};
ghost use Rattle.std.specs.Prelude.{IfOk, ◌≡◌, ◌≤◌};

use crate::checks::{is_taken, same};
use base_definitions::Memory;
use dead_nozzles::check_dead;
use page_writer::{PageForm, PageSum, Planes, WriteStop, write_healed, write_page, write_shingled};
use printer_profile::{Profile, TINY1};
use pwg_definitions::Kind;
use shingle_plan::shingle_fits;
use std::alloc::Global;
use std::process::Abort;
use std::test::Fail;
use std::thread::Threads;
use weave_base::MemSink;
use worker_team::{OpenGate, Team};

/// In which way a head goes over a page.
#[derive(Clone, Copy, Debug, Drop)]
pub enum Way {
    Plain,
    Shingled,
    Healed,
}

/// The dots of a window: all of them, or some in each row that is not blank. Blank rows are, from the first number on,
/// so many as the second says, in each stretch of so many as the third says.
#[derive(Clone, Copy, Debug, Drop)]
pub enum Dots {
    Black,
    Mixed(u32, u32, u32),
}

/// A page: the way of the head, its nozzles and its pitch, the columns and rows of the window under it, and their dots.
pub type Page = (Way, (u8, u8), (u32, u32), Dots);

/// What writing a page answers, how many bytes the sink has then, and whether they begin the worked job.
pub type Outcome = (Result<PageSum, WriteStop>, usize, bool);

// Whether a window has a dot at a place.
fn is_on(dots: Dots, x: u32, y: u32) -> bool {
    match dots {
        Dots::Black => true,
        Dots::Mixed(from, many, each) => {
            let place = (y % each.max(1)).wrapping_sub(from);
            let number = x.wrapping_mul(7).wrapping_add(y.wrapping_mul(3));
            place >= many && number % 5 < 2
        }
    }
}

// The planes of a window.
fn planes_of(alloc: Global, dots: Dots, width: u32, rows: u32) -> Result<Planes, Memory>
    requires some_columns { 1 ≤ width }
    requires most_columns { width ≤ most_columns }
    requires some_rows { 1 ≤ rows }
    requires most_rows { rows ≤ most_rows }
    ensures width { IfOk result (λ t. t.width ≡ width) }
    ensures rows { IfOk result (λ t. t.rows ≡ rows) }
    ensures inks { IfOk result (λ t. t.inks ≡ 1) }
{
    let mut planes = Planes::make(alloc, width, rows, 1)?;
    'rows: for y in 0..rows {
        'columns: for x in 0..width {
            if is_on(dots, x, y) {
                planes.turn_on(0, x, y);
            }
        }
    }
    Ok(planes)
}

// A grey page with a window of this size.
fn form_of(p: &Profile, (width, rows): (u32, u32)) -> PageForm {
    PageForm {
        width,
        height: rows.saturating_add(u32::from(p.top)),
        kind: Kind::Gray8,
        bytes_per_line: width,
    }
}

/// Writes a page by so many workers to a sink whose write of this number fails. The dead nozzles are those of a way
/// around them.
pub fn write<R: Abort + Threads + Sync>(
    rt: &R,
    alloc: Global,
    page: Page,
    dead: &[u8],
    workers: u8,
    fails: u32,
) -> Result<(Result<PageSum, WriteStop>, MemSink), Fail>
    requires { IsRising dead.now }
{
    let (way, (nozzles, pitch), size, dots) = page;
    let p = Profile {
        nozzles,
        pitch,
        top: u16::from(nozzles.max(1) - 1) * u16::from(pitch),
        ..TINY1
    };
    let f = form_of(&p, size);
    assert!(rt; p.check() == Ok(()));
    assert!(rt; is_taken(&p, f));
    let window = p.window(f);
    let planes = planes_of(alloc, dots, window.width, window.height)?;
    let mut sink = MemSink::make(alloc, 100_000, Vec::new(alloc), vec![in alloc; fails]?)?;
    let team = Team {
        threads: rt,
        workers: workers.clamp(1, 64),
        gate: &OpenGate,
    };
    let answer = match way {
        Way::Plain => write_page(&team, alloc, &p, f, &planes, &mut sink),
        Way::Shingled => {
            assert!(rt; shingle_fits(nozzles, pitch));
            write_shingled(&team, alloc, &p, f, &planes, &mut sink)
        }
        Way::Healed => {
            assert!(rt; check_dead(nozzles, dead) == Ok(()));
            write_healed(&team, alloc, &p, f, &planes, dead, &mut sink)
        }
    };
    Ok((answer, sink))
}

/// Writes a page once for each number of a write that fails, and compares what that gives. The bytes are to begin a
/// worked job.
pub fn writes_to<R: Abort + Threads + Sync>(
    rt: &R,
    alloc: Global,
    page: Page,
    dead: &[u8],
    job: &[u8],
    cases: &[(u32, Outcome)],
) -> Result<(), Fail>
    requires { IsRising dead.now }
{
    for (fails, wanted) in cases {
        let (answer, sink) = write(rt, alloc, page, dead, 1, *fails)?;
        let bytes = sink.bytes();
        let outcome = (answer, bytes.len(), job.starts_with(bytes));
        same(rt, "a write", &outcome, wanted);
    }
    Ok(())
}

/// Writes a page, and compares how many bytes its job has and how many rasters.
pub fn sums_to<R: Abort + Threads + Sync>(
    rt: &R,
    alloc: Global,
    page: Page,
    dead: &[u8],
    sum: (u64, u32),
) -> Result<(), Fail>
    requires { IsRising dead.now }
{
    let (bytes, rasters) = sum;
    let (answer, sink) = write(rt, alloc, page, dead, 1, 0)?;
    let found = (answer, sink.bytes().len() as u64);
    same(
        rt,
        "a page",
        &found,
        &(Ok(PageSum { bytes, rasters }), bytes),
    );
    Ok(())
}
