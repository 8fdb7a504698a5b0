//! Small pages against the definitions, dot by dot.
ghost use Rattle.std.specs.Prelude.{◌≤◌};

use crate::checks::is_taken;
use crate::halftones::definition::{CURVES, LIMITS, Screening, byte_at, plain, wrong_dots};
use diffusion_kernel::Kernel;
use dot_planes::Planes;
use page_halftoner::Halftoner;
use printer_profile::{InkSet, PageForm, Profile, TINY1};
use pwg_definitions::Kind;
use std::alloc::Global;
use std::process::Abort;
use std::thread::Threads;
use worker_team::{OpenGate, Team};

// A printer with these inks, and with limits, curves and margins.
fn printer(inks: InkSet) -> Profile {
    Profile {
        inks,
        black_start: 64,
        limits: LIMITS,
        curves: CURVES,
        left: 2,
        right: 1,
        top: 1,
        bottom: 2,
        ..TINY1
    }
}

fn form(kind: Kind, width: u32, height: u32) -> PageForm {
    PageForm {
        width,
        height,
        kind,
        bytes_per_line: u32::try_from(kind.line_bytes(width as usize)).unwrap_or(0),
    }
}

// The most bytes of a line.
const LONGEST: usize = 3072;

// A line of the page, and bytes after it.
fn line_at(kind: Kind, y: u32) -> [u8; LONGEST] {
    let mut line = [0u8; LONGEST];
    let unit = kind.unit() as u32;
    for (n, byte) in line.iter_mut().enumerate() {
        let n = (n % LONGEST) as u32;
        *byte = byte_at(n / unit, y, n % unit);
    }
    line
}

// The dots of a page each of whose lines stands this many times, by this many workers.
fn planes_of<R: Threads + Sync>(
    rt: &R,
    alloc: Global,
    p: &Profile,
    f: PageForm,
    how: Screening,
    copies: u32,
    workers: u8,
) -> Option<Planes>
    requires workers { (1 ≤ workers) × (workers ≤ 64) }
    requires copies { 1 ≤ copies }
{
    if p.check().is_err() || !is_taken(p, f) || f.bytes_per_line > LONGEST as u32 {
        return None;
    }
    let mut h = Halftoner::begin(alloc, p, f, how.kernel, how.grain).ok()?;
    let team = Team {
        threads: rt,
        workers,
        gate: &OpenGate,
    };
    let mut y = 0;
    while y < f.height {
        let line = line_at(f.kind, y / copies);
        let line = &line[..f.bytes_per_line as usize];
        let repeats = copies.min(f.height - y);
        match h.lines(&team, line, repeats) {
            Ok(()) => {}
            Err(_) => return None,
        }
        y += repeats;
    }
    Some(h.finish())
}

// The inks, columns and rows of such a page, and how many dots in all inks are not those of the definition.
fn wrong_in<R: Threads + Sync>(
    rt: &R,
    alloc: Global,
    p: &Profile,
    f: PageForm,
    how: Screening,
    copies: u32,
    workers: u8,
) -> Option<(u8, u32, u32, u32)>
    requires workers { (1 ≤ workers) × (workers ≤ 64) }
    requires copies { 1 ≤ copies }
{
    let planes = planes_of(rt, alloc, p, f, how, copies, workers)?;
    let mut wrong = 0u32;
    for i in 0..p.inks.count() {
        let more = wrong_dots(p, f, how, copies, &planes, i, p.inks.at(i));
        wrong = wrong.saturating_add(more);
    }
    Some((planes.inks(), planes.width(), planes.rows(), wrong))
}

const KINDS: [Kind; 5] = [
    Kind::Gray8,
    Kind::Black8,
    Kind::Rgb8,
    Kind::Black1,
    Kind::Cmyk8,
];

// Stops the test where a page has other inks, columns, rows or dots.
fn is_right<R: Abort + Threads + Sync>(
    rt: &R,
    alloc: Global,
    inks: InkSet,
    f: PageForm,
    how: Screening,
    copies: u32,
    workers: u8,
)
    requires workers { (1 ≤ workers) × (workers ≤ 64) }
    requires copies { 1 ≤ copies }
{
    let found = wrong_in(rt, alloc, &printer(inks), f, how, copies, workers);
    let (width, height) = (f.width.wrapping_sub(3), f.height.wrapping_sub(3));
    let is_right = found == Some((inks.count(), width, height, 0));
    let Screening { kernel, grain } = how;
    assert!(rt;
        is_right,
        "{inks:?} {kernel:?} {grain} {f:?} {copies} by {workers}: {found:?}"
    );
}

// All small pages on a printer. The tallest has more than two slabs.
fn each_page<R: Abort + Threads + Sync>(rt: &R, alloc: Global, inks: InkSet, how: Screening) {
    for &kind in &KINDS {
        for (width, height) in [(1, 5), (7, 256), (8, 257), (9, 515)] {
            is_right(
                rt,
                alloc,
                inks,
                form(kind, width + 3, height + 3),
                how,
                1,
                2,
            );
        }
    }
}

#[test]
fn small_pages_have_the_dots_of_the_definition_and_their_grain(rt: HostRuntime) {
    let alloc = rt.alloc();
    each_page(&rt, alloc, InkSet::K, plain(Kernel::Floyd));
    each_page(&rt, alloc, InkSet::Cmy, plain(Kernel::Jarvis));
    each_page(&rt, alloc, InkSet::Cmyk, plain(Kernel::Stucki));
    for inks in [InkSet::K, InkSet::Cmy, InkSet::Cmyk] {
        for kernel in [Kernel::Floyd, Kernel::Jarvis, Kernel::Stucki] {
            for grain in [1, 16, 32] {
                each_page(&rt, alloc, inks, Screening { kernel, grain });
            }
        }
    }
}

#[test]
fn wide_pages_and_lines_that_stand_more_than_once(rt: HostRuntime) {
    // A wide page has five bands, which are one slab. The places of the grain go round many times on it, and equal
    // lines get other grain.
    let wide = form(Kind::Gray8, 3003, 133);
    let floyd = plain(Kernel::Floyd);
    let grained = Screening {
        kernel: Kernel::Jarvis,
        grain: 16,
    };
    is_right(&rt, rt.alloc(), InkSet::Cmyk, wide, grained, 1, 1);
    is_right(&rt, rt.alloc(), InkSet::Cmyk, wide, grained, 40, 2);
    is_right(&rt, rt.alloc(), InkSet::Cmyk, wide, floyd, 1, 1);
    is_right(&rt, rt.alloc(), InkSet::Cmyk, wide, floyd, 1, 2);
    // tiles that have all their pixels, in which rows have the line of the row above them
    for &kind in &KINDS {
        for copies in [2, 3, 40] {
            let page = form(kind, 203, 73);
            is_right(&rt, rt.alloc(), InkSet::Cmyk, page, floyd, copies, 2);
        }
    }
}

// The rows of a page of one column that have a dot. Each of its lines is the byte 9B.
fn rows_with_dots<R: Threads + Sync>(rt: &R, alloc: Global, height: u32) -> Option<Vec<u32>> {
    let p = TINY1;
    let f = form(Kind::Gray8, 1, height);
    if p.check().is_err() || !is_taken(&p, f) || f.bytes_per_line != 1 || f.height != height {
        return None;
    }
    let mut h = Halftoner::begin(alloc, &p, f, Kernel::Floyd, 0).ok()?;
    let team = Team {
        threads: rt,
        workers: 1,
        gate: &OpenGate,
    };
    match h.lines(&team, &[0x9B], height) {
        Ok(()) => {}
        Err(_) => return None,
    }
    let planes = h.finish();
    if planes.inks() != 1 || planes.width() != 1 || planes.rows() != height {
        return None;
    }
    let mut rows = Vec::new(alloc);
    for y in 0..height {
        if planes.dot(0, 0, y) {
            rows.push(y).ok()?;
        }
    }
    Some(rows)
}

#[test]
fn errors_cross_the_slab_at_row_256(rt: HostRuntime) {
    let Some(rows) = rows_with_dots(&rt, rt.alloc(), 257) else {
        panic!(rt; "no planes");
    };
    let mut wanted = [0u32; 86];
    for n in 0..86 {
        wanted[n] = 3 * n as u32 + 1;
    }
    assert!(rt; rows.as_slice() == wanted.as_slice(), "{rows:?}");
}
