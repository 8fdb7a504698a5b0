//! Every prefix of jobs: what it becomes, and what that puts on the sheets of the printer `tiny`. The jobs print the
//! same page, each in its own way.
use crate::plain::{Plain, finished, joined, prefix};
use crate::runs::{AT_ONCE, Way, leaves};
use job_fixtures::{TINY_HEALED_JOB, TINY_IMAGES, TINY_JOB, TINY_SHINGLED_JOB, played};
use std::alloc::Global;
use std::process::Abort;
use std::test::Fail;

// The bytes of the images of a sheet: four, each with a header of seven bytes and six rows of one byte.
const SHEET: usize = 52;

const IMAGE: usize = 13;

const HEADER: usize = 7;

// Whether these are the images of so many whole pages, and after them only of sheets whose dots the page has.
fn has_dots_of_pages(images: &[u8], pages: usize) -> bool {
    let mut has = true;
    for (place, got) in images.iter().enumerate() {
        let (sheet, at) = (place / SHEET, place % SHEET);
        let dots = TINY_IMAGES.get(at).copied().unwrap_or(0);
        let is_part = at % IMAGE < HEADER || got & !dots == 0;
        has &= *got == dots || (sheet >= pages && is_part);
    }
    has
}

// Asserts what a finished job puts on its sheets: whole pages, and one sheet more if the last page was cut behind its
// margins. The printer takes each command.
fn try_sheets(rt: &impl Abort, alloc: Global, plain: &Plain) -> Result<(), Fail> {
    let sheets = played(alloc, &plain.out)?;
    let got = (
        sheets.stop,
        sheets.ends.len(),
        has_dots_of_pages(&sheets.out, plain.pages),
    );
    let count = plain.pages.saturating_add(usize::from(plain.is_cut));
    assert_eq!(rt; got, (None, count, true), "{} bytes", plain.out.len());
    Ok(())
}

// Asserts what a job becomes that is cut, in pieces of one byte, of seven bytes and as a whole.
fn try_cut(rt: &impl Abort, alloc: Global, cut: &[u8]) -> Result<(), Fail> {
    let plain = finished(alloc, cut)?;
    for read in [1, 7, 4096] {
        let way = Way { read, ..AT_ONCE };
        leaves(rt, alloc, &[], cut, way, (0, &plain.out, b""))?;
    }
    try_sheets(rt, alloc, &plain)
}

#[test]
fn every_prefix_keeps_its_commands_and_prints_a_part_of_its_pages(
    rt: HostRuntime,
) -> Result<(), Fail> {
    const JOBS: [&[&[u8]]; 4] = [
        &[&TINY_JOB],
        &[&TINY_JOB, &TINY_JOB],
        &[&TINY_SHINGLED_JOB],
        &[&TINY_HEALED_JOB],
    ];
    for parts in JOBS {
        let job = joined(rt.alloc(), parts)?;
        for count in 0..job.len().saturating_add(1) {
            try_cut(&rt, rt.alloc(), prefix(&job, count))?;
        }
    }
    Ok(())
}
