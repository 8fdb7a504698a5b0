//! Pages of heads with dead nozzles: one worked by hand, small heads by the lengths of their jobs, and sinks that fail.
ghost use Rattle.dead_nozzles.specs.Dead.{IsRising};

use crate::pages::{Dots, Outcome, Page, Way, sums_to, writes_to};
use job_fixtures::TINY_HEALED_JOB;
use page_writer::{PageSum, WriteStop};
use std::alloc::Global;
use std::process::Abort;
use std::test::Fail;
use std::thread::Threads;

#[test]
fn rows_of_a_dead_nozzle_are_made_up(rt: HostRuntime) -> Result<(), Fail> {
    const PAGE: Page = (Way::Healed, (3, 2), (8, 2), Dots::Black);
    const WHOLE: Result<PageSum, WriteStop> = Ok(PageSum {
        bytes: 99,
        rasters: 2,
    });
    // a write that never comes, the only one, and one after it
    const CASES: [(u32, Outcome); 3] = [
        (0, (WHOLE, 99, true)),
        (1, (Err(WriteStop::Write), 0, true)),
        (2, (WHOLE, 99, true)),
    ];
    writes_to(&rt, rt.alloc(), PAGE, &[2], &TINY_HEALED_JOB, &CASES)
}

// Writes a black window of so many rows with dead nozzles, and compares how many bytes its job has and how many
// rasters.
fn sum_of<R: Abort + Threads + Sync>(
    rt: &R,
    alloc: Global,
    head: (u8, u8),
    rows: u32,
    dead: &[u8],
    sum: (u64, u32),
) -> Result<(), Fail>
    requires { IsRising dead.now }
{
    let page = (Way::Healed, head, (8, rows), Dots::Black);
    sums_to(rt, alloc, page, dead, sum)
}

#[test]
fn small_heads_take_a_raster_for_each_stroke_with_a_dot(rt: HostRuntime) -> Result<(), Fail> {
    // Each row of a raster has a code of two bytes, and each raster but one at the top a step down before it.
    let alloc = rt.alloc();
    sum_of(&rt, alloc, (1, 1), 3, &[], (105, 3))?;
    sum_of(&rt, alloc, (3, 2), 2, &[0], (92, 2))?;
    sum_of(&rt, alloc, (3, 2), 6, &[1], (192, 6))?;
    sum_of(&rt, alloc, (3, 2), 6, &[0, 1], (192, 6))?;
    sum_of(&rt, alloc, (2, 1), 5, &[1], (164, 5))?;
    sum_of(&rt, alloc, (5, 3), 7, &[0, 4], (194, 5))?;
    sum_of(&rt, alloc, (7, 4), 9, &[0, 1, 2, 3, 5, 6], (346, 9))?;
    sum_of(&rt, alloc, (8, 5), 11, &[1, 2, 6], (357, 9))
}
