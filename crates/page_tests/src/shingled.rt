//! Pages of shingled passes: one worked by hand, heads of many sizes by the lengths of their jobs, and sinks that fail.
use crate::pages::{Dots, Outcome, Page, Way, sums_to, writes_to};
use job_fixtures::TINY_SHINGLED_JOB;
use page_writer::{PageSum, WriteStop};
use std::test::Fail;

#[test]
fn shingled_rows_fire_even_and_odd_columns(rt: HostRuntime) -> Result<(), Fail> {
    const PAGE: Page = (Way::Shingled, (3, 2), (8, 2), Dots::Black);
    const WHOLE: Result<PageSum, WriteStop> = Ok(PageSum {
        bytes: 142,
        rasters: 4,
    });
    // a write that never comes, the only one, and one after it
    const CASES: [(u32, Outcome); 3] = [
        (0, (WHOLE, 142, true)),
        (1, (Err(WriteStop::Write), 0, true)),
        (2, (WHOLE, 142, true)),
    ];
    writes_to(&rt, rt.alloc(), PAGE, &[], &TINY_SHINGLED_JOB, &CASES)
}

#[test]
fn heads_take_a_raster_for_each_half_of_a_row(rt: HostRuntime) -> Result<(), Fail> {
    // Each row of a raster has a code of two bytes, and each raster but the first a step down. One row takes two
    // passes, as many apart as the pitch; its one column, which is even, takes the first of them.
    const CASES: [((u8, u8), (u32, u32), (u64, u32)); 13] = [
        ((2, 1), (1, 1), (65, 1)),
        ((2, 1), (2, 1), (88, 2)),
        ((3, 2), (1, 1), (67, 1)),
        ((3, 2), (2, 1), (92, 2)),
        ((3, 2), (8, 6), (242, 8)),
        ((3, 2), (16, 6), (242, 8)),
        ((5, 3), (1, 2), (100, 2)),
        ((5, 3), (8, 2), (158, 4)),
        ((30, 7), (3, 1), (200, 2)),
        ((31, 4), (3, 1), (204, 2)),
        ((254, 3), (3, 1), (1096, 2)),
        ((255, 2), (3, 1), (1100, 2)),
        ((255, 2), (1, 1), (571, 1)),
    ];
    for &(head, size, sum) in &CASES {
        let page = (Way::Shingled, head, size, Dots::Black);
        sums_to(&rt, rt.alloc(), page, &[], sum)?;
    }
    Ok(())
}
