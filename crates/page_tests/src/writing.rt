//! Whole pages worked by hand, the number of writes of a page, and sinks that fail.
use crate::pages::{Dots, Outcome, Page, Way, sums_to, writes_to};
use job_fixtures::TINY_JOB;
use page_writer::{PageSum, WriteStop};
use std::test::Fail;

#[test]
fn the_black_window_takes_one_write_and_a_blank_page_forty_nine_bytes(
    rt: HostRuntime,
) -> Result<(), Fail> {
    const PAGE: Page = (Way::Plain, (3, 2), (8, 2), Dots::Black);
    const WHOLE: Result<PageSum, WriteStop> = Ok(PageSum {
        bytes: 92,
        rasters: 2,
    });
    // a write that never comes, the only one, and one after it
    const CASES: [(u32, Outcome); 3] = [
        (0, (WHOLE, 92, true)),
        (1, (Err(WriteStop::Write), 0, true)),
        (2, (WHOLE, 92, true)),
    ];
    writes_to(&rt, rt.alloc(), PAGE, &[], &TINY_JOB, &CASES)?;
    let blank = (Way::Plain, (3, 2), (8, 2), Dots::Mixed(0, 2, 2));
    sums_to(&rt, rt.alloc(), blank, &[], (49, 0))
}

#[test]
fn short_strokes_wait_until_no_other_fits(rt: HostRuntime) -> Result<(), Fail> {
    // 4,000 strokes of 21 bytes each, of which the first has no step, behind 46 bytes and before 3. Of the strokes
    // 3,118 and the 46 bytes take 65,517 bytes; one more would take more than 65,536.
    const PAGE: Page = (Way::Plain, (1, 1), (8, 4000), Dots::Black);
    const WHOLE: Result<PageSum, WriteStop> = Ok(PageSum {
        bytes: 84_042,
        rasters: 4000,
    });
    const CASES: [(u32, Outcome); 4] = [
        (0, (WHOLE, 84_042, false)),
        (1, (Err(WriteStop::Write), 0, true)),
        (2, (Err(WriteStop::Write), 65_517, false)),
        (3, (WHOLE, 84_042, false)),
    ];
    writes_to(&rt, rt.alloc(), PAGE, &[], &[], &CASES)
}

#[test]
fn a_long_stroke_takes_a_write_of_its_own(rt: HostRuntime) -> Result<(), Fail> {
    // Two passes of 20 rows of 1,024 bytes, whose code has 1,032 bytes, or 16 where the row is blank. The first pass
    // has one row with dots: 1,348 bytes, which wait behind the first 46. The second has 19: 19,643 bytes.
    const PAGE: Page = (Way::Plain, (20, 1), (8191, 20), Dots::Mixed(0, 0, 1));
    const WHOLE: Result<PageSum, WriteStop> = Ok(PageSum {
        bytes: 21_040,
        rasters: 2,
    });
    const CASES: [(u32, Outcome); 5] = [
        (0, (WHOLE, 21_040, false)),
        (1, (Err(WriteStop::Write), 0, true)),
        (2, (Err(WriteStop::Write), 1_394, false)),
        (3, (Err(WriteStop::Write), 21_037, false)),
        (4, (WHOLE, 21_040, false)),
    ];
    writes_to(&rt, rt.alloc(), PAGE, &[], &[], &CASES)
}
