//! The sheets of two pages, counted with their dots.
use crate::checks::same;
use job_fixtures::TINY_JOB;
use job_player::JobCounter;
use page_laws::tiny_prints_ninety_two_bytes;
use printer_definitions::InkCounts;
use printer_profile::TINY;
use std::process::Abort;
use std::test::Fail;

// Stops the test where a counter has not counted so many black pages, of 16 dots each.
fn has_counted(rt: &impl Abort, counter: &JobCounter, pages: u32) {
    let black = InkCounts {
        k: 16 * u64::from(pages),
        c: 0,
        m: 0,
        y: 0,
    };
    let counted = (counter.sheets(), counter.dots());
    same(rt, "the counts", &counted, &(pages, black));
}

#[test]
fn pages_are_counted_one_after_another(rt: HostRuntime) -> Result<(), Fail> {
    tiny_prints_ninety_two_bytes();
    assert!(rt; TINY.check() == Ok(()));
    let mut counter = JobCounter::make(rt.alloc(), &TINY);
    has_counted(&rt, &counter, 0);
    counter.execute_page(&TINY_JOB)?;
    has_counted(&rt, &counter, 1);
    let end = counter.execute_page(&TINY_JOB);
    same(&rt, "the end", &end, &Ok(()));
    has_counted(&rt, &counter, 2);
    Ok(())
}
