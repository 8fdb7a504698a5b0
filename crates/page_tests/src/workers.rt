//! Pages that several workers code: the same bytes as by one worker, and the same writes if a sink fails.
use crate::pages::{Dots, Page, Way, write};
use page_writer::WriteStop;
use std::alloc::Global;
use std::process::Abort;
use std::test::Fail;
use std::thread::Threads;

const PAGES: [Page; 11] = [
    (Way::Plain, (3, 2), (8, 200), Dots::Mixed(0, 0, 1)),
    (Way::Plain, (3, 2), (17, 150), Dots::Mixed(0, 40, 70)),
    (Way::Plain, (5, 3), (33, 120), Dots::Mixed(30, 40, 200)),
    (Way::Plain, (3, 2), (1, 90), Dots::Mixed(0, 20, 30)),
    (Way::Plain, (30, 7), (100, 1), Dots::Mixed(0, 0, 1)),
    (Way::Plain, (1, 1), (9, 64), Dots::Mixed(0, 64, 64)),
    (Way::Shingled, (3, 2), (8, 60), Dots::Mixed(0, 9, 20)),
    (
        Way::Shingled,
        (30, 7),
        (65, 400),
        Dots::Mixed(100, 150, 400),
    ),
    (Way::Shingled, (2, 1), (1, 40), Dots::Mixed(0, 0, 1)),
    (Way::Healed, (3, 2), (8, 60), Dots::Mixed(0, 9, 20)),
    (Way::Healed, (5, 3), (40, 200), Dots::Mixed(0, 60, 100)),
];

// The dead nozzles of a head that has some.
const DEAD: [u8; 1] = [1];

// Compares what so many workers write, where this write fails, to what one writes.
fn same_by<R: Abort + Threads + Sync>(
    rt: &R,
    alloc: Global,
    page: Page,
    workers: u8,
    fails: u32,
) -> Result<(), Fail> {
    let (alone, few) = write(rt, alloc, page, &DEAD, 1, fails)?;
    let (shared, many) = write(rt, alloc, page, &DEAD, workers, fails)?;
    assert!(rt; shared == alone, "{page:?} by {workers}, write {fails}");
    assert!(rt;
        many.bytes() == few.bytes(),
        "{page:?} by {workers}, write {fails}"
    );
    Ok(())
}

#[test]
fn any_number_of_workers_writes_the_same(rt: HostRuntime) -> Result<(), Fail> {
    let alloc = rt.alloc();
    for page in &PAGES {
        for workers in [2, 3, 4, 64] {
            same_by(&rt, alloc, *page, workers, 0)?;
        }
    }
    Ok(())
}

#[test]
fn a_failed_write_leaves_a_part(rt: HostRuntime) -> Result<(), Fail> {
    let alloc = rt.alloc();
    // the strokes take 84,000 bytes
    let page = (Way::Plain, (1, 1), (8, 4000), Dots::Black);
    let (whole, all) = write(&rt, alloc, page, &DEAD, 4, 0)?;
    let mut last = 0;
    for fails in 1..5 {
        same_by(&rt, alloc, page, 4, fails)?;
        let (answer, part) = write(&rt, alloc, page, &DEAD, 4, fails)?;
        if answer == Err(WriteStop::Write) {
            last = fails;
            assert!(rt; all.bytes().starts_with(part.bytes()));
            assert!(rt; part.bytes().len() < all.bytes().len());
        }
    }
    // what fits in the first write, and the rest
    assert!(rt; matches!(whole, Ok(sum) if sum.rasters == 4000));
    assert!(rt; last == 2);
    Ok(())
}
