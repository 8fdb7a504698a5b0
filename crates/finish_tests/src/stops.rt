//! A text that stops a run.
use crate::plain::{joined, prefix};
use crate::runs::{AT_ONCE, BY_BYTES, Way, has_left, run_over};
use job_fixtures::TINY_JOB;
use std::alloc::Global;
use std::process::Abort;
use std::test::Fail;
use weave_base::{Found, Shelf, ShelfStop};

// What a shelf answers in the end.
#[derive(Clone, Copy, Debug)]
enum Late {
    Empty,
    TooLong,
    Failed,
    Memory,
}

// A shelf without a text, which answers so to the question of this number for `halt`, and to all later ones.
#[derive(Drop)]
struct LateShelf {
    late: Late,
    from: u32,
    asked: u32,
    faults: u64,
}

impl Shelf for LateShelf {
    ghost use Rattle.std.specs.Prelude.{None};

    ghost files = { λ s. None };

    ghost faults = { λ s. s.faults };

    fn read_text(&mut self, alloc: Global, name: &str, _most: usize) -> Result<Found, ShelfStop> {
        self.asked = self.asked.saturating_add(1);
        if name != "halt" || self.asked < self.from {
            return Ok(Found::Absent);
        }
        match self.late {
            Late::Empty => Ok(Found::Text(Vec::new(alloc))),
            Late::TooLong => Ok(Found::TooLong),
            Late::Failed => {
                self.faults = self.faults.saturating_add(1);
                Err(ShelfStop::Failed)
            }
            Late::Memory => Err(ShelfStop::Memory),
        }
    }
}

// What a shelf answers in the end and from which question on, and of two pages the status, how many bytes pass, and the
// lines.
type Row = (Late, u32, u8, usize, &'static [u8]);

// Asserts what a shelf leaves of two pages. A shelf that answers at once answers before the first read, which fails.
fn try_row(rt: &impl Abort, alloc: Global, way: Way, row: Row) -> Result<(), Fail> {
    let (late, from, status, count, lines) = row;
    let mut shelf = LateShelf {
        late,
        from,
        asked: 0,
        faults: 0,
    };
    let way = Way {
        failing_read: u32::from(from == 1),
        ..way
    };
    let job = joined(alloc, &[&TINY_JOB, &TINY_JOB])?;
    let left = run_over(alloc, &["stop=halt"], &job, way, &mut shelf)?;
    let wanted = (status, prefix(&job, count), lines);
    has_left(rt, &(late, from), &left, wanted);
    Ok(())
}

#[test]
fn a_text_stops_a_run_between_pages(rt: HostRuntime) -> Result<(), Fail> {
    // Asked before the first byte, and behind each of the four resets, at 2, 92, 94 and 184 bytes.
    const ROWS: [Row; 12] = [
        (Late::Empty, 1, 0, 0, b""),
        (Late::TooLong, 1, 0, 0, b""),
        (Late::Empty, 2, 0, 2, b""),
        (Late::Empty, 3, 0, 92, b""),
        (Late::TooLong, 3, 0, 92, b""),
        (Late::Empty, 4, 0, 94, b""),
        (Late::Empty, 6, 0, 184, b""),
        (Late::Failed, 1, 4, 0, b"read failed\n"),
        (Late::Failed, 3, 4, 92, b"read failed\n"),
        (Late::Failed, 6, 0, 184, b""),
        (Late::Memory, 1, 7, 0, b"out of memory\n"),
        (Late::Memory, 3, 7, 92, b"out of memory\n"),
    ];
    for &row in &ROWS {
        try_row(&rt, rt.alloc(), AT_ONCE, row)?;
        try_row(&rt, rt.alloc(), BY_BYTES, row)?;
    }
    Ok(())
}
