//! Lists of dead nozzles, and strokes that make up for them: each row of small windows by a plain count.
ghost use Rattle.base_definitions.specs.Limits.{most_rows};
ghost use Rattle.dead_nozzles.specs.Dead.{IsRising, checked};
ghost use Rattle.std.specs.Int.{IsGcd};
ghost use Rattle.std.specs.Prelude.{Ok, ◌≡◌, ◌≤◌};

use crate::checks::same;
use base_definitions::Memory;
use dead_nozzles::{DeadFault, StrokePlan, check_dead};
use std::alloc::Global;
use std::process::Abort;
use std::test::Fail;

#[test]
fn what_is_wrong_is_told(rt: HostRuntime) {
    let all = Err(DeadFault::AllDead { nozzles: 3 });
    let outside = Err(DeadFault::NoSuchNozzle { nozzle: 3 });
    let found = [
        check_dead(3, &[]),
        check_dead(3, &[0, 2]),
        check_dead(3, &[0, 1, 2]),
        check_dead(3, &[1, 3, 9]),
        check_dead(3, &[0, 1, 2, 3]),
    ];
    let wanted = [Ok(()), Ok(()), all, outside, outside];
    same(
        &rt,
        "none, two, all, no nozzle, all and more",
        &found,
        &wanted,
    );
}

// The starts of the strokes, and the rows under their nozzles, stroke by stroke.
fn all_rows(
    alloc: Global,
    plan: &StrokePlan,
    nozzles: u8,
) -> Result<(Vec<u32>, Vec<Option<u32>>), Fail>
    requires { nozzles ≡ plan.now.nozzles }
{
    let mut starts = Vec::new(alloc);
    let mut rows = Vec::new(alloc);
    for stroke in 0..plan.strokes() {
        starts.push(plan.start(stroke))?;
        for nozzle in 0..nozzles {
            rows.push(plan.row(stroke, nozzle))?;
        }
    }
    Ok((starts, rows))
}

#[test]
fn the_first_nozzle_makes_up_for_the_last(rt: HostRuntime) -> Result<(), Fail> {
    // the passes start at 0, 3, 6 and 9; rows 0 and 3 were the last nozzle's
    const STARTS: [u32; 6] = [0, 3, 4, 6, 7, 9];
    const ROWS: [Option<u32>; 18] = [
        None,
        None,
        None,
        None,
        Some(1),
        None,
        Some(0),
        None,
        None,
        Some(2),
        Some(4),
        None,
        Some(3),
        None,
        None,
        Some(5),
        None,
        None,
    ];
    let alloc = rt.alloc();
    let plan = StrokePlan::make(alloc, 3, 2, 6, &[2])?;
    let (starts, rows) = all_rows(alloc, &plan, 3)?;
    same(&rt, "the starts", &starts.as_slice(), &STARTS.as_slice());
    same(&rt, "the rows", &rows.as_slice(), &ROWS.as_slice());
    Ok(())
}

// How many strokes and nozzles fire a row, and the last of these nozzles.
fn fired(plan: &StrokePlan, nozzles: u8, row: u32) -> (u64, u8)
    requires { nozzles ≡ plan.now.nozzles }
{
    let mut found = 0u64;
    let mut last = 0;
    for stroke in 0..plan.strokes() {
        for nozzle in 0..nozzles {
            if plan.row(stroke, nozzle) == Some(row) {
                found = found.saturating_add(1);
                last = nozzle;
            }
        }
    }
    (found, last)
}

// Finds each row of a window once, at a nozzle that is not dead.
fn count_each_row(
    rt: &impl Abort,
    alloc: Global,
    head: (u8, u8, u32),
    dead: &[u8],
) -> Result<(), Memory>
    requires some_nozzles { 1 ≤ head.0 }
    requires some_pitch { 1 ≤ head.1 }
    requires coprime { IsGcd head.0 head.1 1 }
    requires some_rows { 1 ≤ head.2 }
    requires most_rows { head.2 ≤ most_rows }
    requires rising { IsRising dead.now }
    requires nozzles { checked head.0 dead.now ≡ Ok tt }
{
    let (nozzles, pitch, rows) = head;
    let plan = StrokePlan::make(alloc, nozzles, pitch, rows, dead)?;
    for row in 0..rows {
        let (found, nozzle) = fired(&plan, nozzles, row);
        let is_dead = dead.contains(&nozzle);
        same(rt, "a row", &(found, is_dead), &(1, false));
    }
    Ok(())
}

#[test]
fn each_row_is_counted_once(rt: HostRuntime) -> Result<(), Fail> {
    let alloc = rt.alloc();
    count_each_row(&rt, alloc, (1, 1, 20), &[])?;
    count_each_row(&rt, alloc, (2, 1, 20), &[0])?;
    count_each_row(&rt, alloc, (3, 2, 20), &[2])?;
    count_each_row(&rt, alloc, (3, 2, 20), &[0, 1])?;
    count_each_row(&rt, alloc, (8, 5, 40), &[0, 1, 2, 4, 5, 6, 7])?;
    count_each_row(&rt, alloc, (15, 4, 70), &[3, 7, 14])?;
    Ok(())
}
