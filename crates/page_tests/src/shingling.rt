//! Heads that can shingle, and each row of small windows by a plain count.
ghost use Rattle.base_definitions.specs.Limits.{most_rows};
ghost use Rattle.shingle_plan.specs.Fits.{Shingles};
ghost use Rattle.std.specs.Prelude.{◌≡◌, ◌≤◌};

use crate::checks::same;
use shingle_plan::{ShinglePlan, shingle_fits};
use std::process::Abort;

#[test]
fn heads_fit_by_half_their_nozzles(rt: HostRuntime) {
    const CASES: [(u8, u8, bool); 22] = [
        (0, 1, false),
        (1, 1, false),
        (2, 0, false),
        (2, 1, true),
        (2, 255, true),
        (3, 0, false),
        (3, 3, true),
        (5, 3, true),
        (5, 4, false),
        (5, 5, true),
        (30, 2, true),
        (30, 5, false),
        (31, 4, true),
        (31, 6, false),
        (31, 31, true),
        (254, 2, true),
        (254, 127, false),
        (254, 128, true),
        (254, 254, false),
        (255, 127, false),
        (255, 253, true),
        (255, 255, true),
    ];
    for (nozzles, pitch, fits) in &CASES {
        assert!(rt;
            shingle_fits(*nozzles, *pitch) == *fits,
            "at {nozzles}, {pitch}"
        );
    }
}

// How many passes and nozzles fire the even columns of a row, and how many its odd ones.
fn fired(plan: &ShinglePlan, nozzles: u8, row: u32) -> (u64, u64)
    requires { nozzles ≡ plan.now.nozzles }
{
    let mut even = 0u64;
    let mut odd = 0u64;
    for pass in 0..plan.passes() {
        for nozzle in 0..nozzles {
            if plan.row(pass, nozzle) == Some(row) {
                if plan.fires_even(nozzle) {
                    even = even.saturating_add(1);
                } else {
                    odd = odd.saturating_add(1);
                }
            }
        }
    }
    (even, odd)
}

// How many passes and nozzles fire a row.
fn all_fired(plan: &ShinglePlan, nozzles: u8) -> u64
    requires { nozzles ≡ plan.now.nozzles }
{
    let mut found = 0u64;
    for pass in 0..plan.passes() {
        for nozzle in 0..nozzles {
            if plan.row(pass, nozzle).is_some() {
                found = found.saturating_add(1);
            }
        }
    }
    found
}

// Finds each row of a window twice, at its even columns and at its odd ones, and no other row.
fn count_each_row(rt: &impl Abort, nozzles: u8, pitch: u8, height: u32)
    requires fits { Shingles nozzles pitch }
    requires some_rows { 1 ≤ height }
    requires most_rows { height ≤ most_rows }
{
    let plan = ShinglePlan::make(nozzles, pitch, height);
    for row in 0..height {
        same(rt, "a row", &fired(&plan, nozzles, row), &(1, 1));
    }
    same(
        rt,
        "all rows",
        &all_fired(&plan, nozzles),
        &(2 * u64::from(height)),
    );
}

#[test]
fn each_row_is_counted_twice(rt: HostRuntime) {
    for nozzles in 1u8..13 {
        for pitch in 1u8..13 {
            if shingle_fits(nozzles, pitch) {
                for height in 1u32..41 {
                    count_each_row(&rt, nozzles, pitch, height);
                }
            }
        }
    }
}
