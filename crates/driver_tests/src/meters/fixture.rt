//! Runs that count pages on meters.
use crate::fixture::{Wanted, leaves_parts, run_metered};
use crate::rows::{Given, input_of, shelf_of};
use driver_fixtures::roomy;
use ink_meter::{DotMeter, InkCounts, Meter};
use meter_fixtures::counts;
use std::alloc::Global;
use std::process::Abort;
use std::test::Fail;
use std::thread::Threads;

/// One meter that has counted so many dots of black.
pub fn one_meter(alloc: Global, black: u64) -> Result<Vec<Box<dyn Meter>>, Fail> {
    let mut meter = DotMeter::make();
    let spent: InkCounts = counts(black, 0, 0, 0);
    if meter.room(&spent) {
        meter.add(&spent);
    }
    let mut meters: Vec<Box<dyn Meter>> = Vec::new(alloc);
    meters.push(Box::new(alloc, meter)?)?;
    Ok(meters)
}

/// Runs these words with meters, and asserts what they leave.
pub fn runs_to<R: Abort + Threads + Sync>(
    rt: &R,
    alloc: Global,
    words: &[&str],
    given: Given,
    meters: &mut Vec<Box<dyn Meter>>,
    wanted: Wanted,
) -> Result<(), Fail> {
    let (out, err) = (roomy(alloc)?, roomy(alloc)?);
    let (input, shelf) = (input_of(alloc, given)?, shelf_of(alloc, given)?);
    let left = run_metered(rt, alloc, words, input, out, err, shelf, meters)?;
    leaves_parts(rt, alloc, ("with meters", words), &left, wanted)
}

/// The cap and the counts of the last meter, which is taken away.
pub fn last(meters: &mut Vec<Box<dyn Meter>>) -> Option<(u64, InkCounts)> {
    match meters.pop() {
        Some(meter) => Some((meter.cap(), meter.total())),
        None => None,
    }
}
