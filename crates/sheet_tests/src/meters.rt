//! Meters alone and together, with a kind of meter that the driver does not know.
use crate::checks::same;
use ink_meter::{DotMeter, InkCounts, Meter, OverCap, add_all, admit, cap_all};
use meter_fixtures::{Card, counts, settled};
use std::alloc::Global;
use std::process::Abort;
use std::test::Fail;

type Meters = Vec<Box<dyn Meter>>;

// Counts these dots where each meter has room.
fn count(meters: &mut Meters, dots: &InkCounts) -> Result<(), OverCap> {
    admit(meters, dots)?;
    add_all(meters, dots);
    Ok(())
}

// A kind of meter.
#[derive(Clone, Copy)]
enum MeterKind {
    Dots,
    Card,
}

// A new meter of a kind, with this cap.
fn meter_of(alloc: Global, kind: MeterKind, cap: u64) -> Result<Box<dyn Meter>, Fail> {
    match kind {
        MeterKind::Dots => {
            let mut meter = DotMeter::make();
            meter.set_cap(cap);
            Ok(Box::new(alloc, meter)?)
        }
        MeterKind::Card => Ok(Box::new(alloc, Card::make(cap))?),
    }
}

// New meters of these kinds, with these caps.
fn meters_of(alloc: Global, kinds: &[(MeterKind, u64)]) -> Result<Meters, Fail> {
    let mut meters: Meters = Vec::new(alloc);
    for (kind, cap) in kinds {
        meters.push(meter_of(alloc, *kind, *cap)?)?;
    }
    Ok(meters)
}

// Dots of black, cyan, magenta and yellow.
type Dots = [u64; 4];

// The meter without room, if one has none: its place, its total and its cap.
type Report = Option<(usize, u64, u64)>;

// What is done with meters: dots are counted where each has room, or only tried, each with the report that is wanted,
// or all get a cap.
#[derive(Clone, Copy)]
enum Step {
    Count(Dots, Report),
    Admit(Dots, Report),
    Cap(u64),
}

fn counts_of(dots: Dots) -> InkCounts {
    let [k, c, m, y] = dots;
    counts(k, c, m, y)
}

fn report_of(answer: Result<(), OverCap>) -> Report {
    match answer {
        Ok(()) => None,
        Err(OverCap { index, total, cap }) => Some((index, total, cap)),
    }
}

// Takes the steps in turn.
fn each(rt: &impl Abort, meters: &mut Meters, steps: &[Step]) {
    for step in steps {
        match step {
            Step::Count(dots, wanted) => {
                let report = report_of(count(meters, &counts_of(*dots)));
                assert!(rt; report == *wanted, "at {dots:?}");
            }
            Step::Admit(dots, wanted) => {
                let report = report_of(admit(meters, &counts_of(*dots)));
                assert!(rt; report == *wanted, "at {dots:?}");
            }
            Step::Cap(cap) => cap_all(meters, *cap),
        }
    }
}

// Takes the steps with new meters, and settles them: their sum is to be this; `None` where it does not fit.
fn try_steps(
    rt: &impl Abort,
    alloc: Global,
    kinds: &[(MeterKind, u64)],
    steps: &[Step],
    wanted: Option<InkCounts>,
) -> Result<(), Fail> {
    let mut meters = meters_of(alloc, kinds)?;
    each(rt, &mut meters, steps);
    same(rt, "the sum", &settled(meters), &wanted);
    Ok(())
}

const MOST: u64 = 18_446_744_073_709_551_615;

#[test]
fn a_new_meter_has_room_for_everything(rt: HostRuntime) {
    let meter = DotMeter::make();
    same(&rt, "its total", &meter.total(), &counts(0, 0, 0, 0));
    same(&rt, "its cap", &meter.cap(), &MOST);
    let half = 9_223_372_036_854_775_808;
    let rooms = [
        meter.room(&counts(0, MOST, 0, 0)),
        meter.room(&counts(1, MOST, 0, 0)),
        meter.room(&counts(half, 0, 0, half)),
    ];
    same(&rt, "its room", &rooms, &[true, false, false]);
}

#[test]
fn a_tie_is_room_and_one_dot_more_is_not(rt: HostRuntime) -> Result<(), Fail> {
    const STEPS: [Step; 4] = [
        Step::Cap(16),
        Step::Count([1, 2, 3, 4], None),
        Step::Admit([0, 0, 0, 6], None),
        Step::Count([0, 7, 0, 0], Some((0, 10, 16))),
    ];
    let sum = Some(counts(1, 2, 3, 4));
    try_steps(&rt, rt.alloc(), &[(MeterKind::Dots, MOST)], &STEPS, sum)
}

#[test]
fn the_first_meter_without_room_is_named(rt: HostRuntime) -> Result<(), Fail> {
    const KINDS: [(MeterKind, u64); 3] = [
        (MeterKind::Dots, MOST),
        (MeterKind::Card, 15),
        (MeterKind::Card, 3),
    ];
    const STEPS: [Step; 3] = [
        Step::Count([0, 1, 1, 1], None),
        Step::Count([1, 0, 0, 0], Some((2, 3, 3))),
        Step::Count([13, 0, 0, 0], Some((1, 3, 15))),
    ];
    try_steps(&rt, rt.alloc(), &KINDS, &STEPS, Some(counts(0, 3, 3, 3)))
}

#[test]
fn a_cap_below_what_was_counted_leaves_no_room(rt: HostRuntime) -> Result<(), Fail> {
    const KINDS: [(MeterKind, u64); 2] = [(MeterKind::Card, 50), (MeterKind::Dots, MOST)];
    const STEPS: [Step; 3] = [
        Step::Count([20, 5, 4, 3], None),
        Step::Cap(10),
        Step::Count([0, 0, 0, 0], Some((0, 32, 10))),
    ];
    try_steps(&rt, rt.alloc(), &KINDS, &STEPS, Some(counts(40, 10, 8, 6)))
}

#[test]
fn totals_go_up_to_the_end_of_64_bits(rt: HostRuntime) -> Result<(), Fail> {
    const KINDS: [(MeterKind, u64); 2] = [(MeterKind::Dots, MOST), (MeterKind::Card, MOST)];
    const STEPS: [Step; 3] = [
        Step::Count([18_446_744_073_709_551_600, 0, 0, 0], None),
        Step::Count([0, 5, 5, 5], None),
        Step::Count([0, 0, 1, 0], Some((0, MOST, MOST))),
    ];
    try_steps(&rt, rt.alloc(), &KINDS, &STEPS, None)
}

#[test]
fn no_meter_refuses_nothing_and_counts_nothing(rt: HostRuntime) -> Result<(), Fail> {
    const STEPS: [Step; 2] = [Step::Cap(0), Step::Count([1, 1, 1, 1], None)];
    try_steps(&rt, rt.alloc(), &[], &STEPS, Some(counts(0, 0, 0, 0)))
}

// Counts ten dots and six on each of two meters with a cap of 16: then both totals are 16, and no dot more is admitted.
fn both_reach_16(rt: &impl Abort, alloc: Global, kinds: &[(MeterKind, u64)]) -> Result<(), Fail> {
    const STEPS: [Step; 4] = [
        Step::Cap(16),
        Step::Count([1, 2, 3, 4], None),
        Step::Count([0, 0, 0, 6], None),
        Step::Count([1, 0, 0, 0], Some((0, 16, 16))),
    ];
    let mut meters = meters_of(alloc, kinds)?;
    each(rt, &mut meters, &STEPS);
    for _ in 0..2 {
        let total = meters.pop().map(|meter| meter.total());
        same(rt, "a total", &total, &Some(counts(1, 2, 3, 10)));
    }
    Ok(())
}

#[test]
fn two_meters_both_count_up_to_their_cap(rt: HostRuntime) -> Result<(), Fail> {
    both_reach_16(
        &rt,
        rt.alloc(),
        &[(MeterKind::Dots, MOST), (MeterKind::Dots, MOST)],
    )?;
    both_reach_16(
        &rt,
        rt.alloc(),
        &[(MeterKind::Dots, 16), (MeterKind::Card, 16)],
    )
}
