//! Several meters, and none.
use crate::fixture::{BLACK, TINY, Wanted};
use crate::meters::fixture::{last, one_meter, runs_to};
use crate::rows::Given;
use ink_meter::{DotMeter, Meter};
use job_fixtures::{TINY_JOB, TINY_TEXT};
use meter_fixtures::{Card, counts, settled};
use std::alloc::Global;
use std::process::Abort;
use std::test::Fail;
use std::thread::Threads;

const ONE_PAGE: Given = Given::Pages(&[], &[BLACK]);

const TWO_PAGES: Given = Given::Pages(&[], &[BLACK, BLACK]);

// A meter that counts as usual, and a second one with this cap.
fn two_meters(alloc: Global, cap: u64) -> Result<Vec<Box<dyn Meter>>, Fail> {
    let mut second = DotMeter::make();
    second.set_cap(cap);
    let mut meters = one_meter(alloc, 0)?;
    meters.push(Box::new(alloc, second)?)?;
    Ok(meters)
}

// The cap of the second meter, what a black page leaves, and what both meters counted of black together.
type TwoRow = (u64, Wanted, u64);

#[test]
fn the_second_meter_refuses_for_both(rt: HostRuntime) -> Result<(), Fail> {
    const ROWS: [TwoRow; 2] = [
        (u64::MAX, (0, &[&TINY_JOB], b""), 32),
        (
            15,
            (6, &[], b"over cap: page 1: total 0, page 16, cap 15\n"),
            0,
        ),
    ];
    for &(cap, wanted, black) in &ROWS {
        let mut meters = two_meters(rt.alloc(), cap)?;
        runs_to(&rt, rt.alloc(), &TINY, ONE_PAGE, &mut meters, wanted)?;
        let counted = settled(meters);
        assert!(rt; counted == Some(counts(black, 0, 0, 0)), "cap {cap}");
    }
    Ok(())
}

// A usual meter, and a card with this cap.
fn with_card(alloc: Global, cap: u64) -> Result<Vec<Box<dyn Meter>>, Fail> {
    let mut meters = one_meter(alloc, 0)?;
    meters.push(Box::new(alloc, Card::make(cap))?)?;
    Ok(meters)
}

// Words over two black pages, what they leave, the cap of the card, and what both meters counted of black each.
type CardRow = (&'static [&'static str], Wanted, u64, u64);

// Asserts what each run leaves with a usual meter and a card.
fn try_cards<R: Abort + Threads + Sync>(
    rt: &R,
    alloc: Global,
    rows: &[CardRow],
) -> Result<(), Fail> {
    for (words, wanted, cap, black) in rows {
        let mut meters = with_card(alloc, *cap)?;
        runs_to(rt, alloc, words, TWO_PAGES, &mut meters, *wanted)?;
        let counted = counts(*black, 0, 0, 0);
        let both = (last(&mut meters), last(&mut meters));
        let wanted = (Some((*cap, counted)), Some((u64::MAX, counted)));
        assert!(rt; both == wanted, "{words:?}");
    }
    Ok(())
}

#[test]
fn a_card_refuses_for_a_meter_of_another_kind(rt: HostRuntime) -> Result<(), Fail> {
    // showing a profile counts nothing
    const ROWS: [CardRow; 2] = [
        (
            &TINY,
            (
                6,
                &[&TINY_JOB],
                b"over cap: page 2: total 16, page 16, cap 31\n",
            ),
            31,
            16,
        ),
        (&["profile", "profile=tiny"], (0, &[TINY_TEXT], b""), 15, 0),
    ];
    try_cards(&rt, rt.alloc(), &ROWS)
}

#[test]
fn a_job_without_a_meter_has_no_cap(rt: HostRuntime) -> Result<(), Fail> {
    const WANTED: Wanted = (0, &[&TINY_JOB], b"");
    let words = ["print", "profile=tiny", "cap=0"];
    let mut none = Vec::new(rt.alloc());
    runs_to(&rt, rt.alloc(), &words, ONE_PAGE, &mut none, WANTED)
}
