//! Commands on the small printer, with refusals and sheets worked by hand.
use crate::machine::{Case, at_start, each, eject};
use dot_emulator::{Command, Emulator, EmulatorFault, RasterHead};
use job_fixtures::TINY_COMMANDS;
use printer_definitions::Ink;
use std::alloc::Global;
use std::process::Abort;
use std::test::Fail;

// The head of a raster of plain rows: the steps from row to row and from column to column, and how many of both it has.
macro_rules! head {
    ($down:literal, $across:literal, $rows:literal, $columns:literal) => {
        RasterHead {
            c: 0,
            v: $down,
            h: $across,
            m: $rows,
            n: $columns,
        }
    };
}

// Runs the commands before a page of six rows of dots, without margins.
fn begin_page(rt: &impl Abort, emulator: &mut Emulator) {
    for i in 0..7 {
        each(rt, emulator, &[(TINY_COMMANDS[i], &[], None)]);
    }
}

fn on_page(rt: &impl Abort, alloc: Global) -> Emulator {
    let mut emulator = at_start(rt, alloc);
    begin_page(rt, &mut emulator);
    emulator
}

const FIRE: Command = Command::Raster {
    head: head!(20, 10, 3, 8),
};

const LAST_ROW: &[u8] = &[0x00, 0x00, 0xFF];

const BLANK: &[u8] = &[0, 0, 0];

#[test]
fn a_raster_fired_twice_is_overprint(rt: HostRuntime) {
    const CASES: [Case; 3] = [
        (FIRE, LAST_ROW, None),
        (Command::Return, &[], None),
        (FIRE, LAST_ROW, Some(EmulatorFault::Overprint)),
    ];
    each(&rt, &mut on_page(&rt, rt.alloc()), &CASES);
}

#[test]
fn a_sheet_has_its_dots_and_the_next_is_blank(rt: HostRuntime) -> Result<(), Fail> {
    const CASES: [Case; 4] = [
        (FIRE, LAST_ROW, None),
        (Command::DownBy { n: 6 }, &[], None),
        (Command::Return, &[], None),
        (FIRE, &[0x00, 0xFF, 0x00], None),
    ];
    let mut emulator = on_page(&rt, rt.alloc());
    each(&rt, &mut emulator, &CASES);
    eject(&rt, &mut emulator, [6, 8, 16, 0], &[(0, 0, 4), (0, 7, 5)])?;
    eject(&rt, &mut emulator, [6, 1, 0, 0], &[])
}

#[test]
fn dots_begin_at_across_and_blank_rasters_widen_the_sheet(rt: HostRuntime) -> Result<(), Fail> {
    const NARROW: RasterHead = head!(20, 10, 3, 5);
    const WIDE: RasterHead = head!(20, 10, 3, 6);
    const CASES: [Case; 3] = [
        (Command::Across { n: 4 }, &[], None),
        (Command::Raster { head: NARROW }, &[0xAF, 0x07, 0x00], None),
        (Command::Raster { head: WIDE }, &[0x00, 0x03, 0x00], None),
    ];
    let mut emulator = on_page(&rt, rt.alloc());
    each(&rt, &mut emulator, &CASES);
    eject(
        &rt,
        &mut emulator,
        [6, 13, 3, 0],
        &[(0, 2, 0), (0, 4, 0), (0, 6, 0)],
    )
}

#[test]
fn init_and_eject_set_the_columns_back(rt: HostRuntime) -> Result<(), Fail> {
    let mut emulator = on_page(&rt, rt.alloc());
    each(&rt, &mut emulator, &[(FIRE, BLANK, None)]);
    begin_page(&rt, &mut emulator);
    eject(&rt, &mut emulator, [6, 1, 0, 0], &[])?;
    each(&rt, &mut emulator, &[(FIRE, BLANK, None)]);
    eject(&rt, &mut emulator, [6, 8, 0, 0], &[])?;
    eject(&rt, &mut emulator, [6, 1, 0, 0], &[])
}

#[test]
fn each_ink_has_a_plane(rt: HostRuntime) -> Result<(), Fail> {
    const CASES: [Case; 12] = [
        (Command::Colour { ink: Ink::Magenta }, &[], None),
        (Command::Return, &[], None),
        (FIRE, &[0x80, 0, 0], None),
        (Command::Colour { ink: Ink::Cyan }, &[], None),
        (Command::Return, &[], None),
        (FIRE, &[0x40, 0, 0], None),
        (Command::Colour { ink: Ink::Yellow }, &[], None),
        (Command::Return, &[], None),
        (FIRE, &[0x20, 0, 0], None),
        (Command::Colour { ink: Ink::Black }, &[], None),
        (Command::Return, &[], None),
        (FIRE, &[0x10, 0, 0], None),
    ];
    let mut emulator = on_page(&rt, rt.alloc());
    each(&rt, &mut emulator, &CASES);
    let dots = [(0, 3, 0), (1, 1, 0), (2, 0, 0), (3, 2, 0)];
    eject(&rt, &mut emulator, [6, 8, 1, 1], &dots)
}

const TWO_ROWS: RasterHead = head!(20, 10, 2, 8);

const OTHER: RasterHead = head!(20, 11, 2, 8);

const MISSING: [Case; 17] = [
    (FIRE, BLANK, Some(EmulatorFault::NotGraphics)),
    (Command::Graphics, &[], None),
    (FIRE, BLANK, Some(EmulatorFault::NoUnit)),
    (Command::Length { n: 1 }, &[], Some(EmulatorFault::NoUnit)),
    (
        Command::Margins { top: 0, bottom: 1 },
        &[],
        Some(EmulatorFault::NoUnit),
    ),
    (Command::DownTo { n: 0 }, &[], Some(EmulatorFault::NoUnit)),
    (Command::DownBy { n: 0 }, &[], Some(EmulatorFault::NoUnit)),
    (Command::Across { n: 0 }, &[], Some(EmulatorFault::NoUnit)),
    (Command::Eject, &[], Some(EmulatorFault::NoMargins)),
    (Command::Unit { m: 5 }, &[], None),
    (
        Command::Length { n: 32_767 },
        &[],
        Some(EmulatorFault::OffSheet),
    ),
    (
        Command::Margins { top: 0, bottom: 1 },
        &[],
        Some(EmulatorFault::NoMargins),
    ),
    (Command::Length { n: 12 }, &[], None),
    (
        Command::Margins { top: 0, bottom: 13 },
        &[],
        Some(EmulatorFault::OffSheet),
    ),
    (
        Command::DownTo { n: 99 },
        &[],
        Some(EmulatorFault::NoMargins),
    ),
    (
        Command::DownBy { n: 99 },
        &[],
        Some(EmulatorFault::NoMargins),
    ),
    (
        Command::Raster { head: OTHER },
        &[0, 0],
        Some(EmulatorFault::NoMargins),
    ),
];

#[test]
fn what_is_missing_is_refused_first(rt: HostRuntime) {
    each(&rt, &mut at_start(&rt, rt.alloc()), &MISSING);
}

#[test]
fn the_numbers_of_a_raster_are_refused_in_their_order(rt: HostRuntime) {
    const WIDER: RasterHead = head!(10, 10, 2, 8);
    const WIDEST: Command = Command::Raster {
        head: head!(20, 10, 3, 8191),
    };
    const LONG: &[u8] = &[0; 3072];
    const CASES: [Case; 11] = [
        (Command::Across { n: 1 }, &[], None),
        (
            Command::Raster { head: OTHER },
            &[0, 0],
            Some(EmulatorFault::Density),
        ),
        (
            Command::Raster { head: WIDER },
            &[0, 0],
            Some(EmulatorFault::Density),
        ),
        (
            Command::Raster { head: TWO_ROWS },
            &[0, 0],
            Some(EmulatorFault::Rows),
        ),
        (WIDEST, LONG, Some(EmulatorFault::OffGrid)),
        (Command::Across { n: 2 }, &[], None),
        (WIDEST, LONG, Some(EmulatorFault::OffSheet)),
        (Command::Return, &[], None),
        (WIDEST, LONG, None),
        (Command::Return, &[], None),
        (Command::DownBy { n: 1 }, &[], None),
    ];
    let mut emulator = on_page(&rt, rt.alloc());
    each(&rt, &mut emulator, &CASES);
    each(
        &rt,
        &mut emulator,
        &[(FIRE, BLANK, Some(EmulatorFault::OffGrid))],
    );
}

#[test]
fn a_sheet_with_dots_goes_on_downwards(rt: HostRuntime) {
    const CASES: [Case; 12] = [
        (FIRE, &[0x00, 0x80, 0x00], None),
        (Command::Init, &[], Some(EmulatorFault::Backward)),
        (
            Command::Length { n: 32_767 },
            &[],
            Some(EmulatorFault::Backward),
        ),
        (
            Command::Margins { top: 0, bottom: 13 },
            &[],
            Some(EmulatorFault::Backward),
        ),
        (Command::DownTo { n: 4 }, &[], None),
        (Command::DownTo { n: 3 }, &[], Some(EmulatorFault::Backward)),
        (
            Command::DownTo { n: 13 },
            &[],
            Some(EmulatorFault::OffSheet),
        ),
        (Command::DownBy { n: 9 }, &[], Some(EmulatorFault::OffSheet)),
        (Command::Return, &[], None),
        (FIRE, &[0x80, 0x00, 0x80], Some(EmulatorFault::OffSheet)),
        (FIRE, &[0x80, 0x00, 0x00], Some(EmulatorFault::Overprint)),
        (FIRE, &[0x40, 0x80, 0x00], None),
    ];
    each(&rt, &mut on_page(&rt, rt.alloc()), &CASES);
}

#[test]
fn a_sheet_has_dots_from_its_first_dot_on(rt: HostRuntime) -> Result<(), Fail> {
    let mut emulator = on_page(&rt, rt.alloc());
    each(&rt, &mut emulator, &[(FIRE, BLANK, None)]);
    assert!(rt; !emulator.has_dots());
    each(&rt, &mut emulator, &[(FIRE, LAST_ROW, None)]);
    assert!(rt; emulator.has_dots());
    eject(&rt, &mut emulator, [6, 16, 8, 0], &[])?;
    assert!(rt; !emulator.has_dots());
    Ok(())
}
