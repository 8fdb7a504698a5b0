//! Heads of many nozzles: their interleaved passes fire exactly the dots that a page asks for.
use crate::any_printer::{PLAINEST, Printer};
use crate::pictures::{Picture, prints_its_dots};
use crate::plain::KERNELS;
use pwg_header::Kind;
use std::alloc::Global;
use std::process::Abort;
use std::test::Fail;
use std::thread::Threads;
use weave_base::InkSet;

/// Whether no number above 1 divides both.
pub fn is_coprime(nozzles: u32, pitch: u32) -> bool {
    let mut is_coprime = true;
    for divisor in 2..=pitch {
        is_coprime &= nozzles.checked_rem(divisor) != Some(0)
            || pitch.checked_rem(divisor) != Some(0);
    }
    is_coprime
}

// One of these, in turn.
fn in_turn<T: Copy>(first: T, second: T, third: T, turn: u16) -> T {
    match turn % 3 {
        0 => first,
        1 => second,
        _ => third,
    }
}

// Dots an inch, in turn.
fn resolution(turn: u16) -> u16 {
    if turn % 2 == 0 { 360 } else { 720 }
}

// A printer with this head and all margins. Its resolutions, inks and margins are taken in turn.
fn printer_of(nozzles: u8, pitch: u8, turn: u16) -> Printer {
    let head_rows = u16::from(nozzles.saturating_sub(1)).wrapping_mul(u16::from(pitch));
    Printer {
        hdpi: resolution(turn / 2),
        vdpi: resolution(turn),
        nozzles,
        pitch,
        inks: in_turn(InkSet::K, InkSet::Cmy, InkSet::Cmyk, turn / 4),
        black_start: 32,
        left: 1 + turn % 4,
        right: 1 + turn % 3,
        top: head_rows.max(1).saturating_add(turn % 5),
        bottom: 1 + turn % 2,
        ..PLAINEST
    }
}

// Prints a picture by this head.
fn try_head<R: Abort + Threads + Sync>(
    rt: &R,
    alloc: Global,
    nozzles: u8,
    pitch: u8,
    turn: u16,
) -> Result<(), Fail> {
    let printer = printer_of(nozzles, pitch, turn);
    let columns = 3 + u32::from(turn % 16);
    let rows = 2 + u32::from(turn % 37);
    let size = (
        columns + u32::from(printer.left) + u32::from(printer.right),
        rows + u32::from(printer.top) + u32::from(printer.bottom),
    );
    let kind = in_turn(Kind::Rgb8, Kind::Gray8, Kind::Black8, turn);
    let picture = Picture::random(alloc, kind, size, u64::from(turn))?;
    let [floyd, jarvis, stucki] = &KERNELS;
    let kernel = in_turn(floyd, jarvis, stucki, turn / 5);
    prints_its_dots(rt, alloc, &printer, &picture, kernel)
}

// Prints a picture by each head of this many nozzles.
fn try_pitches<R: Abort + Threads + Sync>(rt: &R, alloc: Global, nozzles: u8) -> Result<(), Fail> {
    for pitch in 1..10u8 {
        if is_coprime(u32::from(nozzles), u32::from(pitch)) {
            let turn = u16::from(nozzles) * 11 + u16::from(pitch) * 7;
            try_head(rt, alloc, nozzles, pitch, turn)?;
        }
    }
    Ok(())
}

// Heads of many nozzles: the nozzles, how many rows they stand apart, and the turn.
const LARGE: [(u8, u8, u16); 12] = [
    (16, 7, 8),
    (31, 8, 11),
    (59, 9, 13),
    (64, 5, 22),
    (97, 12, 36),
    (128, 3, 9),
    (180, 7, 25),
    (229, 10, 34),
    (254, 9, 47),
    (255, 13, 20),
    (3, 25, 30),
    (5, 51, 33),
];

#[test]
fn heads_fire_each_dot_once(rt: HostRuntime) -> Result<(), Fail> {
    for nozzles in 1..13u8 {
        try_pitches(&rt, rt.alloc(), nozzles)?;
    }
    for &(nozzles, pitch, turn) in &LARGE {
        try_head(&rt, rt.alloc(), nozzles, pitch, turn)?;
    }
    Ok(())
}
