//! Counts of planes whose dots are set one by one.
use crate::checks::{same, turn_on};
use dot_planes::Planes;
use ink_meter::count_dots;
use printer_definitions::{InkCounts, InkSet};
use std::test::Fail;

#[test]
fn each_ink_has_the_dots_of_its_plane(rt: HostRuntime) -> Result<(), Fail> {
    const DOTS: [(u8, u32, u32); 6] = [
        (0, 0, 0),
        (1, 9, 0),
        (1, 9, 1),
        (3, 7, 1),
        (3, 8, 1),
        (3, 9, 1),
    ];
    const ALL: InkCounts = InkCounts {
        k: 1,
        c: 2,
        m: 0,
        y: 3,
    };
    let mut planes = Planes::make(rt.alloc(), 10, 2, 4)?;
    turn_on(&rt, &mut planes, &DOTS);
    assert!(rt; planes.inks() == 4 && planes.width() == 10);
    same(&rt, "all inks", &count_dots(InkSet::Cmyk, &planes), &ALL);
    Ok(())
}

#[test]
fn an_ink_without_a_plane_has_no_dots(rt: HostRuntime) -> Result<(), Fail> {
    const BLACK: InkCounts = InkCounts {
        k: 1,
        c: 0,
        m: 0,
        y: 0,
    };
    const YELLOW: InkCounts = InkCounts {
        k: 0,
        c: 0,
        m: 0,
        y: 1,
    };
    let mut black = Planes::make(rt.alloc(), 3, 1, 1)?;
    black.turn_on(0, 2, 0);
    let mut colours = Planes::make(rt.alloc(), 3, 1, 3)?;
    colours.turn_on(2, 0, 0);
    same(&rt, "black", &count_dots(InkSet::K, &black), &BLACK);
    same(&rt, "yellow", &count_dots(InkSet::Cmy, &colours), &YELLOW);
    Ok(())
}
