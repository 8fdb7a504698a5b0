//! Dots and amounts worked by hand, and tiles that are put into planes.
ghost use Rattle.std.specs.Prelude.{◌<◌};

use crate::checks::{Row, has_rows, same, turn_on};
use dot_planes::{InkRows, Planes, TileBits, TileDots, has_dot};
use std::alloc::Global;
use std::process::Abort;
use std::test::Fail;
use tile_shape::Place;

#[test]
fn dots_begin_at_the_highest_bit(rt: HostRuntime) -> Result<(), Fail> {
    const ROWS: [Row; 3] = [
        (1, 1, &[0x80, 0x40]),
        (2, 0, &[0x10, 0x00]),
        (1, 0, &[0x00, 0x00]),
    ];
    let mut planes = Planes::make(rt.alloc(), 10, 2, 3)?;
    let sizes = (planes.width(), planes.rows(), planes.inks());
    planes.turn_on(1, 0, 1);
    planes.turn_on(1, 9, 1);
    planes.turn_on(2, 3, 0);
    let dots = [planes.dot(1, 9, 1), planes.dot(1, 8, 1)];
    let counts = [planes.count(0), planes.count(1), planes.count(2)];
    has_rows(&rt, &planes, &ROWS);
    same(&rt, "its sizes", &sizes, &(10, 2, 3));
    same(&rt, "its dots", &dots, &[true, false]);
    same(&rt, "its counts", &counts, &[0, 2, 1]);
    Ok(())
}

// Stops the test where one of these rows has other amounts.
fn has_amounts(rt: &impl Abort, rows: &InkRows, wanted: &[Row]) {
    for (ink, y, amounts) in wanted {
        assert!(rt; *ink < rows.inks() && *y < rows.rows());
        assert!(rt; rows.row(*ink, *y) == *amounts, "row {y} of ink {ink}");
    }
}

#[test]
fn amounts_are_kept_ink_by_ink(rt: HostRuntime) -> Result<(), Fail> {
    const BEFORE: [Row; 2] = [(3, 1, &[0, 0, 7]), (2, 1, &[0, 5, 6])];
    const AFTER: [Row; 3] = [(3, 0, &[0, 0, 7]), (2, 0, &[0, 5, 6]), (2, 1, &[0, 5, 6])];
    let mut rows = InkRows::make(rt.alloc(), 3, 2, 4)?;
    let sizes = (rows.width(), rows.rows(), rows.inks());
    rows.set(3, 2, 1, 7);
    rows.put_part(2, 1, 1, &[5, 6]);
    let amounts = [rows.get(2, 1, 1), rows.get(3, 0, 0)];
    has_amounts(&rt, &rows, &BEFORE);
    rows.copy_row(1, 0);
    has_amounts(&rt, &rows, &AFTER);
    same(&rt, "its sizes", &sizes, &(3, 2, 4));
    same(&rt, "its amounts", &amounts, &[5, 0]);
    Ok(())
}

#[test]
fn rows_are_laid_between_bytes(rt: HostRuntime) -> Result<(), Fail> {
    let mut planes = Planes::make(rt.alloc(), 20, 2, 4)?;
    planes.lay(2, 1, 3, &[0xA0, 0xFF], 9);
    has_rows(&rt, &planes, &[(2, 1, &[0x14, 0x10, 0x00])]);
    let counts = [planes.count(0), planes.count(2)];
    planes.lay(2, 1, 8, &[0x01], 8);
    has_rows(&rt, &planes, &[(2, 1, &[0x14, 0x11, 0x00])]);
    let met = [
        planes.meets(2, 1, 11, &[0x80], 1),
        planes.meets(2, 1, 12, &[0x80], 1),
        planes.meets(2, 0, 11, &[0x80], 1),
        planes.meets(1, 1, 11, &[0x80], 1),
    ];
    let dotted = [has_dot(&[0x00, 0x80], 9), has_dot(&[0x00, 0x40], 9)];
    same(&rt, "its counts", &counts, &[0, 3]);
    same(&rt, "what it meets", &met, &[true, false, false, false]);
    same(&rt, "rows with dots", &dotted, &[true, false]);
    Ok(())
}

// A byte of a tile's dots, and a dot that the planes have before a tile is put.
fn tile_byte(ink: usize, n: usize) -> u8
    requires ink { ink < 4 }
    requires n { n < 256 }
{
    ((37 * n + 91 * ink + 5) % 251) as u8
}

fn had_dot(ink: u8, x: u32, y: u32) -> bool
    requires ink { ink < 4 }
    requires x { x < 100 }
    requires y { y < 100 }
{
    (7 * x + 3 * y + u32::from(ink)) % 5 == 0
}

// The dot of a tile at (x, y) of a slab, from the definition of a tile; `None` where the pixel is another tile's.
fn tile_dot(place: Place, ink: u8, x: u32, y: u32) -> Option<bool>
    requires ink { ink < 4 }
    requires x { x < 100 }
    requires y { y < 100 }
{
    let row = y % 32;
    let u = x + 2 * row;
    if y / 32 != place.j || u / 64 != place.c {
        return None;
    }
    let offset = u % 64;
    let byte = tile_byte(usize::from(ink), (8 * row + offset / 8) as usize);
    Some(byte >> (7 - offset % 8) & 1 == 1)
}

// The dot at (x, y) after a tile was put into the slab of rows 5 to 39.
fn wanted_dot(place: Place, ink: u8, x: u32, y: u32) -> bool
    requires ink { ink < 4 }
    requires x { x < 100 }
    requires y { y < 100 }
{
    let before = had_dot(ink, x, y);
    if y < 5 || y >= 40 {
        return before;
    }
    tile_dot(place, ink, x, y - 5).unwrap_or(before)
}

// Sets the dots of `had_dot` in an ink of planes of 70 columns and 44 rows.
fn fill(rt: &impl Abort, planes: &mut Planes, ink: u8)
    requires { ink < 2 }
{
    for y in 0..44 {
        for x in 0..70 {
            if had_dot(ink, x, y) {
                turn_on(rt, planes, &[(ink, x, y)]);
            }
        }
    }
}

fn fill_tile(rt: &impl Abort, bits: &mut TileBits, ink: u8) {
    assert!(rt; ink < bits.inks());
    let bytes = bits.ink_mut(ink);
    for n in 0..256 {
        bytes[n] = tile_byte(usize::from(ink), n);
    }
}

// Planes of two inks, with a tile put into the slab of rows 5 to 39.
fn planes_with_tile(rt: &impl Abort, alloc: Global, place: Place) -> Result<Planes, Fail>
    requires column { place.c < 3 }
    requires band { place.j < 2 }
{
    let mut planes = Planes::make(alloc, 70, 44, 2)?;
    let mut bits = TileBits::make(alloc, 2)?;
    for ink in 0..2 {
        fill(rt, &mut planes, ink);
        fill_tile(rt, &mut bits, ink);
    }
    assert!(rt; planes.width() == 70 && planes.rows() == 44);
    planes.put_tile(5, 35, &TileDots { place, bits });
    Ok(planes)
}

// Stops the test where an ink has other dots than the tile's in its pixels and those from before elsewhere.
fn has_tile(rt: &impl Abort, planes: &Planes, place: Place, ink: u8)
    requires { ink < 2 }
{
    assert!(rt; ink < planes.inks() && planes.width() == 70 && planes.rows() == 44);
    for y in 0..44 {
        for x in 0..70 {
            assert!(rt;
                planes.dot(ink, x, y) == wanted_dot(place, ink, x, y),
                "at {x}, {y}"
            );
        }
    }
}

#[test]
fn each_tile_of_a_slab_sets_its_pixels_and_no_others(rt: HostRuntime) -> Result<(), Fail> {
    // Row 5 begins a slab of 35 rows and three columns of tiles.
    for j in 0..2 {
        for c in 0..3 {
            let place = Place { c, j };
            let planes = planes_with_tile(&rt, rt.alloc(), place)?;
            has_tile(&rt, &planes, place, 0);
            has_tile(&rt, &planes, place, 1);
        }
    }
    Ok(())
}
