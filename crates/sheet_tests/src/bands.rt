//! Bands put into planes, compared with their tiles put one by one, and a band worked by hand.
ghost use Rattle.std.specs.Prelude.{◌≤◌};

use crate::checks::{Row, has_rows, row};
use dot_planes::{Planes, TileBits, TileDots};
use std::alloc::Global;
use std::process::Abort;
use std::test::Fail;
use tile_shape::{Place, Shape};

// Sets every dot of a row, by the packed bytes of a full one.
fn fill_row(rt: &impl Abort, planes: &mut Planes, ink: u8, y: u32, full: &[u8]) {
    let width = planes.width();
    assert!(rt; full.len() == (width as usize + 7) / 8);
    assert!(rt; ink < planes.inks() && y < planes.rows());
    planes.lay(ink, y, 0, full, width);
}

// Planes of three inks, full of dots.
fn full_planes(rt: &impl Abort, alloc: Global, width: u32, rows: u32) -> Result<Planes, Fail>
    requires some_width { 1 ≤ width }
    requires width { width ≤ 3000 }
    requires some_rows { 1 ≤ rows }
    requires rows { rows ≤ 100 }
{
    let mut planes = Planes::make(alloc, width, rows, 3)?;
    let full = vec![in alloc; 0xFF; (width as usize + 7) / 8]?;
    for ink in 0..3 {
        for y in 0..rows {
            fill_row(rt, &mut planes, ink, y, &full);
        }
    }
    Ok(planes)
}

// Pseudo-random bytes for an ink of a tile.
fn fill_ink(rt: &impl Abort, bits: &mut TileBits, ink: u8, start: u32) {
    assert!(rt; ink < bits.inks());
    let mut seed = start;
    for byte in bits.ink_mut(ink).iter_mut() {
        seed = seed.wrapping_mul(1_664_525).wrapping_add(1_013_904_223);
        *byte = (seed >> 24) as u8;
    }
}

// A tile of two inks.
fn tile_at(rt: &impl Abort, alloc: Global, c: u32, j: u32) -> Result<TileDots, Fail> {
    let mut bits = TileBits::make(alloc, 2)?;
    let start = c.wrapping_mul(64).wrapping_add(j.wrapping_mul(2));
    fill_ink(rt, &mut bits, 0, start);
    fill_ink(rt, &mut bits, 1, start | 1);
    let place = Place { c, j };
    Ok(TileDots { place, bits })
}

// The tiles of band j.
fn band_at(rt: &impl Abort, alloc: Global, columns: u32, j: u32) -> Result<Vec<TileDots>, Fail> {
    let mut tiles = Vec::new(alloc);
    for c in 0..columns {
        tiles.push(tile_at(rt, alloc, c, j)?)?;
    }
    Ok(tiles)
}

// Where a slab of planes begins, and its rows.
type Slab = (u32, u32);

// Puts a band of a slab at once.
fn put_band(rt: &impl Abort, planes: &mut Planes, (at, height): Slab, j: u32, tiles: &[TileDots]) {
    let width = planes.width();
    assert!(rt; 1 <= width && width <= 2976);
    assert!(rt; at <= 100 && 1 <= height && height <= 100 && at + height <= planes.rows());
    let shape = Shape { width, height };
    assert!(rt; j < shape.bands() && tiles.len() == shape.columns() as usize);
    planes.put_band(at, height, j, tiles);
}

// Puts a tile of a slab.
fn put_tile(rt: &impl Abort, planes: &mut Planes, (at, height): Slab, tile: &TileDots) {
    let width = planes.width();
    assert!(rt; 1 <= width && width <= 2976);
    assert!(rt; at <= 100 && 1 <= height && height <= 100 && at + height <= planes.rows());
    let shape = Shape { width, height };
    assert!(rt; tile.place.j < shape.bands() && tile.place.c < shape.columns());
    planes.put_tile(at, height, tile);
}

// Whether all rows of three inks are the same.
fn are_same(rt: &impl Abort, one: &Planes, other: &Planes) -> bool {
    for ink in 0..3 {
        for y in 0..one.rows() {
            if row(rt, one, ink, y) != row(rt, other, ink, y) {
                return false;
            }
        }
    }
    true
}

// Puts the bands of a slab one by one, and compares them with its tiles.
fn bands_are_tiles(rt: &impl Abort, alloc: Global, width: u32, height: u32) -> Result<(), Fail>
    requires some_width { 1 ≤ width }
    requires width { width ≤ 3000 }
    requires some_height { 1 ≤ height }
    requires height { height ≤ 90 }
{
    let mut one = full_planes(rt, alloc, width, height + 5)?;
    let mut other = full_planes(rt, alloc, width, height + 5)?;
    let shape = Shape { width, height };
    for j in 0..shape.bands() {
        let tiles = band_at(rt, alloc, shape.columns(), j)?;
        for tile in &tiles {
            put_tile(rt, &mut one, (3, height), tile);
        }
        put_band(rt, &mut other, (3, height), j, &tiles);
    }
    assert!(rt; are_same(rt, &one, &other), "{width} by {height}");
    Ok(())
}

#[test]
fn a_band_is_put_as_its_tiles_are(rt: HostRuntime) -> Result<(), Fail> {
    for width in [1, 2, 63, 64, 65, 200, 2976] {
        for height in [1, 31, 32, 33, 70] {
            bands_are_tiles(&rt, rt.alloc(), width, height)?;
        }
    }
    Ok(())
}

// A tile of one ink with a few dots in its rows 0, 1 and 5.
fn worked_tile(alloc: Global, c: u32) -> Result<TileDots, Fail> {
    let mut bits = TileBits::make(alloc, 1)?;
    let bytes = bits.ink_mut(0);
    bytes[0] = 0x81;
    bytes[1] = 0x7F;
    bytes[8] = 0xD5;
    bytes[9] = 0x7F;
    bytes[41] = 0x20;
    bytes[42] = 0xC3;
    let place = Place { c, j: 0 };
    Ok(TileDots { place, bits })
}

#[test]
fn a_band_of_ten_columns_is_worked_by_hand(rt: HostRuntime) -> Result<(), Fail> {
    const ROWS: [Row; 8] = [
        (0, 0, &[0xFF, 0xC0]),
        (0, 1, &[0x81, 0x40]),
        (0, 2, &[0x55, 0xC0]),
        (0, 3, &[0x00, 0x00]),
        (0, 6, &[0x83, 0x00]),
        (0, 7, &[0xFF, 0xC0]),
        (2, 0, &[0xFF, 0xC0]),
        (2, 1, &[0x00, 0x00]),
    ];
    let alloc = rt.alloc();
    let mut planes = full_planes(&rt, alloc, 10, 8)?;
    let tiles = [worked_tile(alloc, 0)?, worked_tile(alloc, 1)?];
    put_band(&rt, &mut planes, (1, 6), 0, &tiles);
    has_rows(&rt, &planes, &ROWS);
    Ok(())
}
