//! Windows worked out by hand.
ghost use Rattle.std.specs.Prelude.{IsTrue};
ghost use Rattle.tile_shape.specs.Geometry.{IsShape};

use crate::checks::same;
use base_definitions::{MOST_COLUMNS, MOST_ROWS};
use tile_shape::{Dir, Place, Shape};

// A window of five columns and three bands.
const SHAPE: Shape = Shape {
    width: 200,
    height: 70,
};

const NARROW: Shape = Shape {
    width: 1,
    height: 70,
};

const FLAT: Shape = Shape {
    width: 200,
    height: 1,
};

const WIDEST: Shape = Shape {
    width: 8191,
    height: 1,
};

const LARGEST: Shape = Shape {
    width: 8191,
    height: 15840,
};

fn is_window(shape: Shape) -> bool
    ensures { IsTrue result → IsShape shape }
{
    1 <= shape.width
        && shape.width <= MOST_COLUMNS
        && 1 <= shape.height
        && shape.height <= MOST_ROWS
}

// A window, its columns and its bands.
const SIZES: [(Shape, u32, u32); 5] = [
    (SHAPE, 5, 3),
    (NARROW, 1, 3),
    (FLAT, 5, 1),
    (WIDEST, 129, 1),
    (LARGEST, 129, 495),
];

#[test]
fn windows_have_their_columns_and_bands(rt: HostRuntime) {
    for &(shape, columns, bands) in &SIZES {
        assert!(rt; is_window(shape));
        let found = (shape.columns(), shape.bands());
        same(&rt, "a window", &found, &(columns, bands));
    }
}

// A window, a column and a row of it, and the tile that has the pixel there.
const PIXELS: [(Shape, u32, u32, Place); 11] = [
    (SHAPE, 63, 0, Place { c: 0, j: 0 }),
    (SHAPE, 64, 0, Place { c: 1, j: 0 }),
    (SHAPE, 1, 31, Place { c: 0, j: 0 }),
    (SHAPE, 2, 31, Place { c: 1, j: 0 }),
    (SHAPE, 199, 31, Place { c: 4, j: 0 }),
    (SHAPE, 100, 40, Place { c: 1, j: 1 }),
    (SHAPE, 199, 69, Place { c: 3, j: 2 }),
    (NARROW, 0, 69, Place { c: 0, j: 2 }),
    (FLAT, 199, 0, Place { c: 3, j: 0 }),
    (WIDEST, 8190, 0, Place { c: 127, j: 0 }),
    (LARGEST, 8190, 15839, Place { c: 128, j: 494 }),
];

#[test]
fn a_tile_leans_left_by_two_pixels_a_row(rt: HostRuntime) {
    for &(shape, x, y, place) in &PIXELS {
        assert!(rt; is_window(shape) && x < shape.width && y < shape.height);
        same(&rt, "a pixel", &shape.tile_of(x, y), &place);
    }
}

// A window, a tile of it and an edge, and the tile that receives the edge.
const RECEIVERS: [(Shape, Place, Dir, Option<Place>); 8] = [
    (
        SHAPE,
        Place { c: 2, j: 1 },
        Dir::Right,
        Some(Place { c: 3, j: 1 }),
    ),
    (
        SHAPE,
        Place { c: 2, j: 1 },
        Dir::Bottom,
        Some(Place { c: 1, j: 2 }),
    ),
    (
        SHAPE,
        Place { c: 2, j: 1 },
        Dir::Corner,
        Some(Place { c: 2, j: 2 }),
    ),
    (NARROW, Place { c: 0, j: 0 }, Dir::Right, None),
    (NARROW, Place { c: 0, j: 0 }, Dir::Bottom, None),
    (
        NARROW,
        Place { c: 0, j: 0 },
        Dir::Corner,
        Some(Place { c: 0, j: 1 }),
    ),
    (FLAT, Place { c: 1, j: 0 }, Dir::Bottom, None),
    (FLAT, Place { c: 1, j: 0 }, Dir::Corner, None),
];

#[test]
fn a_tile_gives_its_edges_to_three_others_at_most(rt: HostRuntime) {
    for &(shape, place, dir, to) in &RECEIVERS {
        assert!(rt; is_window(shape) && place.c < shape.columns() && place.j < shape.bands());
        same(&rt, "an edge", &shape.next(place, dir), &to);
    }
}

// Which tiles of the window of five columns and three bands need each edge, by band and column.
const NEED_LEFT: [[u8; 5]; 3] = [[0, 1, 1, 1, 1], [0, 1, 1, 1, 1], [0, 1, 1, 1, 1]];

const NEED_ABOVE: [[u8; 5]; 3] = [[0, 0, 0, 0, 0], [1, 1, 1, 1, 0], [1, 1, 1, 1, 0]];

const NEED_CORNER: [[u8; 5]; 3] = [[0, 0, 0, 0, 0], [1, 1, 1, 1, 1], [1, 1, 1, 1, 1]];

// Which of its tiles give each edge.
const GIVE_RIGHT: [[u8; 5]; 3] = [[1, 1, 1, 1, 0], [1, 1, 1, 1, 0], [1, 1, 1, 1, 0]];

const GIVE_BOTTOM: [[u8; 5]; 3] = [[0, 1, 1, 1, 1], [0, 1, 1, 1, 1], [0, 0, 0, 0, 0]];

const GIVE_CORNER: [[u8; 5]; 3] = [[1, 1, 1, 1, 1], [1, 1, 1, 1, 1], [0, 0, 0, 0, 0]];

// What a tile of the window needs from its left, from above and at the corner, and gives to the right, below and at
// the corner.
const TABLES: [[[u8; 5]; 3]; 6] = [
    NEED_LEFT,
    NEED_ABOVE,
    NEED_CORNER,
    GIVE_RIGHT,
    GIVE_BOTTOM,
    GIVE_CORNER,
];

// The tables at a band and a column.
fn entries(c: u32, j: u32) -> [u8; 6] {
    let (c, j) = (c as usize % 5, j as usize % 3);
    let mut entries = [0; 6];
    for n in 0..6 {
        entries[n] = TABLES[n][j][c];
    }
    entries
}

#[test]
fn each_tile_of_200_by_70_needs_and_gives_what_the_tables_say(rt: HostRuntime) {
    for n in 0..15 {
        let place = Place { c: n % 5, j: n / 5 };
        let needs = SHAPE.needs(place);
        let found = [
            u8::from(needs.left),
            u8::from(needs.above),
            u8::from(needs.corner),
            u8::from(SHAPE.next(place, Dir::Right).is_some()),
            u8::from(SHAPE.next(place, Dir::Bottom).is_some()),
            u8::from(SHAPE.next(place, Dir::Corner).is_some()),
        ];
        assert!(rt; found == entries(place.c, place.j), "{place:?}: {found:?}");
    }
}
