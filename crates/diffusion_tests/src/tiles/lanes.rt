//! One ink of a tile: compared with the rule over whole windows, and at any edges with the rule pixel by pixel.
ghost use Rattle.diffusion_definitions.specs.Diffusion.{EachInRange, InRange};
ghost use Rattle.std.specs.Prelude.{true, ◌<◌, ◌≡◌};
ghost use Rattle.tile_lanes.specs.Done.{window_of};
ghost use Rattle.tile_shape.specs.Geometry.{IsTile};

use crate::checks::same;
use crate::fills::{amounts, fill_of};
use base_definitions::MOST_COLUMNS;
use diffusion_kernel::Kernel;
use dot_planes::InkRows;
use plain_diffusion::{Above, Definition};
use std::alloc::Global;
use tile_lanes::{diffuse_blank, diffuse_tile};
use tile_shape::{Place, Shape};

// A block of a tile's errors: from a row and an offset on, row by row, `wide` errors of each.
#[derive(Clone, Copy)]
struct Block {
    row: i64,
    offset: i64,
    wide: usize,
}

const LEFT: Block = Block {
    row: 0,
    offset: -6,
    wide: 6,
};

const ABOVE: Block = Block {
    row: -2,
    offset: 0,
    wide: 64,
};

const CORNER: Block = Block {
    row: -2,
    offset: -6,
    wide: 6,
};

const RIGHT: Block = Block {
    row: 0,
    offset: 58,
    wide: 6,
};

const BOTTOM: Block = Block {
    row: 30,
    offset: 0,
    wide: 64,
};

const LOWER_CORNER: Block = Block {
    row: 30,
    offset: 58,
    wide: 6,
};

// What a tile is handed, or hands on.
#[derive(Clone, Copy)]
struct Edges {
    side: [i16; 192],
    bottom: [i16; 128],
    corner: [i16; 12],
}

// The row and the offset of the n-th error of a block.
fn place_in(block: Block, n: usize) -> (i64, i64) {
    let wide = block.wide.max(1);
    let row = block.row.wrapping_add((n / wide % 64) as i64);
    let offset = block.offset.wrapping_add((n % wide % 64) as i64);
    (row, offset)
}

fn error_of(known: &Definition, place: Place, block: Block, n: usize) -> i32 {
    let (row, offset) = place_in(block, n);
    let y = i64::from(place.j).wrapping_mul(32).wrapping_add(row);
    let x = i64::from(place.c).wrapping_mul(64).wrapping_add(offset);
    known.error(x.wrapping_sub(row.wrapping_mul(2)), y)
}

fn error_in_range(error: i32) -> i16
    ensures { InRange result }
{
    error.min(2039).max(-2040) as i16
}

// Fills an edge with the errors of a block.
fn fill(known: &Definition, place: Place, block: Block, edge: &mut [i16])
    requires { EachInRange edge.old }
    ensures { EachInRange edge.new }
{
    for n in 0..edge.len() {
        edge[n] = error_in_range(error_of(known, place, block, n));
    }
}

// Fills an edge with one error.
fn fill_all(edge: &mut [i16], error: i32)
    requires { EachInRange edge.old }
    ensures { EachInRange edge.new }
{
    for n in 0..edge.len() {
        edge[n] = error_in_range(error);
    }
}

// No errors.
fn no_edges() -> Edges
    ensures side { EachInRange result.side }
    ensures bottom { EachInRange result.bottom }
    ensures corner { EachInRange result.corner }
{
    Edges {
        side: [0; 192],
        bottom: [0; 128],
        corner: [0; 12],
    }
}

// What a tile is handed.
fn handed(known: &Definition, place: Place) -> Edges
    ensures side { EachInRange result.side }
    ensures bottom { EachInRange result.bottom }
    ensures corner { EachInRange result.corner }
{
    let mut edges = no_edges();
    fill(known, place, LEFT, &mut edges.side);
    fill(known, place, ABOVE, &mut edges.bottom);
    fill(known, place, CORNER, &mut edges.corner);
    edges
}

fn is_block(known: &Definition, place: Place, block: Block, edge: &[i16]) -> bool {
    for n in 0..edge.len() {
        if i32::from(edge[n]) != error_of(known, place, block, n) {
            return false;
        }
    }
    true
}

fn has_dots(known: &Definition, place: Place, dots: &[u8; 256]) -> bool {
    for n in 0..2048 {
        let row = (n / 64) as i64;
        let y = i64::from(place.j).wrapping_mul(32).wrapping_add(row);
        let x = i64::from(place.c)
            .wrapping_mul(64)
            .wrapping_add((n % 64) as i64);
        let dot = dots[n / 8] & (128u8 >> (n % 8)) != 0;
        if dot != known.dot(x.wrapping_sub(row.wrapping_mul(2)), y) {
            return false;
        }
    }
    true
}

fn is_tile(rows: &InkRows, place: Place) -> bool
    ensures tile { result ≡ true → IsTile (window_of rows.now) place }
    ensures ink { result ≡ true → 0 < rows.now.inks }
{
    rows.width() <= MOST_COLUMNS
        && place.c < (rows.width() + 62).div_ceil(64)
        && place.j < rows.rows().div_ceil(32)
        && rows.inks() > 0
}

// What a tile gives for what it is handed.
#[derive(Clone, Copy)]
struct Given {
    edges: Edges,
    dots: [u8; 256],
}

// A tile's amounts by offsets, and 255 where the window has no pixel.
fn amounts_at(rows: &InkRows, place: Place) -> [u8; 2048] {
    let mut amounts = [255; 2048];
    for n in 0..2048 {
        let (row, offset) = ((n % 32) as i64, (n / 32) as i64);
        let y = i64::from(place.j).wrapping_mul(32).wrapping_add(row);
        let left = i64::from(place.c).wrapping_mul(64).wrapping_add(offset);
        if let Some(amount) = amount_of(rows, left.wrapping_sub(row.wrapping_mul(2)), y) {
            amounts[n] = amount;
        }
    }
    amounts
}

// A tile by `diffuse_tile`.
fn diffused(kernel: Kernel, place: Place, rows: &InkRows, handed: Edges) -> Given
    requires tile { IsTile (window_of rows.now) place }
    requires side { EachInRange handed.side }
    requires bottom { EachInRange handed.bottom }
    requires corner { EachInRange handed.corner }
{
    let mut edges = handed;
    let mut dots = [255u8; 256];
    let shape = Shape {
        width: rows.width(),
        height: rows.rows(),
    };
    diffuse_tile(
        kernel,
        shape,
        place,
        &amounts_at(rows, place),
        &mut edges.side,
        &mut edges.bottom,
        &mut edges.corner,
        &mut dots,
        &mut tile_lanes::Field::make(),
    );
    Given { edges, dots }
}

// A tile by `diffuse_blank`.
fn diffused_blank(kernel: Kernel, place: Place, rows: &InkRows, handed: Edges) -> Given
    requires tile { IsTile (window_of rows.now) place }
    requires side { EachInRange handed.side }
    requires bottom { EachInRange handed.bottom }
    requires corner { EachInRange handed.corner }
{
    let mut edges = handed;
    let mut dots = [255u8; 256];
    let shape = Shape {
        width: rows.width(),
        height: rows.rows(),
    };
    diffuse_blank(
        kernel,
        shape,
        place,
        &mut edges.side,
        &mut edges.bottom,
        &mut edges.corner,
        &mut dots,
        &mut tile_lanes::Field::make(),
    );
    Given { edges, dots }
}

// The errors near a tile of one ink, and its dots, worked out pixel by pixel: 34 rows of 70 errors, two rows above the
// tile and six errors left of it.
#[derive(Drop)]
struct Field {
    errors: [i32; 2380],
    dots: [u8; 256],
}

// Where a place of the tile stands among the errors of a field.
fn field_at(row: i64, offset: i64) -> usize {
    let place = row.wrapping_add(2).wrapping_mul(70);
    place.wrapping_add(offset).wrapping_add(6).rem_euclid(2380) as usize
}

impl Field {
    // What a tile is handed.
    fn handed(edges: &Edges) -> Field {
        let mut field = Field {
            errors: [0; 2380],
            dots: [0; 256],
        };
        field.lay(LEFT, &edges.side);
        field.lay(ABOVE, &edges.bottom);
        field.lay(CORNER, &edges.corner);
        field
    }

    fn lay(&mut self, block: Block, edge: &[i16]) {
        for n in 0..edge.len() {
            let (row, offset) = place_in(block, n);
            self.errors[field_at(row, offset) % 2380] = i32::from(edge[n]);
        }
    }

    // Whether the errors of a block are those of an edge.
    fn has(&self, block: Block, edge: &[i16]) -> bool {
        for n in 0..edge.len() {
            let (row, offset) = place_in(block, n);
            if self.errors[field_at(row, offset) % 2380] != i32::from(edge[n]) {
                return false;
            }
        }
        true
    }

    // What the errors near a place give to it.
    fn given(&self, kernel: Kernel, row: i64, offset: i64) -> i32 {
        let mut parts = 0i32;
        for weight in kernel.weights() {
            let (dx, dy) = (i64::from(weight.dx), i64::from(weight.dy));
            let from = offset.wrapping_sub(dx).wrapping_sub(dy.wrapping_mul(2));
            let error = self.errors[field_at(row.wrapping_sub(dy), from) % 2380];
            parts = parts.wrapping_add(i32::from(weight.share).wrapping_mul(error));
        }
        parts.div_euclid(i32::from(kernel.shares().divisor))
    }

    // Works the n-th place of the tile, by row and then offset.
    fn work(&mut self, kernel: Kernel, place: Place, rows: &InkRows, n: usize) {
        let (row, offset) = ((n / 64) as i64, (n % 64) as i64);
        let y = i64::from(place.j).wrapping_mul(32).wrapping_add(row);
        let left = i64::from(place.c).wrapping_mul(64).wrapping_add(offset);
        let Some(amount) = amount_of(rows, left.wrapping_sub(row.wrapping_mul(2)), y) else {
            return;
        };
        let own = i32::from(amount).wrapping_mul(16);
        let value = own.wrapping_add(self.given(kernel, row, offset));
        let is_on = value >= 2040;
        let error = if is_on {
            value.wrapping_sub(4080)
        } else {
            value
        };
        self.errors[field_at(row, offset) % 2380] = error;
        if is_on {
            self.dots[n / 8 % 256] |= 128u8 >> (n % 8);
        }
    }
}

// The amount of the first ink at a pixel, if the window has that.
fn amount_of(rows: &InkRows, x: i64, y: i64) -> Option<u8> {
    let is_pixel = 0 <= x && x < i64::from(rows.width()) && 0 <= y && y < i64::from(rows.rows());
    if is_pixel && rows.inks() > 0 {
        Some(rows.get(0, x as u32, y as u32))
    } else {
        None
    }
}

// A tile by the rule, pixel by pixel.
fn worked(kernel: Kernel, place: Place, rows: &InkRows, handed: &Edges) -> Field {
    let mut field = Field::handed(handed);
    for n in 0..2048 {
        field.work(kernel, place, rows, n);
    }
    field
}

// Whether a tile hands on what the definition says.
fn is_right(known: &Definition, kernel: Kernel, place: Place, rows: &InkRows) -> bool {
    if !is_tile(rows, place) {
        return false;
    }
    let given = diffused(kernel, place, rows, handed(known, place));
    is_block(known, place, RIGHT, &given.edges.side)
        && is_block(known, place, BOTTOM, &given.edges.bottom)
        && is_block(known, place, LOWER_CORNER, &given.edges.corner)
        && has_dots(known, place, &given.dots)
}

// How many tiles of a window are wrong, or `None` where there is no memory.
fn wrong_tiles(
    alloc: Global,
    kernel: Kernel,
    all: Option<u8>,
    width: u32,
    height: u32,
) -> Option<u32> {
    if width < 1 || width > 200 || height < 1 || height > 70 {
        return None;
    }
    let fill = fill_of(all, 0);
    let known = Definition::make(alloc, kernel, fill, Above::Mixed, width, height)?;
    let rows = amounts(alloc, all, width, 1, 0, height)?;
    let mut wrong = 0u32;
    for j in 0..height.div_ceil(32) {
        for c in 0..(width + 62).div_ceil(64) {
            if !is_right(&known, kernel, Place { c, j }, &rows) {
                wrong = wrong.wrapping_add(1);
            }
        }
    }
    Some(wrong)
}

#[test]
fn tiles_of_every_cut_have_the_errors_and_dots_of_the_rule(rt: HostRuntime) {
    for kernel in [Kernel::Floyd, Kernel::Jarvis, Kernel::Stucki] {
        for width in [1, 2, 63, 64, 65, 130, 200] {
            for height in [1, 31, 32, 33, 70] {
                let wrong = wrong_tiles(rt.alloc(), kernel, None, width, height);
                assert!(rt; wrong == Some(0), "{kernel:?} at {width} by {height}");
            }
        }
        for amount in [0, 127, 128, 255] {
            let wrong = wrong_tiles(rt.alloc(), kernel, Some(amount), 199, 69);
            assert!(rt; wrong == Some(0), "{kernel:?} of {amount}");
        }
    }
}

// Edges that all have one error.
fn edges_of(error: i32) -> Edges
    ensures side { EachInRange result.side }
    ensures bottom { EachInRange result.bottom }
    ensures corner { EachInRange result.corner }
{
    let mut edges = no_edges();
    fill_all(&mut edges.side, error);
    fill_all(&mut edges.bottom, error);
    fill_all(&mut edges.corner, error);
    edges
}

// Whether a tile hands on the errors and dots of the rule.
fn gives(wanted: &Field, given: &Given) -> bool {
    wanted.has(RIGHT, &given.edges.side)
        && wanted.has(BOTTOM, &given.edges.bottom)
        && wanted.has(LOWER_CORNER, &given.edges.corner)
        && wanted.dots == given.dots
}

// Whether a tile of 150 columns and 40 rows, at a place where its edges all have one error, has the errors and dots of
// the rule. `None` where there is no memory, or no tile.
fn is_right_at(
    alloc: Global,
    kernel: Kernel,
    all: Option<u8>,
    place: Place,
    error: i32,
) -> Option<bool> {
    let rows = amounts(alloc, all, 150, 1, 0, 40)?;
    if !is_tile(&rows, place) {
        return None;
    }
    let edges = edges_of(error);
    let wanted = worked(kernel, place, &rows, &edges);
    Some(gives(&wanted, &diffused(kernel, place, &rows, edges)))
}

// The same of a tile without an amount, by `diffuse_blank`.
fn is_right_blank(alloc: Global, kernel: Kernel, place: Place, error: i32) -> Option<bool> {
    let rows = amounts(alloc, Some(0), 150, 1, 0, 40)?;
    if !is_tile(&rows, place) {
        return None;
    }
    let edges = edges_of(error);
    let wanted = worked(kernel, place, &rows, &edges);
    Some(gives(&wanted, &diffused_blank(kernel, place, &rows, edges)))
}

// A tile's column and band, and the error of all its edges.
const EXTREMES: [(u32, u32, i32); 6] = [
    (0, 0, -2040),
    (0, 1, 2039),
    (1, 0, 2039),
    (1, 0, -2040),
    (2, 1, -2040),
    (3, 0, 2039),
];

#[test]
fn the_least_and_greatest_errors_have_the_errors_and_dots_of_the_rule(rt: HostRuntime) {
    for all in [None, Some(0), Some(255)] {
        for kernel in [Kernel::Floyd, Kernel::Jarvis, Kernel::Stucki] {
            for &(c, j, error) in &EXTREMES {
                let found = is_right_at(rt.alloc(), kernel, all, Place { c, j }, error);
                assert!(rt; found == Some(true), "{kernel:?} of {all:?} at {c}, {j}");
            }
        }
    }
}

#[test]
fn blank_tiles_have_the_errors_and_dots_of_the_rule(rt: HostRuntime) {
    for kernel in [Kernel::Floyd, Kernel::Jarvis, Kernel::Stucki] {
        for &(c, j, most) in &EXTREMES {
            for error in [most, 0] {
                let found = is_right_blank(rt.alloc(), kernel, Place { c, j }, error);
                assert!(rt; found == Some(true), "{kernel:?} at {c}, {j} below {error}");
            }
        }
    }
}

// The dots of the tile of four halves below errors 0.
fn dots_of_halves(alloc: Global) -> Option<[u8; 256]> {
    let rows = amounts(alloc, Some(128), 4, 1, 0, 1)?;
    let place = Place { c: 0, j: 0 };
    if !is_tile(&rows, place) {
        return None;
    }
    Some(diffused(Kernel::Floyd, place, &rows, no_edges()).dots)
}

#[test]
fn four_halves_give_every_other_dot(rt: HostRuntime) {
    let mut want = [0u8; 256];
    want[0] = 0xA0;
    same(&rt, "the dots", &dots_of_halves(rt.alloc()), &Some(want));
}
