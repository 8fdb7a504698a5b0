//! Boards compared with the rule over a whole window, and the answers to a few claims.
ghost use Rattle.std.specs.Prelude.{IfSome, None, length, ◌≡◌, ◌≤◌};
ghost use Rattle.tile_board.specs.Board.{IsPassOf, slab, view};
ghost use Rattle.tile_board.specs.Slabs.{shape_of};
ghost use Rattle.tile_border.specs.Tops.{IsTopOf};
ghost use Rattle.tile_shape.specs.Geometry.{IsShape, IsTile};
ghost use Rattle.tile_shape.specs.declared.tiles.Place.{Place};

use super::finish;
use crate::checks::same;
use crate::fills::amounts;
use crate::windows::top_of;
use diffusion_kernel::Kernel;
use dot_planes::InkRows;
use plain_diffusion::{Above, Amounts, Definition};
use std::alloc::Global;
use tile_board::{Board, Claim, Closed, Pass};
use tile_border::{Task, TopEdges};
use tile_shape::{Place, Shape};

// Claims a tile, and works and posts it if it is handed out. Else whether it is gone, and its word.
fn refusal(board: &Board<'_, InkRows>, p: &mut Pass, t: Place) -> Option<(bool, u64)>
    requires tile { IsTile (shape_of (slab board.now)) t }
    requires pass { IsPassOf board.now p.old }
    requires idle { (view p.old).held ≡ None }
    ensures pass { IsPassOf board.now p.new }
    ensures idle { (view p.new).held ≡ None }
    ensures number { (view p.new).number ≡ (view p.old).number }
{
    match board.claim(p, t) {
        Claim::Got(task) => {
            let done = board.work(task);
            board.post(p, done);
            None
        }
        Claim::NotReady { word } => Some((false, word)),
        Claim::Gone { word } => Some((true, word)),
    }
}

// Claims tile n for a pass that holds none, and works and posts it if it gets it. The tile's word if it is not ready.
fn try_tile(board: &Board<'_, InkRows>, shape: Shape, p: &mut Pass, n: u32) -> Option<u64>
    requires shape { shape ≡ shape_of (slab board.now) }
    requires sizes { IsShape shape }
    requires pass { IsPassOf board.now p.old }
    ensures pass { IsPassOf board.now p.new }
    ensures number { (view p.new).number ≡ (view p.old).number }
{
    if p.holds().is_some() {
        return None;
    }
    let columns = shape.columns();
    let t = Place {
        c: n % columns,
        j: n / columns % shape.bands(),
    };
    match refusal(board, p, t) {
        Some((false, word)) => Some(word),
        _ => None,
    }
}

// Tries this many tiles, in a scattered order.
fn try_tiles(board: &Board<'_, InkRows>, shape: Shape, p: &mut Pass, seed: u32, tries: u32)
    requires shape { shape ≡ shape_of (slab board.now) }
    requires sizes { IsShape shape }
    requires pass { IsPassOf board.now p.old }
    ensures pass { IsPassOf board.now p.new }
    ensures number { (view p.new).number ≡ (view p.old).number }
{
    let mut n = seed;
    for _ in 0..tries {
        n = n.wrapping_mul(1664525).wrapping_add(1013904223);
        let _ = try_tile(board, shape, p, n >> 8);
    }
}

// Cuts this many passes off the first, has all of them try tiles in turn, and joins them, the last one first.
fn try_with(board: &Board<'_, InkRows>, shape: Shape, p: &mut Pass, passes: u8)
    requires shape { shape ≡ shape_of (slab board.now) }
    requires sizes { IsShape shape }
    requires pass { IsPassOf board.now p.old }
    requires first { (view p.old).number ≡ 0 }
    ensures pass { IsPassOf board.now p.new }
    ensures number { (view p.new).number ≡ 0 }
{
    if passes == 0 || p.parts() < 2 {
        return;
    }
    let mut q = board.split(p);
    try_tiles(board, shape, &mut q, u32::from(passes), 20);
    try_with(board, shape, p, passes - 1);
    try_tiles(board, shape, &mut q, u32::from(passes), 20);
    try_tiles(board, shape, p, u32::from(passes), 20);
    if q.holds().is_none() {
        board.join(p, q);
    }
}

// Diffuses rows below a top on a board, by the first pass and this many others.
fn diffuse(
    alloc: Global,
    kernel: Kernel,
    rows: &InkRows,
    top: TopEdges,
    passes: u8,
) -> Option<Closed>
    requires { IsTopOf rows.now.width rows.now.inks top }
    ensures { IfSome result (λ closed. IsTopOf rows.now.width rows.now.inks closed.bottom) }
{
    let Ok((board, mut p)) = Board::make(alloc, rows, kernel, top, Vec::new(alloc)) else {
        return None;
    };
    let shape = rows.shape();
    try_with(&board, shape, &mut p, passes);
    if p.holds().is_none() && finish(&board, shape, &mut p) {
        Some(board.close(p))
    } else {
        None
    }
}

// The dot of an ink at a pixel of the window.
fn dot(closed: &Closed, shape: Shape, i: u8, x: u32, y: u32) -> Option<bool>
    requires { IsShape shape }
{
    if x >= shape.width || y >= shape.height {
        return None;
    }
    let t = shape.tile_of(x, y);
    let n = (t.j as usize)
        .wrapping_mul(shape.columns() as usize)
        .wrapping_add(t.c as usize);
    let d = closed.dots.get(n)?;
    if d.place != t || i >= d.bits.inks() {
        return None;
    }
    let row = y % 32;
    let offset = x.wrapping_add(2 * row).wrapping_sub(t.c.wrapping_mul(64));
    let at = (64 * row).wrapping_add(offset);
    let byte = d.bits.ink(i).get((at / 8) as usize)?;
    Some(*byte >> (7 - at % 8) & 1 == 1)
}

// How many dots of an ink are wrong, in rows that begin at row `first` of a window.
fn wrong_dots(closed: &Closed, shape: Shape, known: &Definition, i: u8, first: u32) -> u32
    requires { IsShape shape }
{
    let mut wrong = 0u32;
    for y in 0..shape.height {
        for x in 0..shape.width {
            let wanted = known.dot(i64::from(x), i64::from(first.wrapping_add(y)));
            if dot(closed, shape, i, x, y) != Some(wanted) {
                wrong = wrong.wrapping_add(1);
            }
        }
    }
    wrong
}

// A window: its kernel, its columns, its rows below the first 32, its inks, and how many passes its boards have beside
// the first.
type Window = (Kernel, u32, u32, u8, u8);

// Diffuses rows of a window from row `first` on by a board below a top. How many dots are wrong, and the top of the
// rows below.
fn wrong_in_slab(
    alloc: Global,
    window: Window,
    top: TopEdges,
    first: u32,
    height: u32,
) -> Option<(u32, TopEdges)>
    requires { IsTopOf window.1 window.3 top }
    ensures { IfSome result (λ r. IsTopOf window.1 window.3 r.1) }
{
    let (kernel, width, below, inks, passes) = window;
    let rows = amounts(alloc, None, width, inks, first, height)?;
    let closed = diffuse(alloc, kernel, &rows, top, passes)?;
    let mut wrong = 0u32;
    for i in 0..inks {
        let (fill, above) = (Amounts::Mixed(i), Above::Edges(0));
        let known = Definition::make(alloc, kernel, fill, above, width, below.saturating_add(32))?;
        wrong = wrong.wrapping_add(wrong_dots(&closed, rows.shape(), &known, i, first));
    }
    Some((wrong, closed.bottom))
}

// How many dots are wrong in a window whose first 32 rows are one board and the rest another below it.
fn wrong_in_slabs(alloc: Global, window: Window) -> Option<u32> {
    let (_, width, below, inks, _) = window;
    let top = top_of(alloc, width, inks, 0)?;
    let (upper, top) = wrong_in_slab(alloc, window, top, 0, 32)?;
    let (lower, _bottom) = wrong_in_slab(alloc, window, top, 32, below)?;
    Some(upper.wrapping_add(lower))
}

#[test]
fn boards_give_the_dots_of_the_whole_window(rt: HostRuntime) {
    let windows = [
        (1, 1, 1, 0),
        (66, 1, 4, 1),
        (200, 70, 1, 2),
        (130, 39, 3, 8),
        (64, 100, 2, 64),
        (2, 100, 1, 3),
    ];
    for kernel in [Kernel::Floyd, Kernel::Stucki] {
        for (width, height, inks, passes) in windows {
            let window = (kernel, width, height, inks, passes);
            let wrong = wrong_in_slabs(rt.alloc(), window);
            assert!(rt;
                wrong == Some(0),
                "{kernel:?} at {width} by {height}, {passes} passes"
            );
        }
    }
}

// Whether every error that a tile is handed is 0.
fn is_handed_zeros(task: &Task) -> bool
    requires left { 1 ≤ length task.now.left }
    requires above { 1 ≤ length task.now.above }
    requires corner { 1 ≤ length task.now.corner }
{
    *task.left.ink(0) == [0; 192]
        && *task.above.ink(0) == [0; 128]
        && *task.corner.ink(0) == [0; 12]
}

// What two passes are told around the work on the first tile: refusals, and whether each error that it is handed is 0.
// Then the parts of the passes, and the tiles that they hold.
type Told = ([Option<(bool, u64)>; 4], bool, [u16; 2], [Option<Place>; 2]);

const TOLD: Told = (
    [
        Some((false, 0)),
        Some((true, 8)),
        Some((false, 4)),
        Some((true, 24)),
    ],
    true,
    [255, 1],
    [None, None],
);

fn tell(alloc: Global) -> Option<Told> {
    let rows = amounts(alloc, Some(100), 200, 1, 0, 70)?;
    let top = top_of(alloc, 200, 1, 0)?;
    let Ok((board, mut p)) = Board::make(alloc, &rows, Kernel::Floyd, top, Vec::new(alloc)) else {
        return None;
    };
    let mut q = board.split(&mut p);
    let second = refusal(&board, &mut p, Place { c: 1, j: 0 });
    let Claim::Got(task) = board.claim(&mut p, Place { c: 0, j: 0 }) else {
        return None;
    };
    let is_handed_zeros = is_handed_zeros(&task);
    let taken = refusal(&board, &mut q, Place { c: 0, j: 0 });
    let done = board.work(task);
    board.post(&mut p, done);
    let below = refusal(&board, &mut q, Place { c: 0, j: 1 });
    let posted = refusal(&board, &mut q, Place { c: 0, j: 0 });
    let parts = [p.parts(), q.parts()];
    let holds = [p.holds(), q.holds()];
    Some((
        [second, taken, below, posted],
        is_handed_zeros,
        parts,
        holds,
    ))
}

// The words of the tile in column 1 of band 1, whose number is 6, before each of four other tiles is worked.
fn words_before(alloc: Global, tiles: [u32; 4]) -> Option<[Option<u64>; 4]> {
    let rows = amounts(alloc, Some(100), 200, 1, 0, 70)?;
    let top = top_of(alloc, 200, 1, 0)?;
    let Ok((board, mut p)) = Board::make(alloc, &rows, Kernel::Floyd, top, Vec::new(alloc)) else {
        return None;
    };
    let shape = rows.shape();
    let mut words = [None; 4];
    for k in 0..4 {
        words[k] = try_tile(&board, shape, &mut p, 6);
        let _ = try_tile(&board, shape, &mut p, tiles[k]);
    }
    Some(words)
}

// Four tiles, and the words of the tile with three needs: bit 4 comes from the tile above, 2 from the one above and to
// the right, and 1 from the left.
const WORDS: [([u32; 4], [Option<u64>; 4]); 2] = [
    ([0, 1, 2, 5], [Some(0), Some(0), Some(4), Some(6)]),
    ([0, 1, 5, 2], [Some(0), Some(0), Some(4), Some(5)]),
];

#[test]
fn claims_carry_the_word_they_found(rt: HostRuntime) {
    same(&rt, "two passes", &tell(rt.alloc()), &Some(TOLD));
    for &(tiles, words) in &WORDS {
        let found = words_before(rt.alloc(), tiles);
        same(&rt, "a tile with three needs", &found, &Some(words));
    }
}
